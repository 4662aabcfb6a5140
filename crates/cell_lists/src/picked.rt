//! The lists of one cell.

ghost use Rattle.std.specs.Prelude.{◌≡◌, ◌<◌, [], ◌∷◌, ◌++◌, OnOk};
ghost use Rattle.std.specs.List.Sorted.{IsStrictlyIncreasing};
ghost use Rattle.cell_lists.specs.Meetings.{MeetsAll};
ghost use Rattle.cell_lists.specs.Picked.{picked_of, ArePickedFor};
ghost use Rattle.cell_lists.specs.Walks.{AreNumbers};
ghost use Rattle.letters.specs.declared.Letter.{Letter};
ghost use Rattle.quadtree.specs.TreeModel.{size};

use crate::pairs::letter_of;
use letters::Letter;
use quadtree::Tree;
use std::alloc::{AllocError, Global};

/// The lists of one cell, a list for each letter.
#[derive(Drop)]
pub(crate) struct Picked {
    pub(crate) u: Vec<u32>,
    pub(crate) v: Vec<u32>,
    pub(crate) w: Vec<u32>,
    pub(crate) x: Vec<u32>,
}

impl Picked {
    /// Empty lists.
    pub(crate) fn new(alloc: Global) -> Picked {
        Picked {
            u: Vec::new(alloc),
            v: Vec::new(alloc),
            w: Vec::new(alloc),
            x: Vec::new(alloc),
        }
    }

    /// Empties the lists.
    fn clear(&mut self)
        ensures { (letter : Letter) → picked_of self.new letter ≡ [] }
    {
        self.u.clear();
        self.v.clear();
        self.w.clear();
        self.x.clear();
    }

    /// Appends a number to the list of a letter.
    fn push(&mut self, letter: Letter, c: u32) -> Result<(), AllocError>
        ensures pushed { OnOk result (picked_of self.new letter ≡ picked_of self.old letter ++ c ∷ []) }
        ensures others { OnOk result ((other : Letter) → (other ≡ letter → ⊥) → picked_of self.new other ≡ picked_of self.old other) }
    {
        match letter {
            Letter::U => self.u.push(c)?,
            Letter::V => self.v.push(c)?,
            Letter::W => self.w.push(c)?,
            Letter::X => self.x.push(c)?,
        }
        Ok(())
    }

    /// Makes them the lists of a cell, from the cells that were met, ascending.
    pub(crate) fn pick(&mut self, tree: &Tree, b: usize, met: &[u32]) -> Result<(), AllocError>
        requires cell { b < size tree.now }
        requires numbers { AreNumbers tree.now met.now }
        requires ascending { IsStrictlyIncreasing met.now }
        requires whole { MeetsAll tree.now b met.now }
        ensures { OnOk result (ArePickedFor tree.now b self.new) }
    {
        self.clear();
        for c in met {
            if let Some(letter) = letter_of(tree, b, *c as usize) {
                self.push(letter, *c)?;
            }
        }
        Ok(())
    }
}
