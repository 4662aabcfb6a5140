//! Gathering the lists, cell by cell.

ghost use Rattle.std.specs.Prelude.{◌≡◌, ◌+◌, ◌<◌, ℕ, [], IfOk, OnOk, Contains};
ghost use Rattle.std.specs.List.Sorted.{IsStrictlyIncreasing};
ghost use Rattle.cell_lists.specs.EntryLists.{lists_of};
ghost use Rattle.cell_lists.specs.Lists.{AreListsTo, AreLists, EachPairHasOneListed, VListsAreShort};
ghost use Rattle.cell_lists.specs.Meetings.{MeetsAll};
ghost use Rattle.cell_lists.specs.Picked.{AddsLists, ArePickedFor};
ghost use Rattle.cell_lists.specs.Walks.{AreNumbers, AreColleagues, IsMet};
ghost use Rattle.letters.specs.declared.Letter.{Letter};
ghost use Rattle.quadtree.specs.TreeModel.{size, IsTree};

use crate::entry_lists::EntryLists;
use crate::flat::NumberLists;
use crate::picked::Picked;
use crate::search::{find_around, find_touching, push_below, sort_once};
use io_ports::Memory;
use quadtree::Tree;
use std::alloc::{AllocError, Global};

/// From the cells around `b` makes those that may be in a list of it, ascending.
fn meet(tree: &Tree, found: &mut Vec<u32>, b: usize) -> Result<(), AllocError>
    requires tree { IsTree tree.now }
    requires cell { b < size tree.now }
    requires numbers { AreNumbers tree.now found.old.items }
    requires around { (c : ℕ) → IsMet tree.now b c → Contains found.old.items c }
    ensures numbers { OnOk result (AreNumbers tree.now found.new.items) }
    ensures ascending { OnOk result (IsStrictlyIncreasing found.new.items) }
    ensures whole { OnOk result (MeetsAll tree.now b found.new.items) }
{
    push_below(tree, found, b)?;
    sort_once(found);
    Ok(())
}

/// What the gathering keeps from one cell to the next.
#[derive(Drop)]
struct Gathering {
    /// The colleagues of the cells so far.
    near: NumberLists,
    // What is found of a cell is used up before the next, so its vectors are kept.
    found: Vec<u32>,
    touching: Vec<u32>,
    picked: Picked,
}

impl Gathering {
    /// Before the first cell.
    fn new(alloc: Global) -> Gathering
        ensures { result.near ≡ [] }
    {
        Gathering {
            near: NumberLists::new(alloc),
            found: Vec::new(alloc),
            touching: Vec::new(alloc),
            picked: Picked::new(alloc),
        }
    }

    /// Finds the cells around the next cell `b`, and adds its colleagues.
    fn find(&mut self, tree: &Tree, b: usize) -> Result<(), AllocError>
        requires tree { IsTree tree.now }
        requires cell { b < size tree.now }
        requires colleagues { AreColleagues tree.now self.old.near b }
        ensures near { OnOk result (AreColleagues tree.now self.new.near (b + 1)) }
        ensures numbers { OnOk result (AreNumbers tree.now self.new.found.items) }
        ensures around { OnOk result ((c : ℕ) → IsMet tree.now b c → Contains self.new.found.items c) }
    {
        find_around(tree, &self.near, b, &mut self.found)?;
        find_touching(tree, &self.found, b, &mut self.touching)?;
        self.near.push(&self.touching)?;
        Ok(())
    }

    /// Picks the lists of the next cell `b`.
    fn pick(&mut self, tree: &Tree, b: usize) -> Result<(), AllocError>
        requires tree { IsTree tree.now }
        requires cell { b < size tree.now }
        requires colleagues { AreColleagues tree.now self.old.near b }
        ensures near { OnOk result (AreColleagues tree.now self.new.near (b + 1)) }
        ensures picked { OnOk result (ArePickedFor tree.now b self.new.picked) }
    {
        self.find(tree, b)?;
        meet(tree, &mut self.found, b)?;
        self.picked.pick(tree, b, &self.found)?;
        Ok(())
    }
}

impl EntryLists {
    /// No lists.
    fn new(alloc: Global) -> EntryLists
        ensures { (letter : Letter) → lists_of result letter ≡ [] }
    {
        EntryLists {
            u: NumberLists::new(alloc),
            v: NumberLists::new(alloc),
            w: NumberLists::new(alloc),
            x: NumberLists::new(alloc),
        }
    }

    /// Appends the four lists of the next cell.
    fn push(&mut self, picked: &Picked) -> Result<(), AllocError>
        ensures { OnOk result (AddsLists self.old picked.now self.new) }
    {
        self.u.push(&picked.u)?;
        self.v.push(&picked.v)?;
        self.w.push(&picked.w)?;
        self.x.push(&picked.x)?;
        Ok(())
    }

    /// Appends the lists of all cells, where there were none.
    fn gather(&mut self, alloc: Global, tree: &Tree) -> Result<(), AllocError>
        requires { (letter : Letter) → lists_of self.old letter ≡ [] }
        ensures lists { OnOk result (AreLists tree.now self.new) }
        ensures short { OnOk result (VListsAreShort self.new) }
    {
        let mut gathering = Gathering::new(alloc);
        for b in 0..tree.cells().len() {
            gathering.pick(tree, b)?;
            self.push(&gathering.picked)?;
        }
        Ok(())
    }
}

/// The lists of all cells.
fn gathered(alloc: Global, tree: &Tree) -> Result<EntryLists, AllocError>
    ensures lists { IfOk result (λ v. AreLists tree.now v) }
    ensures short { IfOk result (λ v. VListsAreShort v) }
{
    let mut lists = EntryLists::new(alloc);
    lists.gather(alloc, tree)?;
    Ok(lists)
}

/// The entries of the four lists of a tree.
///
/// A cell meets the colleagues of its parent or their quarters, and a leaf goes on to the quarters of what touches it,
/// so the time is about in proportion to the cells and the entries.
pub fn lists(alloc: Global, tree: &Tree) -> Result<EntryLists, Memory>
    ensures lists { IfOk result (λ v. AreLists tree.now v) }
    ensures one_entry { IfOk result (λ v. EachPairHasOneListed tree.now v) }
    ensures short { IfOk result (λ v. VListsAreShort v) }
{
    match gathered(alloc, tree) {
        Ok(lists) => Ok(lists),
        Err(_) => Err(Memory),
    }
}
