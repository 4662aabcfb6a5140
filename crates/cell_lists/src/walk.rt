//! The one entry of a pair of leaves, by going down both chains of ancestors.

ghost use Rattle.std.specs.Prelude.{◌≡◌, ◌<◌, ◌≤◌, IsTrue};
ghost use Rattle.cell_name.specs.Cell.{square};
ghost use Rattle.cell_name.specs.Square.{ancestor};
ghost use Rattle.cell_lists.specs.Cases.{IsCase, letter_at};
ghost use Rattle.cell_lists.specs.Entries.{AccountForAll};
ghost use Rattle.cell_lists.specs.Walk.{AncestorsTouch, IsAncestor, IsEntryOf, IsOnlyEntry};
ghost use Rattle.quadtree.specs.TreeModel.{size, square_of, node_of};

use cell_name::Cell;
use letters::{Entry, Letter};
use quadtree::Tree;

/// A letter, and the levels of the two cells of its entry.
#[derive(Clone, Copy, PartialEq, Eq, Debug)]
struct Stop {
    letter: Letter,
    first: u8,
    second: u8,
}

/// The letter that belongs to a level at which the chains of two leaves of the levels `m` and `n` come apart.
fn letter_at(m: u8, n: u8, level: u8) -> Letter
    ensures { result ≡ letter_at m n level }
{
    match (m < level, n < level) {
        (true, true) => Letter::U,
        (true, false) => Letter::W,
        (false, true) => Letter::X,
        (false, false) => Letter::V,
    }
}

/// The levels of the ancestors of `b` and `c` at which the descent of both stops.
fn descend(b: Cell, c: Cell) -> Stop
    requires { AncestorsTouch (square b) (square c) 0 0 }
    ensures { IsCase (AncestorsTouch (square b) (square c)) b.level c.level result.letter result.first result.second }
{
    for above in 0..b.level.max(c.level) {
        let level = above + 1;
        let first = level.min(b.level);
        let second = level.min(c.level);
        if !b.ancestor(first).touches(c.ancestor(second)) {
            return Stop {
                letter: letter_at(b.level, c.level, level),
                first,
                second,
            };
        }
    }
    Stop {
        letter: Letter::U,
        first: b.level,
        second: c.level,
    }
}

/// The number of a cell's ancestor.
fn ancestor_number(tree: &Tree, n: usize, level: u8) -> usize
    requires cell { n < size tree.now }
    requires level { level ≤ (square_of tree.now n).level }
    ensures in_range { result < size tree.now }
    ensures ancestor { square_of tree.now result ≡ ancestor (square_of tree.now n) level }
{
    let above = tree.cells()[n].ancestor(level);
    tree.find(above).unwrap()
}

/// The one entry that accounts for a target in the leaf `b` and a source in the leaf `c`.
///
/// Both chains of ancestors are followed down from the whole grid. Where cells of one level come apart first, the entry is V;
/// where one chain has ended, the leaf is compared with the other's ancestors, and the first apart from it gives W or X;
/// leaves that touch give U.
pub fn first_apart(tree: &Tree, b: usize, c: usize) -> Entry
    requires first { b < size tree.now }
    requires second { c < size tree.now }
    requires first_leaf { IsTrue (node_of tree.now b).is_leaf }
    requires second_leaf { IsTrue (node_of tree.now c).is_leaf }
    requires target { IsTrue (node_of tree.now b).has_target }
    requires source { IsTrue (node_of tree.now c).has_source }

    // The cells of the entry are the leaves or cells above them.
    ensures first_in_range { result.b < size tree.now }
    ensures second_in_range { result.c < size tree.now }
    ensures first_above { IsAncestor (square_of tree.now result.b) (square_of tree.now b) }
    ensures second_above { IsAncestor (square_of tree.now result.c) (square_of tree.now c) }

    // It is an entry, and it accounts for what the leaves hold.
    ensures entry { IsEntryOf tree.now result }
    ensures accounts { AccountForAll (square_of tree.now b) (square_of tree.now c) (square_of tree.now result.b) (square_of tree.now result.c) }

    // No other entry accounts for a target and a source that the leaves hold.
    ensures only { IsOnlyEntry tree.now b c result }
{
    let cells = tree.cells();
    let stop = descend(cells[b], cells[c]);
    Entry {
        letter: stop.letter,
        b: ancestor_number(tree, b, stop.first),
        c: ancestor_number(tree, c, stop.second),
    }
}
