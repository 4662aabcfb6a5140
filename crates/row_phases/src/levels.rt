//! How many levels a tree has.
ghost use Rattle.std.specs.Prelude.{◌<◌, ℕ};
ghost use Rattle.quadtree.specs.TreeModel.{size, square_of};

use quadtree::Tree;

/// How many levels the tree has: one more than that of its deepest cell.
pub(crate) fn level_count(tree: &Tree) -> u8
    ensures { (n : ℕ) → n < size tree.now → (square_of tree.now n).level < result }
{
    match tree.cells().last() {
        Some(cell) => cell.level + 1,
        None => 0,
    }
}
