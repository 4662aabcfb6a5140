//! Looking for the first cell whose row is missing.
ghost use Rattle.std.specs.Prelude.{◌≡◌, ◌<◌, length, All, MatchOption};
ghost use Rattle.quadtree.specs.TreeModel.{size, IsTree};
ghost use Rattle.tree_field.specs.Program.{source_children};
ghost use Rattle.row_board.specs.Search.{AreMarked, IsFirstUnmarked};

use quadtree::Tree;

/// The first of some cells that is not marked.
pub(crate) fn first_unmarked(marks: &[bool], cells: &[u32]) -> Option<usize>
    requires { All (λ c. c < length marks.now) cells.now }
    ensures { MatchOption result (AreMarked marks.now cells.now) (IsFirstUnmarked marks.now cells.now) }
{
    for c in cells {
        let n = *c as usize;
        if !marks[n] {
            return Some(n);
        }
    }
    None
}

/// The first quarter of cell `n` that has a source and is not marked.
pub(crate) fn first_unmarked_quarter(tree: &Tree, marks: &[bool], n: usize) -> Option<usize>
    requires tree { IsTree tree.now }
    requires cell { n < size tree.now }
    requires marks { length marks.now ≡ size tree.now }
    ensures { MatchOption result (AreMarked marks.now (source_children tree.now n)) (IsFirstUnmarked marks.now (source_children tree.now n)) }
{
    let children = tree.children(n);
    for child in children {
        let m = *child as usize;
        if tree.has_source(m) && !marks[m] {
            return Some(m);
        }
    }
    None
}
