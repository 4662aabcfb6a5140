//! The letter of a pair of cells.

ghost use Rattle.std.specs.Prelude.{◌≡◌, ◌<◌, ◌↔◌, IsTrue};
ghost use Rattle.cell_name.specs.Cell.{square};
ghost use Rattle.cell_name.specs.Square.{parent, Touches};
ghost use Rattle.cell_lists.specs.Pairs.{MeetsLetter, IsLetterOf};
ghost use Rattle.letters.specs.declared.Letter.{Letter};
ghost use Rattle.quadtree.specs.TreeModel.{size};

use cell_name::Cell;
use letters::Letter;
use quadtree::Tree;

/// Whether the parents of cells of one level touch.
fn parents_touch(b: Cell, c: Cell) -> bool
    requires { b.level ≡ c.level }
    ensures { IsTrue result ↔ ((0 < b.level) × Touches (parent (square b)) (parent (square c))) }
{
    b.level > 0 && b.parent().touches(c.parent())
}

/// Whether a leaf touches the parent of a deeper cell.
fn leaf_touches_parent(is_leaf: bool, leaf: Cell, deeper: Cell) -> bool
    requires { leaf.level < deeper.level }
    ensures { IsTrue result ↔ (IsTrue is_leaf × Touches (parent (square deeper)) (square leaf)) }
{
    is_leaf && deeper.parent().touches(leaf)
}

/// The letter whose condition two cells meet, where the flags say which of them are leaves.
fn letter_of_pair(b: Cell, c: Cell, b_is_leaf: bool, c_is_leaf: bool) -> Option<Letter>
    ensures { (letter : Letter) → (result ≡ Some letter) ↔ MeetsLetter b_is_leaf c_is_leaf (square b) (square c) letter }
{
    if b.touches(c) {
        if b_is_leaf && c_is_leaf {
            return Some(Letter::U);
        }
        return None;
    }
    if b.level == c.level {
        if parents_touch(b, c) {
            return Some(Letter::V);
        }
    } else if b.level < c.level {
        if leaf_touches_parent(b_is_leaf, b, c) {
            return Some(Letter::W);
        }
    } else if leaf_touches_parent(c_is_leaf, c, b) {
        return Some(Letter::X);
    }
    None
}

/// The letter of the entry of two cells, where they are one.
pub(crate) fn letter_of(tree: &Tree, b: usize, c: usize) -> Option<Letter>
    requires first { b < size tree.now }
    requires second { c < size tree.now }
    ensures { IsLetterOf tree.now b c result }
{
    if !tree.has_target(b) || !tree.has_source(c) {
        return None;
    }
    let cells = tree.cells();
    letter_of_pair(cells[b], cells[c], tree.is_leaf(b), tree.is_leaf(c))
}
