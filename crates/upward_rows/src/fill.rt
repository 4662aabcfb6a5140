//! The row of one cell.
ghost use Rattle.std.specs.Prelude.{◌≡◌, ℕ, ◌<◌, ◌≤◌, ◌^◌, length};
ghost use Rattle.exact_math.specs.Orders.{IsOrder};
ghost use Rattle.field_basis.specs.Counts.{shifts_into, translated};
ghost use Rattle.field_basis.specs.FieldPlaces.{AreMultipolePlaces, IsMultipolePlace};
ghost use Rattle.field_basis.specs.Trees.{IsTreeOfPoints};
ghost use Rattle.field_basis.specs.Place.{OthersStay, place_at};
ghost use Rattle.quadtree.specs.TreeModel.{IsTreeOf, size, square_of};
ghost use Rattle.row_recursions.specs.Rows.{row_of, AreSameRows};
ghost use Rattle.tree_field.specs.Field.{multipole_row};
ghost use Rattle.tree_field.specs.Program.{source_children};
ghost use Rattle.upward_rows.specs.Behind.{AreBehind};

use crate::sources::sum_sources;
use complex_box::{CBox, Work, clear};
use field_basis::Place;
use multipole_shift::shift_up;
use points::Point;
use quadtree::Tree;

/// Makes the multipole row of cell `n` in `row`, as `make_place` says, and under its conditions. `row` has `P` boxes.
fn sum_row<const P: usize>(
    tree: &Tree,
    points: &[Point],
    n: usize,
    behind: &[Place<P>],
    row: &mut [CBox],
    work: &mut Work,
)
    requires order { IsOrder P }
    requires tree { IsTreeOfPoints points.now tree.now }
    requires cell { n < size tree.now }
    requires behind { AreBehind P points.now tree.now behind.now (source_children tree.now n) }
    requires len { length row.old ≡ P }
    requires room { work.old.translations < 2 ^ 62 }
    ensures row { (cap : ℕ) → IsTreeOf tree.now points.now cap → AreSameRows P (row_of row.new) (multipole_row points.now cap (square_of tree.now n)) }
    ensures work { work.new ≡ translated (shifts_into points.now tree.now n) work.old }
{
    let cells = tree.cells();
    if tree.is_leaf(n) {
        sum_sources::<P>(points, tree.members(n), cells[n], row);
    } else {
        clear(row);
        let first = cells.len() - behind.len();
        let children = tree.children(n);
        for child in children {
            let m = *child as usize;
            if tree.has_source(m) {
                let q = cells[m].quadrant();
                shift_up::<P>(behind[m - first].row(), q, row, work);
            }
        }
    }
}

/// Makes the multipole row of cell `n`: of a leaf the sum of the moments of its sources, of another cell the sum of the rows of its quarters
/// that have a source, shifted up, which raises the translations by one each. A cell without a source gets zeros. The radius of the place
/// becomes 0, and its translations stay. `behind` are the places of the last cells, and is only read.
///
/// Conditions: `P` is one of the orders, the tree is that of the points, which are within the limits of its grid, `n` is a cell's number, those of its
/// quarters that have a source have their rows in `behind`, and the count of translations is below 2^62.
pub fn make_place<const P: usize>(
    tree: &Tree,
    points: &[Point],
    n: usize,
    behind: &[Place<P>],
    place: &mut Place<P>,
    work: &mut Work,
)
    requires order { IsOrder P }
    requires tree { IsTreeOfPoints points.now tree.now }
    requires cell { n < size tree.now }
    requires behind { AreBehind P points.now tree.now behind.now (source_children tree.now n) }
    requires room { work.old.translations < 2 ^ 62 }
    ensures row { IsMultipolePlace P points.now tree.now n place.new }
    ensures kept { place.new.translations ≡ place.old.translations }
    ensures work { work.new ≡ translated (shifts_into points.now tree.now n) work.old }
{
    sum_row::<P>(tree, points, n, behind, place.row_mut(), work);
    place.set_radius(0);
}

/// Makes the multipole row of cell `n` in its place among the places of all cells, as `make_place` does.
///
/// Conditions: as for `make_place`; there is a place for each cell, and those of the quarters of `n` that have a source hold their rows.
pub fn fill_place<const P: usize>(
    tree: &Tree,
    points: &[Point],
    n: usize,
    places: &mut [Place<P>],
    work: &mut Work,
)
    requires order { IsOrder P }
    requires tree { IsTreeOfPoints points.now tree.now }
    requires cell { n < size tree.now }
    requires len { length places.old ≡ size tree.now }
    requires quarters { AreMultipolePlaces P points.now tree.now places.old (source_children tree.now n) }
    requires room { work.old.translations < 2 ^ 62 }
    ensures row { IsMultipolePlace P points.now tree.now n (place_at places.new n) }
    ensures kept { (place_at places.new n).translations ≡ (place_at places.old n).translations }
    ensures others { OthersStay n places.old places.new }
    ensures work { work.new ≡ translated (shifts_into points.now tree.now n) work.old }
{
    let (front, behind) = places.split_at_mut(n + 1);
    make_place::<P>(tree, points, n, behind, &mut front[n], work);
}
