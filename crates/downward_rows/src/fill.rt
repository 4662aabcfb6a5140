//! The place of one cell.
ghost use Rattle.std.specs.Prelude.{◌≡◌, ◌+◌, ◌^◌, ◌<◌, length};
ghost use Rattle.cell_lists.specs.ListAt.{list_at};
ghost use Rattle.field_basis.specs.Counts.{translated, translations_into};
ghost use Rattle.field_basis.specs.FieldPlaces.{AreMultipolePlaces, HasLocalPlace, IsLocalPlace};
ghost use Rattle.field_basis.specs.Place.{OthersStay, place_at};
ghost use Rattle.quadtree.specs.TreeModel.{size, node_of};
ghost use Rattle.row_recursions.specs.Rows.{row_of, AreSameRows};
ghost use Rattle.row_recursions.specs.Sizes.{RowWithin};
ghost use Rattle.downward_rows.specs.Entries.{row_below};

use crate::radius::local_radius;
use crate::v_entries::add_v_entries;
use crate::x_entries::add_x_entries;
use complex_box::{CBox, Row, Work, clear};
use field_basis::{Basis, Place};
use local_shift::shift_down;

/// Makes the local row of cell `n`, which is below the root, from its parent's.
fn make_row<const P: usize>(
    basis: &Basis<P>,
    up: &[Place<P>],
    n: usize,
    parent: Row<P>,
    into: &mut [CBox],
    work: &mut Work,
)
    requires cell { n < size basis.now.tree }
    requires below { 0 < n }
    requires rows { AreMultipolePlaces P basis.now.points basis.now.tree up.now (list_at basis.now.lists.v n) }
    requires parent { RowWithin P (2 ^ 90) (row_of parent.cells.now) }
    requires len { length into.old ≡ P }
    requires room { work.old.translations < 2 ^ 62 }
    ensures len { length into.new ≡ P }
    ensures row { AreSameRows P (row_of into.new) (row_below P basis.now n (row_of parent.entry.cells.now)) }
    ensures work { work.new ≡ translated (1 + length (list_at basis.now.lists.v n)) work.old }
{
    clear(into);
    shift_down(parent, basis.tree.cells()[n].quadrant(), into, work);
    add_v_entries(basis, up, n, into, work);
    add_x_entries(basis, n, into);
}

/// Makes the local row of cell `n` and its radius. The row is its parent's, brought down, with the rows of the V list, converted, and what the
/// sources of the X list add; the radius is its parent's with what these entries can lose. The root has zeros and the radius 0, and so has a
/// cell without a target. The translations are raised by one for the parent and one for each V entry where the cell is below the root and has
/// a target. `above` begins with the places of the first cells, the parent's among them.
///
/// Conditions: `n` is a cell's number, the cells of its V list have their multipole rows in `up`, its parent's local row stands in `above`,
/// and the count of translations is below 2^62.
pub fn make_place<const P: usize>(
    basis: &Basis<P>,
    up: &[Place<P>],
    n: usize,
    above: &[Place<P>],
    place: &mut Place<P>,
    work: &mut Work,
)
    requires cell { n < size basis.now.tree }
    requires rows { AreMultipolePlaces P basis.now.points basis.now.tree up.now (list_at basis.now.lists.v n) }
    requires parent { 0 < n → HasLocalPlace P basis.now above.now (node_of basis.now.tree n).parent }
    requires room { work.old.translations < 2 ^ 62 }
    ensures local { IsLocalPlace P basis.now n place.new }
    ensures kept { place.new.translations ≡ place.old.translations }
    ensures work { work.new ≡ translated (translations_into basis.now n) work.old }
{
    if n == 0 || !basis.tree.has_target(n) {
        clear(place.row_mut());
        place.set_radius(0);
        return;
    }
    let parent = &above[basis.tree.parent(n)];
    make_row(basis, up, n, parent.row(), place.row_mut(), work);
    place.set_radius(local_radius(basis, n, parent.radius()));
}

/// Makes the local row of cell `n` and its radius in its place among the places of all cells. The translations that it keeps stay as they are.
///
/// Conditions: as for `make_place`; there is a place for each cell, and that of the parent of `n` holds its local row.
pub fn fill_place<const P: usize>(
    basis: &Basis<P>,
    up: &[Place<P>],
    n: usize,
    places: &mut [Place<P>],
    work: &mut Work,
)
    requires cell { n < size basis.now.tree }
    requires len { length places.old ≡ size basis.now.tree }
    requires rows { AreMultipolePlaces P basis.now.points basis.now.tree up.now (list_at basis.now.lists.v n) }
    requires parent { 0 < n → HasLocalPlace P basis.now places.old (node_of basis.now.tree n).parent }
    requires room { work.old.translations < 2 ^ 62 }
    ensures local { IsLocalPlace P basis.now n (place_at places.new n) }
    ensures kept { (place_at places.new n).translations ≡ (place_at places.old n).translations }
    ensures others { OthersStay n places.old places.new }
    ensures work { work.new ≡ translated (translations_into basis.now n) work.old }
{
    // what the basis says of its tree: a parent stands before its children
    let _ = &basis.tree;
    let (above, rest) = places.split_at_mut(n);
    make_place(basis, up, n, above, &mut rest[0], work);
}
