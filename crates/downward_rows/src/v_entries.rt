//! The V entries of a cell.
ghost use Rattle.std.specs.Prelude.{◌≡◌, ℕ, ◌+◌, ◌*◌, ◌^◌, ◌<◌, length};
ghost use Rattle.complex_box.specs.Box.{number};
ghost use Rattle.cell_name.specs.Cell.{square};
ghost use Rattle.cell_lists.specs.ListAt.{list_at};
ghost use Rattle.quadtree.specs.TreeModel.{size};
ghost use Rattle.row_recursions.specs.Rows.{row_of, RowsAdd};
ghost use Rattle.row_recursions.specs.Sizes.{RowWithin};
ghost use Rattle.field_basis.specs.Place.{place_at};
ghost use Rattle.field_basis.specs.Counts.{translated};
ghost use Rattle.field_basis.specs.FieldPlaces.{AreMultipolePlaces, IsMultipolePlace};
ghost use Rattle.downward_rows.specs.Entries.{IsVEntryAt, v_entry, v_rows_of};
ghost use Rattle.cell_name.specs.Apart.{sides_between};

use cell_name::Cell;
use complex_box::{CBox, Gauss, Work};
use field_basis::{Basis, Place};
use local_expansion::convert;

/// How many sides the centre of `b` lies from that of `c`, for cells of one level.
fn sides_between(b: Cell, c: Cell) -> Gauss
    ensures { number result ≡ sides_between (square b) (square c) }
{
    Gauss {
        re: i64::from(b.i) - i64::from(c.i),
        im: i64::from(b.j) - i64::from(c.j),
    }
}

/// Adds the row of `c`, converted, to that of `b`.
fn add_v_entry<const P: usize>(
    basis: &Basis<P>,
    up: &[Place<P>],
    b: usize,
    c: usize,
    into: &mut [CBox],
    work: &mut Work,
)
    requires cell { b < size basis.now.tree }
    requires entry { IsVEntryAt basis.now.tree b c }
    requires row { (c < length up.now) × IsMultipolePlace P basis.now.points basis.now.tree c (place_at up.now c) }
    requires len { length into.old ≡ P }
    requires sum { RowWithin P (2 ^ 110) (row_of into.old) }
    requires room { work.old.translations < 2 ^ 63 }
    ensures len { length into.new ≡ P }
    ensures adds { RowsAdd P (row_of into.old) (v_entry P basis.now b c) (row_of into.new) }
    ensures size { (n : ℕ) → RowWithin P n (row_of into.old) → RowWithin P (n + 3 * 2 ^ 79) (row_of into.new) }
    ensures work { work.new ≡ translated 1 work.old }
{
    let cells = basis.tree.cells();
    let e = sides_between(cells[b], cells[c]);
    convert(&basis.kernel, up[c].row(), e, into, work);
}

/// Adds the row of each cell of the V list of cell `n`, converted, to that of `n`.
pub(crate) fn add_v_entries<const P: usize>(
    basis: &Basis<P>,
    up: &[Place<P>],
    n: usize,
    into: &mut [CBox],
    work: &mut Work,
)
    requires cell { n < size basis.now.tree }
    requires rows { AreMultipolePlaces P basis.now.points basis.now.tree up.now (list_at basis.now.lists.v n) }
    requires len { length into.old ≡ P }
    requires sum { RowWithin P (2 ^ 90) (row_of into.old) }
    requires room { work.old.translations + 27 < 2 ^ 63 }
    ensures len { length into.new ≡ P }
    ensures adds { RowsAdd P (row_of into.old) (v_rows_of P basis.now n) (row_of into.new) }
    ensures size { RowWithin P (2 ^ 91) (row_of into.new) }
    ensures work { work.new ≡ translated (length (list_at basis.now.lists.v n)) work.old }
{
    for c in basis.lists.v_list(n) {
        add_v_entry(basis, up, n, *c as usize, into, work);
    }
}
