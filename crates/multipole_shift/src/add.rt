//! A row into its parent's.
ghost use Rattle.std.specs.Prelude.{◌≡◌, ℕ, suc, ◌+◌, ◌*◌, ◌^◌, ◌<◌, length};
ghost use Rattle.exact_math.specs.Ends.{BoxEndsNarrow};
ghost use Rattle.exact_math.specs.Orders.{IsOrder};
ghost use Rattle.complex_box.specs.Counts.{AddsTranslations};
ghost use Rattle.row_recursions.specs.Cells.{quadrant_of};
ghost use Rattle.row_recursions.specs.Contents.{AddsMomentsUp};
ghost use Rattle.row_recursions.specs.Rows.{row_of, RowsAdd, shifted_up};
ghost use Rattle.row_recursions.specs.Sizes.{RowWithin};
ghost use Rattle.row_recursions.specs.Widths.{RowNarrow};

use crate::rounds::shift_in_place;
use cell_name::Quadrant;
use complex_box::{CBox, Row, Work};
use row_recursions::add_row;

/// Adds the row of a child with the quadrant `q`, shifted to its parent's centre, to the parent's row. The translations are raised by
/// one. Conditions: `P` is one of the orders and the length of `into`, all ends of both rows are at most 2^80 in size, and the count of
/// translations is below 2^63.
///
/// If the child's row contains the moments of some sources about its centre and the parent's those of others about its own, the parent's
/// new row contains those of all.
pub fn shift_up<const P: usize>(child: Row<P>, q: Quadrant, into: &mut [CBox], work: &mut Work)
    requires order { IsOrder P }
    requires len { length into.old ≡ P }
    requires size { RowWithin P (2 ^ 80) (row_of child.cells.now) }
    requires sum { RowWithin P (2 ^ 80) (row_of into.old) }
    requires room { work.old.translations < 2 ^ 63 }
    ensures len { length into.new ≡ P }
    ensures adds { RowsAdd P (row_of into.old) (shifted_up (row_of child.entry.cells.now) (quadrant_of q)) (row_of into.new) }
    ensures contains { AddsMomentsUp P (quadrant_of q) (row_of child.entry.cells.now) (row_of into.old) (row_of into.new) }
    ensures size { (m n : ℕ) → RowWithin P m (row_of into.old) → RowWithin P n (row_of child.entry.cells.now) → RowWithin P (m + n) (row_of into.new) }
    ensures narrow { (k v w : ℕ) → k < P → RowNarrow (suc k) w (row_of child.entry.cells.now)
        → BoxEndsNarrow v (row_of into.old k) → BoxEndsNarrow (v + (w + 2 * k)) (row_of into.new k) }
    ensures work { AddsTranslations 1 work.old work.new }
{
    let mut part = [CBox::zero(); P];
    part.copy_from_slice(child.cells);
    shift_in_place(&mut part, q);
    add_row(into, &part);
    work.raise_translations();
}
