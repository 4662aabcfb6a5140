//! Local rows on the way down: the field of a cell about the centre of one of its four children.
//!
//! For a child of side `s`, the parent's row stands for `1/(2 s)` times the sum of `c_l (v/(2 s))^l`, with `v` the offset from the parent's
//! centre. The child's centre is `s q/2` away, for a quadrant `q` with the parts 1 and -1, so `v/(2 s)` is `(2 (w/s) + q)/4` with `w` the
//! offset from the child's centre. Horner's scheme in this variable gives the coefficients of `(w/s)^k`, and half of them are the child's.
//! Boxes count units of 2^-40.
#![tactic(auto)]

ghost use Rattle.std.specs.Prelude.{◌≡◌, ℕ, ◌+◌, ◌*◌, ◌^◌, ◌<◌, length};
ghost use Rattle.exact_math.specs.Orders.{IsOrder};
ghost use Rattle.complex_box.specs.Counts.{AddsTranslations};
ghost use Rattle.row_recursions.specs.Contents.{AddsFieldDown};
ghost use Rattle.row_recursions.specs.Rows.{row_of, RowsAdd, shifted_down};
ghost use Rattle.row_recursions.specs.Sizes.{RowWithin};
ghost use Rattle.row_recursions.specs.Widths.{RowNarrow};
ghost use Rattle.row_recursions.specs.Cells.{quadrant_of};

mod rounds;

use cell_name::Quadrant;
use complex_box::{CBox, Row, Work};
use rounds::{add_halves, move_down};

/// Adds the parent's row, brought down to its child with the quadrant `q`, to the child's row, and counts one translation.
///
/// Conditions: `P` is one of the orders and the length of both rows; all ends are at most 2^90 in size in the parent's row and at most
/// 2^110 in the child's; the count of translations is below 2^63.
pub fn shift_down<const P: usize>(parent: Row<P>, q: Quadrant, into: &mut [CBox], work: &mut Work)
    requires order { IsOrder P }
    requires len { length into.old ≡ P }
    requires size { RowWithin P (2 ^ 90) (row_of parent.cells.now) }
    requires sum { RowWithin P (2 ^ 110) (row_of into.old) }
    requires room { work.old.translations < 2 ^ 63 }
    ensures len { length into.new ≡ P }
    ensures adds { RowsAdd P (row_of into.old) (shifted_down P (row_of parent.entry.cells.now) (quadrant_of q)) (row_of into.new) }
    ensures contains { AddsFieldDown P (quadrant_of q) (row_of parent.entry.cells.now) (row_of into.old) (row_of into.new) }
    ensures size { (m n : ℕ) → RowWithin P m (row_of parent.entry.cells.now) → RowWithin P n (row_of into.old) → RowWithin P (m + n) (row_of into.new) }
    ensures narrow { (v w : ℕ) → RowNarrow P w (row_of parent.entry.cells.now)
        → RowNarrow P v (row_of into.old) → RowNarrow P (v + (w + 2 * P + 2)) (row_of into.new) }
    ensures work { AddsTranslations 1 work.old work.new }
{
    let mut moved = [CBox::zero(); P];
    move_down(parent, q, &mut moved);
    add_halves(into, &moved);
    work.raise_translations();
}
