//! One coefficient of the contribution of a far cell.
ghost use Rattle.std.specs.Prelude.{◌≡◌, ◌+◌, ◌^◌, ◌≤◌, length, IsTrue};
ghost use Rattle.exact_math.specs.Ends.{times_box, quot_box};
ghost use Rattle.exact_math.specs.Units.{unit};
ghost use Rattle.complex_box.specs.Box.{box_ends};
ghost use Rattle.row_recursions.specs.Rows.{row_of, sum_boxes};
ghost use Rattle.row_recursions.specs.Sizes.{RowWithin};

use crate::narrow::narrow_coefficient;
use complex_box::{Acc, CBox, Row, UNIT_BITS};

/// The sum of the products of a column of the kernel with a row, rounded once.
#[inline]
fn wide_coefficient<const P: usize>(column: &[CBox], row: Row<P>) -> CBox
    requires len { length column.now ≡ P }
    requires most { P ≤ 32 }
    requires entries { RowWithin P (2 ^ 39 + 1) (row_of column.now) }
    requires size { RowWithin P (2 ^ 80) (row_of row.cells.now) }
    ensures { box_ends result ≡ quot_box (sum_boxes P (λ k. times_box (row_of column.now k) (row_of row.entry.cells.now k))) unit }
{
    let mut sum = Acc::new();
    for k in 0..P {
        sum.add_product(column[k], row.get(k));
    }
    sum.finish_shift(UNIT_BITS)
}

/// The same, by narrow products where the row's ends are at most 2^62 in size.
#[inline]
pub(crate) fn coefficient<const P: usize>(column: &[CBox], row: Row<P>, narrow: bool) -> CBox
    requires len { length column.now ≡ P }
    requires most { P ≤ 32 }
    requires entries { RowWithin P (2 ^ 39 + 1) (row_of column.now) }
    requires size { RowWithin P (2 ^ 80) (row_of row.cells.now) }
    requires narrow { IsTrue narrow → RowWithin P (2 ^ 62) (row_of row.cells.now) }
    ensures { box_ends result ≡ quot_box (sum_boxes P (λ k. times_box (row_of column.now k) (row_of row.entry.cells.now k))) unit }
{
    if narrow {
        return narrow_coefficient(column, row);
    }
    wide_coefficient(column, row)
}
