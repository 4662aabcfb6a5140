//! The value of a local row.
ghost use Rattle.std.specs.Prelude.{◌≡◌, ◌^◌, ◌≤◌};
ghost use Rattle.exact_math.specs.Orders.{IsOrder};
ghost use Rattle.exact_math.specs.Within.{GaussianWithin};
ghost use Rattle.complex_box.specs.Box.{box_ends, number};
ghost use Rattle.limits.specs.Limits.{widest_grid};
ghost use Rattle.row_recursions.specs.Rows.{row_of, local_value};
ghost use Rattle.row_recursions.specs.Sizes.{RowWithin};

use complex_box::{CBox, Gauss, Row};

/// The value of a row at twice the offset `o` from the centre of a cell of side `2^bits`.
pub(crate) fn value_at<const P: usize>(row: Row<P>, o: Gauss, bits: u32) -> CBox
    requires order { IsOrder P }
    requires bits { bits ≤ widest_grid }
    requires near { GaussianWithin (2 ^ bits) (number o) }
    requires size { RowWithin P (2 ^ 90) (row_of row.cells.now) }
    ensures { box_ends result ≡ local_value P (row_of row.entry.cells.now) (2 ^ bits) (number o) }
{
    let mut value = CBox::zero();
    for n in 0..P {
        value = value.gscale(o).quot_shift(bits + 1).add(row.get(P - 1 - n));
    }
    value.quot_shift(bits)
}
