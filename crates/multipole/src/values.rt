//! The value of a multipole row.
ghost use Rattle.std.specs.Prelude.{◌≡◌, ◌+◌, ◌*◌, ◌^◌, ◌≤◌};
ghost use Rattle.exact_math.specs.Within.{GaussianWithin, GaussianBeyond};
ghost use Rattle.complex_box.specs.Box.{box_ends, number};
ghost use Rattle.limits.specs.Limits.{widest_grid};
ghost use Rattle.row_recursions.specs.Rows.{row_of, multipole_value};
ghost use Rattle.row_recursions.specs.Sizes.{RowWithin};

use complex_box::{CBox, Gauss, Row};
use row_recursions::far_ratio;

/// The value of a row at twice the offset `zeta` from the centre of a cell of side `2^bits`.
pub(crate) fn value_at<const P: usize>(row: Row<P>, zeta: Gauss, bits: u32) -> CBox
    requires bits { bits ≤ widest_grid }
    requires near { GaussianWithin (2 ^ (widest_grid + 1)) (number zeta) }
    requires far { GaussianBeyond (3 * 2 ^ bits) (number zeta) }
    requires size { RowWithin P (2 ^ 80) (row_of row.cells.now) }
    ensures { box_ends result ≡ multipole_value P (row_of row.entry.cells.now) (2 ^ bits) (number zeta) }
{
    let ratio = far_ratio(zeta, bits);
    let mut value = CBox::zero();
    for n in 0..P {
        value = value
            .add(row.get(P - 1 - n))
            .gquot_by(ratio.factor, ratio.divisor, ratio.reciprocal);
    }
    value.quot_shift(bits)
}
