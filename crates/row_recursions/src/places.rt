//! Places of the program's points in its cells, as the recursions take them.
ghost use Rattle.std.specs.Prelude.{◌≡◌, ◌+◌, ◌*◌, ◌^◌, ◌≤◌, pos, ◌≤ℤ◌};
ghost use Rattle.exact_math.specs.Gaussian.{gaussian, norm_gaussian, conj, scale_gaussian};
ghost use Rattle.exact_math.specs.Within.{Within, GaussianWithin, GaussianBeyond};
ghost use Rattle.complex_box.specs.Box.{box_ends, number, BoxWithin};
ghost use Rattle.limits.specs.Grid.{IsInGrid};
ghost use Rattle.limits.specs.Limits.{most_strength, widest_grid};
ghost use Rattle.row_recursions.specs.Cells.{side_of, offset_from};
ghost use Rattle.row_recursions.specs.Rows.{units_box};

use cell_name::Cell;
use complex_box::{CBox, Gauss, UNIT};
use fixed_interval::Reciprocal;

/// The number of bits by which the side is 1 shifted.
pub fn side_bits(cell: Cell) -> u32
    ensures side { 2 ^ result ≡ side_of cell }
    ensures small { result ≤ widest_grid }
{
    u32::from(cell.grid - cell.level)
}

/// Twice the offset of a place from the centre of a cell. Condition: the place is in the cell's grid.
pub fn offset(cell: Cell, x: i64, y: i64) -> Gauss
    requires { IsInGrid cell.grid x y }
    ensures value { number result ≡ offset_from cell (gaussian x y) }
    ensures size { GaussianWithin (2 ^ (widest_grid + 1)) (number result) }
{
    let (re, im) = cell.offset(x, y);
    Gauss { re, im }
}

/// The box of a strength, in units. Condition: both parts are within their limit.
pub fn units(re: i64, im: i64) -> CBox
    requires re { Within most_strength re }
    requires im { Within most_strength im }
    ensures ends { box_ends result ≡ units_box (gaussian re im) }
    ensures size { BoxWithin (2 ^ 60) result }
{
    CBox::point(UNIT * i128::from(re), UNIT * i128::from(im))
}

/// `2 s/zeta` as a Gaussian integer over a whole number: `2 s conj zeta` over the norm of `zeta`. All steps of a row divide by that norm,
/// so its reciprocal is kept.
#[derive(Clone, Copy, PartialEq, Eq, Debug)]
pub struct FarRatio {
    pub factor: Gauss,
    pub divisor: i128,
    pub reciprocal: Reciprocal,
}

/// The factor of a step of a far source or a far target with the doubled offset `zeta` from the centre of a cell of side `2^bits`.
/// Conditions: `bits` is at most that of the widest grid, both parts of `zeta` are at most twice that grid's side in size, and one is at
/// least 3 sides.
pub fn far_ratio(zeta: Gauss, bits: u32) -> FarRatio
    requires bits { bits ≤ widest_grid }
    requires size { GaussianWithin (2 ^ (widest_grid + 1)) (number zeta) }
    requires far { GaussianBeyond (3 * 2 ^ bits) (number zeta) }
    ensures factor { number result.factor ≡ conj (scale_gaussian (2 * 2 ^ bits) (number zeta)) }
    ensures small { GaussianWithin (2 ^ (2 * widest_grid + 2)) (number result.factor) }
    ensures divisor { result.divisor ≡ norm_gaussian (number zeta) }
    ensures positive { pos 1 ≤ℤ result.divisor }
    ensures most { result.divisor ≤ℤ pos (2 ^ (2 * widest_grid + 3)) }
{
    let double = 2i64 << bits;
    let re = i128::from(zeta.re);
    let im = i128::from(zeta.im);
    let divisor = re * re + im * im;
    FarRatio {
        factor: Gauss {
            re: double * zeta.re,
            im: -(double * zeta.im),
        },
        divisor,
        reciprocal: Reciprocal::of(divisor),
    }
}
