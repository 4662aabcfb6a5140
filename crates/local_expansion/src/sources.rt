//! The contribution of one far source, added to a row.
ghost use Rattle.std.specs.Prelude.{◌≡◌, ◌+◌, ◌*◌, ◌^◌, ◌≤◌, length};
ghost use Rattle.exact_math.specs.Within.{GaussianWithin, GaussianBeyond};
ghost use Rattle.complex_box.specs.Box.{box_ends, number, BoxWithin};
ghost use Rattle.limits.specs.Limits.{widest_grid};
ghost use Rattle.points.specs.Limits.{InRange};
ghost use Rattle.points.specs.Points.{place};
ghost use Rattle.row_recursions.specs.Cells.{side_of, offset_from, far_coefficients_in};
ghost use Rattle.row_recursions.specs.Rows.{row_of, RowsAdd};
ghost use Rattle.row_recursions.specs.Sizes.{RowWithin};
ghost use Rattle.local_expansion.specs.FarPowers.{far_poles, far_dipoles};
ghost use Rattle.cell_name.specs.Cell.{square};

use cell_name::Cell;
use complex_box::{CBox, Gauss};
use points::{Point, Strength};
use row_recursions::{far_ratio, offset, side_bits, units};

/// Adds the negatives of the powers after `first`.
fn add_poles(into: &mut [CBox], first: CBox, zeta: Gauss, bits: u32)
    requires sum { RowWithin (length into.old) (2 ^ 110) (row_of into.old) }
    requires bits { bits ≤ widest_grid }
    requires near { GaussianWithin (2 ^ (widest_grid + 1)) (number zeta) }
    requires far { GaussianBeyond (3 * 2 ^ bits) (number zeta) }
    requires size { BoxWithin (2 ^ 60) first }
    ensures len { length into.new ≡ length into.old }
    ensures poles { RowsAdd (length into.old) (row_of into.old) (far_poles (box_ends first) (2 * 2 ^ bits) (number zeta)) (row_of into.new) }
{
    let ratio = far_ratio(zeta, bits);
    let mut power = first;
    for l in 0..into.len() {
        power = power.gquot_by(ratio.factor, ratio.divisor, ratio.reciprocal);
        into[l] = into[l].add(power.neg());
    }
}

/// Adds, at each `l`, `l + 1` times the power `l + 2`, where `first` is the power 0.
fn add_dipoles(into: &mut [CBox], first: CBox, zeta: Gauss, bits: u32)
    requires len { length into.old ≤ 32 }
    requires sum { RowWithin (length into.old) (2 ^ 110) (row_of into.old) }
    requires bits { bits ≤ widest_grid }
    requires near { GaussianWithin (2 ^ (widest_grid + 1)) (number zeta) }
    requires far { GaussianBeyond (3 * 2 ^ bits) (number zeta) }
    requires size { BoxWithin (2 ^ 60) first }
    ensures len { length into.new ≡ length into.old }
    ensures dipoles { RowsAdd (length into.old) (row_of into.old) (far_dipoles (box_ends first) (2 * 2 ^ bits) (number zeta)) (row_of into.new) }
{
    let ratio = far_ratio(zeta, bits);
    let mut power = first.gquot_by(ratio.factor, ratio.divisor, ratio.reciprocal);
    for l in 0..into.len() {
        power = power.gquot_by(ratio.factor, ratio.divisor, ratio.reciprocal);
        into[l] = into[l].add(power.scale(l as i128 + 1));
    }
}

/// Adds what a point far from the cell adds to the cell's local row; a target adds nothing.
pub(crate) fn add_far(into: &mut [CBox], cell: Cell, p: &Point)
    requires len { length into.old ≤ 32 }
    requires sum { RowWithin (length into.old) (2 ^ 110) (row_of into.old) }
    requires range { InRange cell.grid p.now }
    requires far { GaussianBeyond (3 * side_of cell) (offset_from cell (place p.now)) }
    ensures len { length into.new ≡ length into.old }
    ensures adds { RowsAdd (length into.old) (row_of into.old) (far_coefficients_in (square cell) p.now) (row_of into.new) }
{
    let zeta = offset(cell, p.x, p.y);
    let s = side_bits(cell);
    match p.kind.strength() {
        Strength::Pole(re, im) => add_poles(into, units(re, im), zeta, s),
        Strength::Dipole(re, im) => add_dipoles(into, units(re, im).quot_shift(s), zeta, s),
        Strength::Nothing => {}
    }
}
