//! The moments of one source, into a row.
ghost use Rattle.std.specs.Prelude.{◌≡◌, ℕ, ◌+◌, ◌-◌, ◌^◌, ◌≤◌, ◌<◌, pos, length};
ghost use Rattle.exact_math.specs.Ends.{gquot_box};
ghost use Rattle.exact_math.specs.Within.{GaussianWithin};
ghost use Rattle.complex_box.specs.Box.{box_ends, number, BoxWithin};
ghost use Rattle.cell_name.specs.Cell.{square};
ghost use Rattle.cell_name.specs.Square.{Holds};
ghost use Rattle.limits.specs.Limits.{widest_grid};
ghost use Rattle.points.specs.Limits.{InRange};
ghost use Rattle.row_recursions.specs.Cells.{moments_in};
ghost use Rattle.row_recursions.specs.Rows.{row_of, powers};
ghost use Rattle.multipole.specs.Powers.{slopes};

use cell_name::Cell;
use complex_box::{CBox, Gauss, clear};
use points::{Point, Strength};
use row_recursions::{offset, side_bits, units};

/// The next power: times `o/2^shift`, rounded outward.
#[inline]
fn next_power(power: CBox, o: Gauss, shift: u32) -> CBox
    requires least { 1 ≤ shift }
    requires most { shift ≤ widest_grid + 1 }
    requires near { GaussianWithin (2 ^ (shift - 1)) (number o) }
    requires size { BoxWithin (2 ^ 60) power }
    ensures ends { box_ends result ≡ gquot_box (box_ends power) (number o) (pos (2 ^ shift)) }
    ensures size { BoxWithin (2 ^ 60) result }
{
    power.gscale(o).quot_shift(shift)
}

/// Fills a row with the powers that begin with `first`.
fn fill_powers(row: &mut [CBox], first: CBox, o: Gauss, shift: u32)
    requires least { 1 ≤ shift }
    requires most { shift ≤ widest_grid + 1 }
    requires near { GaussianWithin (2 ^ (shift - 1)) (number o) }
    requires size { BoxWithin (2 ^ 60) first }
    ensures len { length row.new ≡ length row.old }
    ensures powers { (k : ℕ) → k < length row.old → row_of row.new k ≡ powers (box_ends first) (number o) (2 ^ shift) k }
{
    let mut power = first;
    for k in 0..row.len() {
        row[k] = power;
        power = next_power(power, o, shift);
    }
}

/// Fills a row with nothing and then, at each `k`, `k` times the power before, where the powers begin with `first`.
fn fill_slopes(row: &mut [CBox], first: CBox, o: Gauss, shift: u32)
    requires len { (1 ≤ length row.old) × (length row.old ≤ 32) }
    requires least { 1 ≤ shift }
    requires most { shift ≤ widest_grid + 1 }
    requires near { GaussianWithin (2 ^ (shift - 1)) (number o) }
    requires size { BoxWithin (2 ^ 60) first }
    ensures len { length row.new ≡ length row.old }
    ensures slopes { (k : ℕ) → k < length row.old → row_of row.new k ≡ slopes (box_ends first) (number o) shift k }
{
    row[0] = CBox::zero();
    let mut power = first;
    for k in 1..row.len() {
        row[k] = power.scale(k as i128);
        power = next_power(power, o, shift);
    }
}

/// Fills a row with the moments of a point in the cell, about the cell's centre.
pub(crate) fn fill_moments(row: &mut [CBox], cell: Cell, p: &Point)
    requires len { (1 ≤ length row.old) × (length row.old ≤ 32) }
    requires range { InRange widest_grid p.now }
    requires inside { Holds (square cell) p.now.x p.now.y }
    ensures len { length row.new ≡ length row.old }
    ensures moments { (k : ℕ) → k < length row.old → row_of row.new k ≡ moments_in (square cell) p.now k }
{
    let o = offset(cell, p.x, p.y);
    let s = side_bits(cell);
    match p.kind.strength() {
        Strength::Pole(re, im) => fill_powers(row, units(re, im), o, s + 1),
        Strength::Dipole(re, im) => fill_slopes(row, units(re, im).quot_shift(s), o, s + 1),
        Strength::Nothing => clear(row),
    }
}
