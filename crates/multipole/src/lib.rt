//! Multipole rows: the moments of the sources in a cell about its centre, and the value of a row at a far place.
//!
//! A source with the pole `a`, the dipole `b` and the offset `u` from the centre of a cell of side `s` adds `a (u/s)^k + k (b/s) (u/s)^(k - 1)`
//! to the coefficient `k`. Each power comes from the one before by one product and one rounded quotient, in units of 2^-40: so a moment
//! is exact as long as no rounding falls into it, and what is taken away again leaves the row as it was.
#![tactic(auto)]

ghost use Rattle.std.specs.Prelude.{◌≡◌, ℕ, ◌+◌, ◌*◌, ◌/◌, ◌^◌, ◌<◌, length};
ghost use Rattle.exact_math.specs.Ends.{BoxEndsNarrow};
ghost use Rattle.exact_math.specs.Gaussian.{gaussian};
ghost use Rattle.exact_math.specs.Orders.{IsOrder};
ghost use Rattle.exact_math.specs.Within.{GaussianBeyond};
ghost use Rattle.complex_box.specs.Box.{box_ends, BoxWithin};
ghost use Rattle.cell_name.specs.Cell.{square};
ghost use Rattle.cell_name.specs.Square.{Holds};
ghost use Rattle.limits.specs.Grid.{IsInGrid};
ghost use Rattle.limits.specs.Limits.{widest_grid};
ghost use Rattle.points.specs.Limits.{InRange, weight64};
ghost use Rattle.row_recursions.specs.Cells.{side_of, doubled_centre_of, offset_from, moments_in};
ghost use Rattle.row_recursions.specs.Contents.{AddsMomentsOf, IsValueOfMoments};
ghost use Rattle.row_recursions.specs.Rows.{row_of, RowsAdd, HasPart, multipole_value};
ghost use Rattle.row_recursions.specs.Sizes.{RowWithin};
ghost use Rattle.row_recursions.specs.Sources.{source_of};
ghost use Rattle.row_recursions.specs.Widths.{RowNarrow};

mod moments;
mod values;

use cell_name::Cell;
use complex_box::{CBox, Row};
use moments::fill_moments;
use points::Point;
use row_recursions::{add_row, offset, side_bits, take_row};
use values::value_at;

/// Adds the moments of a point about the cell's centre to the row; a target adds nothing. Conditions: `P` is one of the orders and the
/// row's length, the point is in range of some version, the cell holds its place, and all ends of the row are at most 2^80 in size.
pub fn add_source<const P: usize>(row: &mut [CBox], cell: Cell, p: &Point)
    requires order { IsOrder P }
    requires len { length row.old ≡ P }
    requires range { InRange widest_grid p.now }
    requires inside { Holds (square cell) p.now.x p.now.y }
    requires sum { RowWithin P (2 ^ 80) (row_of row.old) }
    ensures len { length row.new ≡ P }
    ensures adds { RowsAdd P (row_of row.old) (moments_in (square cell) p.now) (row_of row.new) }
    ensures contains { AddsMomentsOf P (side_of cell) (doubled_centre_of cell) (source_of p.now) (row_of row.old) (row_of row.new) }
    ensures size { (n : ℕ) → RowWithin P n (row_of row.old) → RowWithin P (n + 2 ^ 40 * weight64 p.now) (row_of row.new) }
    ensures narrow { (k v : ℕ) → k < P → BoxEndsNarrow v (row_of row.old k) → BoxEndsNarrow (v + 2 * (k * k)) (row_of row.new k) }
{
    let mut part = [CBox::zero(); P];
    fill_moments(&mut part, cell, p);
    add_row(row, &part);
}

/// Takes the moments of a point away from the row again. Conditions: `P` is one of the orders and the row's length, the point is in
/// range of some version, the cell holds its place, and the row is a sum that has its moments as a part.
pub fn take_source<const P: usize>(row: &mut [CBox], cell: Cell, p: &Point)
    requires order { IsOrder P }
    requires len { length row.old ≡ P }
    requires range { InRange widest_grid p.now }
    requires inside { Holds (square cell) p.now.x p.now.y }
    requires part { HasPart P (row_of row.old) (moments_in (square cell) p.now) }
    ensures len { length row.new ≡ P }
    ensures adds { RowsAdd P (row_of row.new) (moments_in (square cell) p.now) (row_of row.old) }
    ensures size { (n : ℕ) → RowWithin P n (row_of row.old) → RowWithin P (n + 2 ^ 40 * weight64 p.now) (row_of row.new) }
{
    let mut part = [CBox::zero(); P];
    fill_moments(&mut part, cell, p);
    take_row(row, &part);
}

/// The value of a multipole row at the place `(x, y)`, by Horner's scheme in `2 s/zeta` from the last coefficient on, with `zeta` twice
/// the place's offset from the cell's centre: `1/s` times the sum of `m_k (2 s/zeta)^(k + 1)`.
///
/// Conditions: `P` is one of the orders, the place is in the cell's grid, a part of `zeta` is at least 3 sides in size, and all ends of the row
/// are at most 2^80 in size.
pub fn at_multipole<const P: usize>(row: Row<P>, cell: Cell, x: i64, y: i64) -> CBox
    requires order { IsOrder P }
    requires in_grid { IsInGrid cell.grid x y }
    requires far { GaussianBeyond (3 * side_of cell) (offset_from cell (gaussian x y)) }
    requires size { RowWithin P (2 ^ 80) (row_of row.cells.now) }
    ensures ends { box_ends result ≡ multipole_value P (row_of row.entry.cells.now) (side_of cell) (offset_from cell (gaussian x y)) }
    ensures contains { IsValueOfMoments P (side_of cell) (doubled_centre_of cell) (gaussian x y) (row_of row.entry.cells.now) result }
    ensures size { (n : ℕ) → RowWithin P n (row_of row.entry.cells.now) → BoxWithin (P * n) result }
    ensures narrow { (w : ℕ) → RowNarrow P w (row_of row.entry.cells.now) → BoxEndsNarrow (P * (w + 2) / side_of cell + 2) (box_ends result) }
{
    value_at(row, offset(cell, x, y), side_bits(cell))
}
