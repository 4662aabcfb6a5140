//! Local rows: the contributions of far cells and of far sources, and the value of a row at a place in its cell.
//!
//! The coefficient `l` of a local row belongs to `(v/s)^l` in `s` times the field, at the offset `v` from the centre of a cell of side `s`.
#![tactic(auto)]

ghost use Rattle.std.specs.Prelude.{◌≡◌, ℕ, ◌+◌, ◌*◌, ◌/◌, ◌^◌, ◌<◌, length};
ghost use Rattle.exact_math.specs.Ends.{BoxEndsNarrow};
ghost use Rattle.exact_math.specs.Gaussian.{gaussian};
ghost use Rattle.exact_math.specs.Orders.{IsOrder};
ghost use Rattle.exact_math.specs.Within.{GaussianBeyond};
ghost use Rattle.complex_box.specs.Box.{box_ends, number, BoxWithin};
ghost use Rattle.complex_box.specs.Counts.{AddsTranslations};
ghost use Rattle.kernel_table.specs.Kernel.{IsKernelDistance, kernel_entry};
ghost use Rattle.cell_name.specs.Cell.{square};
ghost use Rattle.cell_name.specs.Square.{Holds};
ghost use Rattle.points.specs.Limits.{InRange, weight64};
ghost use Rattle.points.specs.Points.{place};
ghost use Rattle.row_recursions.specs.Cells.{side_of, doubled_centre_of, offset_from, far_coefficients_in};
ghost use Rattle.row_recursions.specs.Contents.{AddsFieldConverted, AddsFieldOf, IsValueOfField};
ghost use Rattle.row_recursions.specs.Rows.{row_of, RowsAdd, converted, local_value};
ghost use Rattle.row_recursions.specs.Sizes.{RowWithin};
ghost use Rattle.row_recursions.specs.Sources.{source_of};
ghost use Rattle.row_recursions.specs.Widths.{RowNarrow, RowHoldsWithin};

mod conversion;
mod narrow;
mod sources;
mod values;

use cell_name::Cell;
use complex_box::{CBox, Gauss, Row, Work};
use conversion::coefficient;
use kernel_table::Kernel;
use narrow::is_narrow;
use points::Point;
use row_recursions::{offset, side_bits};
use sources::add_far;
use values::value_at;

/// Adds the contribution of a far cell of the same side to a cell's local row: of the far cell's multipole row, at the distance `e` in sides
/// from the far cell's centre to the cell's. The sum of the products of the kernel with the row is rounded once at each coefficient.
///
/// Conditions: `P` is one of the orders and the row's length, the greater part of `e` is 2 or 3 in size, all ends of the multipole row are
/// at most 2^80 in size and those of the local row 2^110, and the count of translations is below 2^63.
pub fn convert<const P: usize>(
    kernel: &Kernel<P>,
    row: Row<P>,
    e: Gauss,
    into: &mut [CBox],
    work: &mut Work,
)
    requires order { IsOrder P }
    requires len { length into.old ≡ P }
    requires distance { IsKernelDistance (number e) }
    requires size { RowWithin P (2 ^ 80) (row_of row.cells.now) }
    requires sum { RowWithin P (2 ^ 110) (row_of into.old) }
    requires room { work.old.translations < 2 ^ 63 }
    ensures adds { RowsAdd P (row_of into.old) (converted P (kernel_entry (number e)) (row_of row.entry.cells.now)) (row_of into.new) }
    ensures contains { AddsFieldConverted P (number e) (row_of row.entry.cells.now) (row_of into.old) (row_of into.new) }
    ensures size { (m n : ℕ) → RowWithin P (2 * m) (row_of row.entry.cells.now) → RowWithin P n (row_of into.old) → RowWithin P (n + 3 * m) (row_of into.new) }
    ensures narrow { (v w A : ℕ) → RowNarrow P w (row_of row.entry.cells.now) → RowHoldsWithin P A (row_of row.entry.cells.now)
        → RowNarrow P v (row_of into.old) → RowNarrow P (v + (2 * w + 2 * P * A + 3)) (row_of into.new) }
    ensures work { AddsTranslations 1 work.old work.new }
{
    let narrow = is_narrow(row);
    for l in 0..P {
        into[l] = into[l].add(coefficient(kernel.column(e, l), row, narrow));
    }
    work.raise_translations();
}

/// Adds the contribution of a point far from the cell to the cell's local row; a target adds nothing. Conditions: `P` is one of the orders
/// and the row's length, the point is in range of the cell's grid, twice its offset from the cell's centre has a part of at least 3 sides,
/// and all ends of the row are at most 2^110 in size.
pub fn add_far_source<const P: usize>(into: &mut [CBox], cell: Cell, p: &Point)
    requires order { IsOrder P }
    requires len { length into.old ≡ P }
    requires range { InRange cell.grid p.now }
    requires far { GaussianBeyond (3 * side_of cell) (offset_from cell (place p.now)) }
    requires sum { RowWithin P (2 ^ 110) (row_of into.old) }
    ensures len { length into.new ≡ P }
    ensures adds { RowsAdd P (row_of into.old) (far_coefficients_in (square cell) p.now) (row_of into.new) }
    ensures contains { AddsFieldOf P (side_of cell) (doubled_centre_of cell) (source_of p.now) (row_of into.old) (row_of into.new) }
    ensures size { (n : ℕ) → RowWithin P n (row_of into.old) → RowWithin P (n + 2 ^ 40 * weight64 p.now) (row_of into.new) }
    ensures narrow { (v : ℕ) → RowNarrow P v (row_of into.old) → RowNarrow P (v + (2 * (P * P) + 2 * P)) (row_of into.new) }
{
    add_far(into, cell, p);
}

/// The value of a local row at the place `(x, y)`, by Horner's scheme in `v/s` from the last coefficient on, with `v` the place's offset
/// from the cell's centre: `1/s` times the sum of `c_l (v/s)^l`.
///
/// Conditions: `P` is one of the orders, the cell holds the place, and all ends of the row are at most 2^90 in size.
pub fn at_local<const P: usize>(row: Row<P>, cell: Cell, x: i64, y: i64) -> CBox
    requires order { IsOrder P }
    requires inside { Holds (square cell) x y }
    requires size { RowWithin P (2 ^ 90) (row_of row.cells.now) }
    ensures ends { box_ends result ≡ local_value P (row_of row.entry.cells.now) (side_of cell) (offset_from cell (gaussian x y)) }
    ensures contains { IsValueOfField P (side_of cell) (doubled_centre_of cell) (gaussian x y) (row_of row.entry.cells.now) result }
    ensures size { (n : ℕ) → RowWithin P n (row_of row.entry.cells.now) → BoxWithin (P * n) result }
    ensures narrow { (w : ℕ) → RowNarrow P w (row_of row.entry.cells.now) → BoxEndsNarrow (P * (w + 2) / side_of cell + 2) (box_ends result) }
{
    value_at(row, offset(cell, x, y), side_bits(cell))
}
