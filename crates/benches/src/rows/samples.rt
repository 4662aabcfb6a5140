//! A row, a cell, and arguments that follow from a counter.
ghost use Rattle.std.specs.Prelude.{◌≡◌, ◌*◌, ◌^◌};
ghost use Rattle.exact_math.specs.Within.{GaussianBeyond};
ghost use Rattle.truncation.specs.Places.{doubled_offset};
ghost use Rattle.complex_box.specs.Box.{number};
ghost use Rattle.cell_name.specs.Cell.{square};
ghost use Rattle.cell_name.specs.Square.{side, Holds};
ghost use Rattle.kernel_table.specs.Kernel.{IsKernelDistance};
ghost use Rattle.limits.specs.Limits.{first_grid, widest_grid};
ghost use Rattle.points.specs.Limits.{HasStrength, InRange, IsKindOf};
ghost use Rattle.points.specs.Points.{place};
ghost use Rattle.row_recursions.specs.Geometry.{doubled_centre};
ghost use Rattle.row_recursions.specs.Rows.{row_of};
ghost use Rattle.row_recursions.specs.Sizes.{RowWithin};
ghost use Rattle.benches.specs.Middle.{middle};

use cell_name::{Cell, Quadrant};
use complex_box::{CBox, Gauss};
use fixed_interval::Interval;
use limits::FIRST_GRID;
use points::{Kind, Point};

/// A row of order 16 whose boxes are 2 and 3 wide.
pub fn sample_row() -> [CBox; 16]
    ensures { RowWithin 16 (2 ^ 60) (row_of result) }
{
    let mut row = [CBox::zero(); 16];
    for k in 0..16usize {
        let n = 1_000_000_007_000_003 - 61_000_000_000_001 * k as i128;
        row[k] = CBox {
            re: Interval::new(n, n + 2),
            im: Interval::new(-n, 3 - n),
        };
    }
    row
}

/// The cell of side 1024 whose corner is the origin.
pub fn cell() -> Cell
    ensures { square result ≡ middle }
{
    Cell {
        level: 6,
        i: 32,
        j: 32,
        grid: FIRST_GRID,
    }
}

/// Each quadrant in turn.
#[inline]
pub fn quadrant(n: u32) -> Quadrant {
    Quadrant {
        right: n % 2 == 0,
        top: n % 4 < 2,
    }
}

/// Fourteen distances in turn.
#[inline]
pub fn distance(n: u32) -> Gauss
    ensures { IsKernelDistance (number result) }
{
    let re = if n % 2 == 0 { -2 } else { 3 };
    Gauss {
        re,
        im: i64::from(n % 7) - 3,
    }
}

/// A point in the cell.
#[inline]
pub fn inside(n: u32, kind: Kind) -> Point
    requires { HasStrength kind }
    ensures kind { result.kind ≡ kind }
    ensures range { InRange widest_grid result }
    ensures inside { Holds middle result.x result.y }
{
    Point {
        x: i64::from(n % 1024),
        y: i64::from(n % 613),
        kind,
    }
}

/// A point two sides and more to the east of the cell.
#[inline]
pub fn outside(n: u32, kind: Kind) -> Point
    requires strength { HasStrength kind }
    requires version { IsKindOf first_grid kind }
    ensures kind { result.kind ≡ kind }
    ensures range { InRange first_grid result }
    ensures far { GaussianBeyond (3 * side middle) (doubled_offset (place result) (doubled_centre middle)) }
{
    Point {
        x: 2048 + i64::from(n % 1024),
        y: i64::from(n % 613),
        kind,
    }
}
