//! How far points are from a cell.
ghost use Rattle.std.specs.Prelude.{◌↔◌, IsTrue, All};
ghost use Rattle.cell_name.specs.Cell.{square};
ghost use Rattle.limits.specs.Grid.{IsInGrid};
ghost use Rattle.points.specs.Points.{place};
ghost use Rattle.soundness.specs.Squares.{IsFarFrom};

use cell_name::Cell;
use points::Point;

/// Whether the point is a side or more from the cell: a part of its doubled offset is at least three sides. Condition: the point is in the cell's grid.
fn is_far(cell: Cell, p: &Point) -> bool
    requires { IsInGrid cell.grid p.now.x p.now.y }
    ensures { IsTrue result ↔ IsFarFrom (square cell) (place p.now) }
{
    let (x, y) = cell.offset(p.x, p.y);
    let least = 3 * cell.side() as u64;
    least <= x.unsigned_abs() || least <= y.unsigned_abs()
}

/// Whether all of the points are far from the cell. Condition: they are in the cell's grid.
pub(crate) fn are_far(cell: Cell, points: &[Point]) -> bool
    requires { All (λ p. IsInGrid cell.grid p.x p.y) points.now }
    ensures { IsTrue result ↔ All (λ p. IsFarFrom (square cell) (place p)) points.now }
{
    for p in points {
        if !is_far(cell, p) {
            return false;
        }
    }
    true
}
