//! The row of the sources of a leaf.
ghost use Rattle.std.specs.Prelude.{◌≡◌, ◌≤◌, length, All};
ghost use Rattle.exact_math.specs.Orders.{IsOrder};
ghost use Rattle.cell_name.specs.Cell.{square};
ghost use Rattle.cell_name.specs.Square.{Holds};
ghost use Rattle.limits.specs.Limits.{most_weight, widest_grid};
ghost use Rattle.points.specs.Limits.{InRange, total_weight};
ghost use Rattle.row_recursions.specs.Rows.{row_of, AreSameRows};
ghost use Rattle.soundness.specs.Steps.{moments_of};

use cell_name::Cell;
use complex_box::{CBox, clear};
use multipole::add_source;
use points::Point;

/// Makes the sum of the moments of some sources in a cell. They are in range of some version, and no heavier than a list may be.
pub(crate) fn sum_sources<const P: usize>(sources: &[Point], cell: Cell, row: &mut [CBox])
    requires order { IsOrder P }
    requires range { All (InRange widest_grid) sources.now }
    requires held { All (λ p. Holds (square cell) p.x p.y) sources.now }
    requires weight { total_weight sources.now ≤ most_weight widest_grid }
    requires len { length row.old ≡ P }
    ensures len { length row.new ≡ P }
    ensures row { AreSameRows P (moments_of (λ p. p) (square cell) sources.now) (row_of row.new) }
{
    clear(row);
    for p in sources {
        add_source::<P>(row, cell, p);
    }
}
