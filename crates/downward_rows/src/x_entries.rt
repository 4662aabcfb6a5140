//! The X entries of a cell: the sources of cells that are far from it.
ghost use Rattle.std.specs.Prelude.{◌≡◌, ℕ, ◌+◌, ◌^◌, ◌≤◌, ◌<◌, length, All};
ghost use Rattle.exact_math.specs.Orders.{IsOrder};
ghost use Rattle.cell_name.specs.Cell.{square};
ghost use Rattle.limits.specs.Limits.{most_points, widest_grid};
ghost use Rattle.quadtree.specs.TreeModel.{size};
ghost use Rattle.row_recursions.specs.Rows.{row_of, RowsAdd};
ghost use Rattle.row_recursions.specs.Sizes.{RowWithin};
ghost use Rattle.soundness.specs.Computed.{total_row};
ghost use Rattle.downward_rows.specs.Entries.{IsFarPosition, far_row_at, x_rows_of};

use cell_name::Cell;
use complex_box::CBox;
use field_basis::Basis;
use local_expansion::add_far_source;
use points::Point;

/// Adds what the point at a position adds to the row of a cell that is far from it.
fn add_position<const P: usize>(cell: Cell, points: &[Point], k: u32, into: &mut [CBox])
    requires order { IsOrder P }
    requires far { IsFarPosition points.now (square cell) k }
    requires len { length into.old ≡ P }
    requires sum { RowWithin P (2 ^ 110) (row_of into.old) }
    ensures len { length into.new ≡ P }
    ensures adds { RowsAdd P (row_of into.old) (far_row_at points.now (square cell) k) (row_of into.new) }
    ensures size { (n : ℕ) → RowWithin P n (row_of into.old) → RowWithin P (n + 2 ^ 67) (row_of into.new) }
{
    add_far_source::<P>(into, cell, &points[k as usize]);
}

/// Adds what the points at these positions add to the row of a cell that is far from them.
fn add_positions<const P: usize>(cell: Cell, points: &[Point], list: &[u32], into: &mut [CBox])
    requires order { IsOrder P }
    requires far { All (IsFarPosition points.now (square cell)) list.now }
    requires length { length list.now ≤ most_points widest_grid }
    requires len { length into.old ≡ P }
    requires sum { RowWithin P (2 ^ 109) (row_of into.old) }
    ensures len { length into.new ≡ P }
    ensures adds { RowsAdd P (row_of into.old) (total_row (far_row_at points.now (square cell)) list.now) (row_of into.new) }
    ensures size { (n : ℕ) → RowWithin P n (row_of into.old) → RowWithin P (n + 2 ^ 84) (row_of into.new) }
{
    for k in list {
        add_position::<P>(cell, points, *k, into);
    }
}

/// Adds what the sources of each cell of the X list of cell `n` add to its row.
pub(crate) fn add_x_entries<const P: usize>(basis: &Basis<P>, n: usize, into: &mut [CBox])
    requires cell { n < size basis.now.tree }
    requires len { length into.old ≡ P }
    requires sum { RowWithin P (2 ^ 91) (row_of into.old) }
    ensures len { length into.new ≡ P }
    ensures adds { RowsAdd P (row_of into.old) (x_rows_of basis.now n) (row_of into.new) }
{
    let cell = basis.tree.cells()[n];
    for c in basis.lists.x_list(n) {
        add_positions::<P>(cell, &basis.points, basis.tree.members(*c as usize), into);
    }
}
