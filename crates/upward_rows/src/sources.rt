//! The row of a leaf.
ghost use Rattle.std.specs.Prelude.{◌≡◌, ℕ, ◌<◌, length};
ghost use Rattle.exact_math.specs.Orders.{IsOrder};
ghost use Rattle.cell_name.specs.Cell.{square};
ghost use Rattle.points.specs.Limits.{AreWithin};
ghost use Rattle.quadtree.specs.Members.{members_of};
ghost use Rattle.row_recursions.specs.Rows.{row_of};
ghost use Rattle.tree_field.specs.Field.{leaf_row};

use cell_name::Cell;
use complex_box::{CBox, clear};
use multipole::add_source;
use points::Point;

/// Makes the sum of the moments of the sources in a cell, whose points stand at the positions `members`. The points are within the limits of its
/// grid.
pub(crate) fn sum_sources<const P: usize>(
    points: &[Point],
    members: &[u32],
    cell: Cell,
    row: &mut [CBox],
)
    requires order { IsOrder P }
    requires within { AreWithin cell.grid points.now }
    requires members { members.now ≡ members_of points.now (square cell) }
    requires len { length row.old ≡ P }
    ensures { (k : ℕ) → k < P → row_of row.new k ≡ leaf_row points.now (square cell) k }
{
    clear(row);
    for k in members {
        let p = &points[*k as usize];
        if p.kind.is_source() {
            add_source::<P>(row, cell, p);
        }
    }
}
