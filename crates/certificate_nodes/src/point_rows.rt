//! Rows of points that stand end to end in one vector.
ghost use Rattle.std.specs.Prelude.{◌≡◌, ◌<◌, ◌≤◌, ◌++◌, length, All, OnOk, IfOk};
ghost use Rattle.certificate_nodes.specs.AtNodes.{points_at};
ghost use Rattle.certificate_nodes.specs.PointRows.{AreIndices, grouped_points, row_at};

use groups::Groups;
use points::Point;
use std::alloc::{AllocError, Global};
use std::marker::Model;

/// Where a row stands.
#[derive(Clone, Copy)]
pub(crate) struct Range {
    pub(crate) from: usize,
    pub(crate) to: usize,
}

/// Rows of points that stand end to end in one vector.
#[derive(Drop)]
pub(crate) struct PointRows {
    points: Vec<Point>,
    ranges: Vec<Range>,
}

impl Model for PointRows {
    ghost use Rattle.std.specs.Prelude.{List};
    ghost use Rattle.points.specs.declared.Point.{Point};
    ghost use Rattle.certificate_nodes.specs.PointRows.{rows_in, AreRowRanges};

    ghost Value = { List (List Point) };

    ghost view = { λ r. rows_in r.points.items r.ranges.items };

    ghost invariant = { λ r. AreRowRanges r.points.items r.ranges.items };
}

/// Appends the points at some indices.
fn gather(points: &[Point], indices: &[u32], into: &mut Vec<Point>) -> Result<(), AllocError>
    requires { All (λ k. k < length points.now) indices.now }
    ensures { OnOk result (into.new.items ≡ into.old.items ++ points_at points.now indices.now) }
{
    for k in indices {
        into.push(points[*k as usize])?;
    }
    Ok(())
}

impl PointRows {
    /// The points of the first `count` groups, a row for each. Conditions: there are so many groups, and their members are indices of the points.
    pub(crate) fn of(
        alloc: Global,
        points: &[Point],
        groups: &Groups,
        count: usize,
    ) -> Result<PointRows, AllocError>
        requires count { count ≤ length groups.now }
        requires indices { AreIndices (length points.now) count groups.now }
        ensures { IfOk result (λ rows. rows ≡ grouped_points points.now groups.now count) }
    {
        let mut gathered = Vec::new(alloc);
        let mut ranges = Vec::with_capacity(alloc, count)?;
        for n in 0..count {
            let from = gathered.len();
            gather(points, groups.group(n), &mut gathered)?;
            let to = gathered.len();
            ranges.push(Range { from, to })?;
        }
        Ok(PointRows {
            points: gathered,
            ranges,
        })
    }

    /// The row of a number.
    pub(crate) fn row(&self, n: usize) -> &[Point]
        requires { n < length self.now }
        ensures { result.now ≡ row_at self.now n }
    {
        let range = self.ranges[n];
        &self.points[range.from..range.to]
    }
}
