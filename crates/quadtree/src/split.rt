//! Splitting cells into their quarters, level by level.

ghost use Rattle.std.specs.Prelude.{◌≡◌, ◌≤◌, ◌<◌, ◌++◌, [], ◌∷◌, length, All, OnOk, IfOk};
ghost use Rattle.std.specs.List.{range_with_len};
ghost use Rattle.cell_name.specs.Cell.{square, half_number};
ghost use Rattle.cell_name.specs.Square.{root, child};
ghost use Rattle.limits.specs.Limits.{IsGrid, widest_grid, most_points};
ghost use Rattle.quadtree.specs.Divided.{HasRoom};
ghost use Rattle.quadtree.specs.Splitting.{squares_of, occupied, below_from, quarters_of, added_run, AddsCells, AreRuns, AreBelow, HaveParents};
ghost use Rattle.quadtree.specs.Tree.{AreInGrid, AreExactly, IsTreeCell};

use crate::divide::Parts;
use cell_name::{Cell, Quadrant};
use points::Point;
use std::alloc::{AllocError, Global};

/// A cell with its parent's number, and its points as a range of the positions.
#[derive(Clone, Copy, PartialEq, Eq, PartialOrd, Ord)]
pub(crate) struct Run {
    pub(crate) cell: Cell,
    pub(crate) parent: usize,
    pub(crate) from: usize,
    pub(crate) to: usize,
}

/// Cells with their points, and the positions of the points of each, end to end.
#[derive(Drop)]
pub(crate) struct Splits {
    pub(crate) positions: Vec<u32>,
    pub(crate) runs: Vec<Run>,
}

/// The positions `0 ..`, so many.
fn all_positions(alloc: Global, count: u32) -> Result<Vec<u32>, AllocError>
    ensures { IfOk result (λ v. v.items ≡ range_with_len 0 count) }
{
    let mut positions = Vec::with_capacity(alloc, count as usize)?;
    for k in 0..count {
        positions.push(k)?;
    }
    Ok(positions)
}

/// The quarter of a cell in one of the four quadrants.
fn quarter(cell: Cell, right: bool, top: bool) -> Cell
    requires { cell.level < cell.grid }
    ensures { square result ≡ child (square cell) (half_number right) (half_number top) }
{
    cell.child(Quadrant { right, top })
}

impl Splits {
    /// Adds a cell with its points, where it has one.
    fn push(&mut self, cell: Cell, parent: usize, members: &[u32]) -> Result<(), AllocError>
        ensures positions { OnOk result (self.new.positions.items ≡ self.old.positions.items ++ members.now) }
        ensures runs { OnOk result (self.new.runs.items ≡ self.old.runs.items ++ added_run cell parent (length self.old.positions.items) members.now) }
    {
        if members.is_empty() {
            return Ok(());
        }
        let from = self.positions.len();
        self.positions.extend_from_slice(members)?;
        let to = self.positions.len();
        self.runs.push(Run {
            cell,
            parent,
            from,
            to,
        })?;
        Ok(())
    }

    /// Adds the quarters of the cell of a number that have a point.
    fn push_quarters(
        &mut self,
        points: &[Point],
        parts: &mut Parts,
        above: &[Run],
        number: usize,
    ) -> Result<(), AllocError>
        requires number { number < length above.now }
        requires levels { All (λ c. c.level < c.grid) (squares_of above.now) }
        requires parts { HasRoom parts.old (length points.now) }
        requires below { AreBelow points.now above.now self.old.positions.items self.old.runs.items }
        ensures cells { OnOk result (AddsCells self.old.runs.items (occupied points.now (quarters_of (squares_of above.now) number)) self.new.runs.items) }
        ensures below { OnOk result (AreBelow points.now above.now self.new.positions.items self.new.runs.items) }
        ensures parts { OnOk result (HasRoom parts.new (length points.now)) }
    {
        let run = above[number];
        let cell = run.cell;
        let counts = parts.divide(points, &self.positions[run.from..run.to], cell);
        let southwest = &parts.southwest[..counts.southwest];
        self.push(quarter(cell, false, false), number, southwest)?;
        let northwest = &parts.northwest[..counts.northwest];
        self.push(quarter(cell, false, true), number, northwest)?;
        let southeast = &parts.southeast[..counts.southeast];
        self.push(quarter(cell, true, false), number, southeast)?;
        let northeast = &parts.northeast[..counts.northeast];
        self.push(quarter(cell, true, true), number, northeast)?;
        Ok(())
    }

    /// Adds the cells below those from number `start` on.
    fn split_level(
        &mut self,
        points: &[Point],
        cap: u32,
        parts: &mut Parts,
        above: &[Run],
        start: usize,
    ) -> Result<(), AllocError>
        requires start { start ≤ length above.now }
        requires levels { All (λ c. c.level < c.grid) (squares_of above.now) }
        requires parts { HasRoom parts.old (length points.now) }
        requires below { AreBelow points.now above.now self.old.positions.items self.old.runs.items }
        ensures cells { OnOk result (AddsCells self.old.runs.items (below_from points.now cap start above.now) self.new.runs.items) }
        ensures below { OnOk result (AreBelow points.now above.now self.new.positions.items self.new.runs.items) }
        ensures parts { OnOk result (HasRoom parts.new (length points.now)) }
    {
        for number in start..above.len() {
            let run = above[number];
            if run.to - run.from > cap as usize {
                self.push_quarters(points, parts, above, number)?;
            }
        }
        Ok(())
    }

    /// The whole grid, where there is a point at all.
    fn root(alloc: Global, points: &[Point], grid: u8) -> Result<Splits, AllocError>
        requires known_grid { IsGrid grid }
        requires in_grid { AreInGrid grid points.now }
        requires length { length points.now ≤ most_points widest_grid }
        ensures cells { IfOk result (λ s. squares_of s.runs.items ≡ occupied points.now (root grid ∷ [])) }
        ensures runs { IfOk result (λ s. AreRuns points.now s.positions.items s.runs.items) }
        ensures parents { IfOk result (λ s. HaveParents (squares_of s.runs.items) s.runs.items) }
    {
        let count = points.len();
        let positions = all_positions(alloc, count as u32)?;
        let mut runs = Vec::new(alloc);
        if count > 0 {
            runs.push(Run {
                cell: Cell::root(grid),
                parent: 0,
                from: 0,
                to: count,
            })?;
        }
        Ok(Splits { positions, runs })
    }

    /// The cells of the tree in their order, and the positions of their points.
    ///
    /// Level by level: the cells of a level have their numbers before the next is made, so each is made with its parent's number.
    pub(crate) fn of(
        alloc: Global,
        points: &[Point],
        cap: u32,
        grid: u8,
    ) -> Result<Splits, AllocError>
        requires known_grid { IsGrid grid }
        requires in_grid { AreInGrid grid points.now }
        requires length { length points.now ≤ most_points widest_grid }
        ensures cells { IfOk result (λ s. AreExactly (IsTreeCell grid points.now cap) (squares_of s.runs.items)) }
        ensures runs { IfOk result (λ s. AreRuns points.now s.positions.items s.runs.items) }
        ensures parents { IfOk result (λ s. HaveParents (squares_of s.runs.items) s.runs.items) }
    {
        let Splits {
            positions,
            mut runs,
        } = Splits::root(alloc, points, grid)?;
        let mut found = Splits {
            positions,
            runs: Vec::new(alloc),
        };
        let mut parts = Parts::new(alloc, points.len())?;
        let mut start = 0;
        for _level in 0..grid {
            found.split_level(points, cap, &mut parts, &runs, start)?;
            start = runs.len();
            found.runs.sort_unstable();
            runs.extend_from_slice(&found.runs)?;
            found.runs.clear();
        }
        Ok(Splits {
            positions: found.positions,
            runs,
        })
    }
}
