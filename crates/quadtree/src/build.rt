//! Building the tree of a list of points.

ghost use Rattle.std.specs.Prelude.{◌≡◌, ◌≤◌, length, map, All, IfErr, IfNone, IfOk, IfSome, OnOk};
ghost use Rattle.exact_math.specs.Orders.{IsCapacity};
ghost use Rattle.limits.specs.Limits.{IsGrid, grid_of, most_points, most_cells};
ghost use Rattle.points.specs.Limits.{WithinLimits};
ghost use Rattle.quadtree.specs.Faults.{NoneIsCrowded, HasTree, IsFaultOf};
ghost use Rattle.quadtree.specs.Splitting.{squares_of, AreRuns, HaveParents, IsCrowdedRun, IsFirstCrowdedRun};
ghost use Rattle.quadtree.specs.Tree.{AreInGrid, AreExactly, IsTreeCell};
ghost use Rattle.quadtree.specs.TreeModel.{IsTreeOf};

use crate::children::children_of;
use crate::fault::TreeFault;
use crate::nodes::{leaves_of, nodes_of};
use crate::split::{Run, Splits};
use crate::tree::Tree;
use cell_name::Cell;
use limits::{MOST_AT_A_PLACE, grid_of, most_cells};
use points::{Point, Points};
use std::alloc::{AllocError, Global};

/// The first run of a place with too many points.
fn first_crowded(runs: &[Run]) -> Option<Run>
    requires { All (λ r. r.from ≤ r.to) runs.now }
    ensures none { IfNone result (All (λ r. IsCrowdedRun r → ⊥) runs.now) }
    ensures found { IfSome result (IsFirstCrowdedRun runs.now) }
{
    for run in runs {
        if run.cell.level == run.cell.grid && run.to - run.from > MOST_AT_A_PLACE {
            return Some(*run);
        }
    }
    None
}

/// The cells of the tree in their order, unless a place is crowded or the cells are too many.
fn accepted(alloc: Global, points: &[Point], cap: u32, grid: u8) -> Result<Splits, TreeFault>
    requires known_grid { IsGrid grid }
    requires in_grid { AreInGrid grid points.now }
    requires length { length points.now ≤ most_points grid }
    requires most { cap ≤ 1024 }
    ensures cells { IfOk result (λ s. AreExactly (IsTreeCell grid points.now cap) (squares_of s.runs.items)) }
    ensures runs { IfOk result (λ s. AreRuns points.now s.positions.items s.runs.items) }
    ensures parents { IfOk result (λ s. HaveParents (squares_of s.runs.items) s.runs.items) }
    ensures length { IfOk result (λ s. length s.runs.items ≤ most_cells grid) }
    ensures none_crowded { OnOk result (NoneIsCrowded grid points.now) }
    ensures fault { IfErr result (IsFaultOf grid points.now cap) }
{
    let splits = Splits::of(alloc, points, cap, grid)?;
    if let Some(run) = first_crowded(&splits.runs) {
        let count = (run.to - run.from) as u64;
        return Err(TreeFault::Crowded {
            cell: run.cell,
            count,
        });
    }
    if splits.runs.len() > most_cells(grid) as usize {
        return Err(TreeFault::Cells);
    }
    Ok(splits)
}

/// The cells of runs.
fn cells_of(alloc: Global, runs: &[Run]) -> Result<Vec<Cell>, AllocError>
    ensures { IfOk result (λ v. v.items ≡ map (λ r. r.cell) runs.now) }
{
    runs.iter().map(|run| run.cell).collect(alloc)
}

/// The tree of the cells and the positions that were found.
fn assembled(
    alloc: Global,
    points: &[Point],
    cap: u32,
    grid: u8,
    splits: Splits,
) -> Result<Tree, AllocError>
    requires known_grid { IsGrid grid }
    requires in_grid { AreInGrid grid points.now }
    requires few_points { length points.now ≤ most_points grid }
    requires cells { AreExactly (IsTreeCell grid points.now cap) (squares_of splits.runs.items) }
    requires few_cells { length splits.runs.items ≤ most_cells grid }
    requires runs { AreRuns points.now splits.positions.items splits.runs.items }
    requires parents { HaveParents (squares_of splits.runs.items) splits.runs.items }
    requires capacity { IsCapacity cap }
    ensures tree { IfOk result (λ tree. IsTreeOf tree points.now cap) }
    ensures grid { IfOk result (λ tree. tree.grid ≡ grid) }
{
    let Splits { positions, runs } = splits;
    let cells = cells_of(alloc, &runs)?;
    let families = children_of(alloc, &runs)?;
    let nodes = nodes_of(alloc, points, cap, &positions, &runs, &families)?;
    let leaves = leaves_of(alloc, points.len(), &nodes, &positions)?;
    Ok(Tree {
        grid,
        cells,
        nodes,
        positions,
        leaves,
    })
}

impl Tree {
    /// The tree of a list of points with a leaf capacity.
    ///
    /// The list is within the limits of its version, which tells the grid, and the capacity is 8 to 1024. Where more than
    /// 4,096 points stand at one place, `Crowded` has the first such place by column and row, as a cell of the grid's last
    /// level. Otherwise, where the tree has more cells than `limits::most_cells` of its grid, it is `Cells`.
    pub fn build(alloc: Global, points: &Points, cap: u32) -> Result<Tree, TreeFault>
        requires list { WithinLimits points.now }
        requires capacity { IsCapacity cap }

        // Every answer but `Memory` is the one that the list and the capacity determine.
        ensures grid { IfOk result (λ tree. tree.grid ≡ grid_of points.now.version) }
        ensures tree { IfOk result (λ tree. IsTreeOf tree points.now.list cap) }
        ensures has_tree { OnOk result (HasTree (grid_of points.now.version) points.now.list cap) }
        ensures fault { IfErr result (IsFaultOf (grid_of points.now.version) points.now.list cap) }
    {
        let grid = grid_of(points.version);
        let list = points.list.points();
        let splits = accepted(alloc, list, cap, grid)?;
        Ok(assembled(alloc, list, cap, grid, splits)?)
    }
}
