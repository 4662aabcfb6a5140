//! What is kept of each cell, and the leaf of each point.

ghost use Rattle.std.specs.Prelude.{◌≡◌, ℕ, ◌<◌, ◌≤◌, ◌^◌, ◌⊎◌, ◌↔◌, IsTrue, length, not, slice_get, slice_index, All, Contains, IfOk};
ghost use Rattle.std.specs.List.{list_any};
ghost use Rattle.cell_name.specs.Cell.{square};
ghost use Rattle.quadtree.specs.Fields.{HasRange};
ghost use Rattle.quadtree.specs.Nodes.{is_source_at, is_target_at, IsNodeOf, AreNodesTo, LeavesAreApart, LeavesAreTo};
ghost use Rattle.quadtree.specs.Splitting.{squares_of, parents_of, IsRun, AreRuns};
ghost use Rattle.quadtree.specs.Tree.{IsTreeCell};

use crate::children::Children;
use crate::split::Run;
use crate::tree::Node;
use cell_name::Cell;
use points::Point;
use std::alloc::{AllocError, Global};

/// Whether the point at a position is a source.
fn is_source(points: &[Point], k: u32) -> bool
    requires { k < length points.now }
    ensures source { result ≡ is_source_at (slice_get points.now k) }
    ensures target { not result ≡ is_target_at (slice_get points.now k) }
{
    points[k as usize].kind.is_source()
}

/// Whether a target is among the points at some positions.
fn has_target(points: &[Point], members: &[u32]) -> bool
    requires { All (λ k. k < length points.now) members.now }
    ensures { result ≡ list_any (λ k. is_target_at (slice_get points.now k)) members.now }
{
    members.iter().any(|k| !is_source(points, *k))
}

/// Whether a source is among the points at some positions.
fn has_source(points: &[Point], members: &[u32]) -> bool
    requires { All (λ k. k < length points.now) members.now }
    ensures { result ≡ list_any (λ k. is_source_at (slice_get points.now k)) members.now }
{
    members.iter().any(|k| is_source(points, *k))
}

/// Whether a cell with so many points is not split.
fn is_last(count: usize, cap: u32, cell: Cell) -> bool
    ensures { IsTrue result ↔ ((count ≤ cap) ⊎ (cell.level ≡ cell.grid)) }
{
    count <= cap as usize || cell.level == cell.grid
}

/// Writes the number of a leaf at the positions of its points.
fn mark(leaves: &mut [u32], members: &[u32], leaf: u32)
    requires { All (λ k. k < length leaves.old) members.now }
    ensures marked { (k : ℕ) → Contains members.now k → slice_index leaves.new k ≡ leaf }
    ensures others { (k : ℕ) → (Contains members.now k → ⊥) → slice_index leaves.new k ≡ slice_index leaves.old k }
{
    for k in members {
        leaves[*k as usize] = leaf;
    }
}

impl Node {
    /// What is kept of the cell of a run, with the numbers of the cells below it.
    fn of(points: &[Point], cap: u32, positions: &[u32], run: Run, children: Children) -> Node
        requires below { All (λ k. k < length points.now) positions.now }
        requires in_tree { IsTreeCell run.cell.grid points.now cap (square run.cell) }
        requires run { IsRun points.now positions.now run }
        ensures { IsNodeOf points.now cap positions.now (square run.cell) run.parent children result }
    {
        let members = &positions[run.from..run.to];
        Node {
            parent: run.parent,
            from: run.from,
            to: run.to,
            is_leaf: is_last(members.len(), cap, run.cell),
            has_source: has_source(points, members),
            has_target: has_target(points, members),
            children,
        }
    }
}

/// What is kept of each cell, in the order of the runs.
pub(crate) fn nodes_of(
    alloc: Global,
    points: &[Point],
    cap: u32,
    positions: &[u32],
    runs: &[Run],
    families: &[Children],
) -> Result<Vec<Node>, AllocError>
    requires in_tree { All (λ c. IsTreeCell c.grid points.now cap c) (squares_of runs.now) }
    requires runs { AreRuns points.now positions.now runs.now }
    requires families { length families.now ≡ length runs.now }
    ensures { IfOk result (λ v. AreNodesTo points.now cap positions.now (squares_of runs.now) (parents_of runs.now) families.now v.items (length runs.now)) }
{
    let mut nodes = Vec::with_capacity(alloc, runs.len())?;
    for (n, run) in runs.iter().enumerate() {
        nodes.push(Node::of(points, cap, positions, *run, families[n]))?;
    }
    Ok(nodes)
}

/// The number of the leaf of each point.
pub(crate) fn leaves_of(
    alloc: Global,
    count: usize,
    nodes: &[Node],
    positions: &[u32],
) -> Result<Vec<u32>, AllocError>
    requires length { length nodes.now < 2 ^ 32 }
    requires below { All (λ k. k < count) positions.now }
    requires ranges { All (HasRange positions.now) nodes.now }
    requires apart { LeavesAreApart positions.now nodes.now }
    ensures as_many { IfOk result (λ v. length v.items ≡ count) }
    ensures leaves { IfOk result (λ v. LeavesAreTo positions.now nodes.now v.items (length nodes.now)) }
{
    let mut leaves = vec![in alloc; 0u32; count]?;
    for (n, node) in nodes.iter().enumerate() {
        if node.is_leaf {
            mark(&mut leaves, &positions[node.from..node.to], n as u32);
        }
    }
    Ok(leaves)
}
