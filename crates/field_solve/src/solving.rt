//! The solve.
ghost use Rattle.std.specs.Prelude.{◌≡◌, ◌≤◌, length, map, IfErr, IfOk, OnOk};
ghost use Rattle.complex_box.specs.Box.{box_ends};
ghost use Rattle.exact_math.specs.Orders.{IsCapacity, IsOrder};
ghost use Rattle.field_basis.specs.Basis.{IsBasis};
ghost use Rattle.field_basis.specs.FieldPlaces.{TargetsContain};
ghost use Rattle.field_widths.specs.Bound.{PrintNoWider};
ghost use Rattle.limits.specs.Limits.{grid_of, most_workers};
ghost use Rattle.points.specs.Limits.{AreWithin, IsOrderOf, WithinLimits};
ghost use Rattle.quadtree.specs.Faults.{HasTree, IsFaultOf};
ghost use Rattle.quadtree.specs.TreeModel.{IsTreeOf, size, squares};
ghost use Rattle.row_phases.specs.Levels.{AreAllMadeLocal, AreAllMadeTargets, AreAllMadeUp};
ghost use Rattle.field_solve.specs.Contents.{RowsContain};
ghost use Rattle.field_solve.specs.Field.{IsSolved};

use crate::field::Field;
use crate::places::Places;
use bumpalo::Bump;
use field_basis::{Basis, all_pairs, all_translations};
use points::{Point, Points};
use quadtree::{Tree, TreeFault};
use row_phases::{Crew, Gate};
use std::alloc::{AllocError, Global};
use std::thread::Threads;

/// What a field is made from, and places for it that are not filled.
#[derive(Drop)]
struct Prepared<'a, const P: usize> {
    basis: Basis<P>,
    places: Places<'a, P>,
}

impl<'a, const P: usize> Prepared<'a, P> {
    /// The basis over a tree of the points, and the places of its field.
    fn over(
        alloc: Global,
        points: &[Point],
        cap: u32,
        tree: Tree,
        arena: &'a Bump,
    ) -> Result<Prepared<'a, P>, AllocError>
        requires order { IsOrder P }
        requires within { AreWithin tree.grid points.now }
        requires capacity { IsCapacity cap }
        requires tree { IsTreeOf tree points.now cap }
        ensures stands { IfOk result (λ made. IsBasis P made.basis) }
        ensures points { IfOk result (λ made. made.basis.points ≡ points.now) }
        ensures cap { IfOk result (λ made. made.basis.cap ≡ cap) }
        ensures tree { IfOk result (λ made. made.basis.tree ≡ tree) }
        ensures up { IfOk result (λ made. length made.places.up.items ≡ size made.basis.tree) }
        ensures local { IfOk result (λ made. length made.places.local.items ≡ size made.basis.tree) }
        ensures values { IfOk result (λ made. length made.places.values.items ≡ length made.basis.targets) }
    {
        let basis = Basis::<P>::over(alloc, points, cap, tree)?;
        let places = Places::empty(&basis, arena)?;
        Ok(Prepared { basis, places })
    }

    /// The field, whose places are filled here on the calling thread.
    fn filled_alone(self) -> Field<'a, P>
        requires basis { IsBasis P self.basis }
        requires up { length self.places.up.items ≡ size self.basis.tree }
        requires local { length self.places.local.items ≡ size self.basis.tree }
        requires values { length self.places.values.items ≡ length self.basis.targets }
        ensures field { IsSolved self.entry.basis.points self.entry.basis.cap P result }
        ensures basis { result.basis ≡ self.entry.basis }
        ensures rows { RowsContain self.entry.basis.points P result }
        ensures contains { TargetsContain self.entry.basis.points result.values }
        ensures narrow { PrintNoWider P self.entry.basis.points (squares result.basis.tree) (map box_ends result.values) }
    {
        let mut places = self.places;
        places.fill_alone(&self.basis);
        finished(self.basis, places)
    }

    /// The field, whose places are filled here by workers.
    fn filled<R: Threads + Sync, G: Gate>(self, crew: &Crew<R, G>) -> Field<'a, P>
        requires basis { IsBasis P self.basis }
        requires up { length self.places.up.items ≡ size self.basis.tree }
        requires local { length self.places.local.items ≡ size self.basis.tree }
        requires values { length self.places.values.items ≡ length self.basis.targets }
        ensures field { IsSolved self.entry.basis.points self.entry.basis.cap P result }
        ensures basis { result.basis ≡ self.entry.basis }
        ensures rows { RowsContain self.entry.basis.points P result }
        ensures contains { TargetsContain self.entry.basis.points result.values }
        ensures narrow { PrintNoWider P self.entry.basis.points (squares result.basis.tree) (map box_ends result.values) }
    {
        let mut places = self.places;
        places.fill(crew, &self.basis);
        finished(self.basis, places)
    }
}

/// The basis of a list of points, and places for its field.
fn prepare<'a, const P: usize>(
    alloc: Global,
    points: &Points,
    cap: u32,
    arena: &'a Bump,
) -> Result<Prepared<'a, P>, TreeFault>
    requires list { WithinLimits points.now }
    requires order { IsOrderOf (grid_of points.now.version) P }
    requires capacity { IsCapacity cap }
    ensures stands { IfOk result (λ made. IsBasis P made.basis) }
    ensures points { IfOk result (λ made. made.basis.points ≡ points.now.list) }
    ensures cap { IfOk result (λ made. made.basis.cap ≡ cap) }
    ensures grid { IfOk result (λ made. made.basis.tree.grid ≡ grid_of points.now.version) }
    ensures up { IfOk result (λ made. length made.places.up.items ≡ size made.basis.tree) }
    ensures local { IfOk result (λ made. length made.places.local.items ≡ size made.basis.tree) }
    ensures values { IfOk result (λ made. length made.places.values.items ≡ length made.basis.targets) }
    ensures has_tree { OnOk result (HasTree (grid_of points.now.version) points.now.list cap) }
    ensures fault { IfErr result (IsFaultOf (grid_of points.now.version) points.now.list cap) }
{
    let tree = Tree::build(alloc, points, cap)?;
    Ok(Prepared::over(alloc, points.list.points(), cap, tree, arena)?)
}

/// The field of a basis whose places are filled.
fn finished<'a, const P: usize>(basis: Basis<P>, places: Places<'a, P>) -> Field<'a, P>
    requires basis { IsBasis P basis }
    requires up { AreAllMadeUp P basis places.up.items }
    requires local { AreAllMadeLocal P basis places.local.items }
    requires values { AreAllMadeTargets P basis places.values.items }
    ensures field { IsSolved basis.entry.points basis.entry.cap P result }
    ensures basis { result.basis ≡ basis.entry }
    ensures rows { RowsContain basis.entry.points P result }
    ensures contains { TargetsContain basis.entry.points result.values }
    ensures narrow { PrintNoWider P basis.entry.points (squares result.basis.tree) (map box_ends result.values) }
{
    let translations = all_translations::<P>(&places.up) + all_translations::<P>(&places.local);
    let pairs = all_pairs(&places.values);
    Field {
        basis,
        places,
        translations,
        pairs,
    }
}

/// The field of a list of points with a leaf capacity, at the order `P`, by `workers` workers. Each row is made once, level by level. A multipole
/// row then contains the moments of the sources in its cell, a local row the field of the V and X entries of its cell and of those above it,
/// and the box of a target the direct sum at that target. It is the same field for every number of workers and every gate. All its places are
/// made in the arena before the first is filled.
///
/// The cells of each level, and the targets, are cut into at most `workers` runs, which threads of `rt` fill; the gate is told of each run.
///
/// Conditions: the list is within the limits of its version, `P` is one of the orders of that version, the capacity is 8 to 1024, and there are
/// 1 to `limits::MOST_WORKERS` workers.
///
/// # Errors
///
/// Where more than 4,096 points stand at one place, `Crowded` has the first such place by column and row, and how many they are; otherwise, where
/// the tree has more cells than `limits::most_cells` of its grid, it is `Cells`. `Memory` is want of memory.
pub fn solve<'a, const P: usize, R: Threads + Sync, G: Gate>(
    rt: &R,
    alloc: Global,
    points: &Points,
    cap: u32,
    workers: u32,
    gate: &G,
    arena: &'a Bump,
) -> Result<Field<'a, P>, TreeFault>
    requires list { WithinLimits points.now }
    requires order { IsOrderOf (grid_of points.now.version) P }
    requires capacity { IsCapacity cap }
    requires least { 1 ≤ workers }
    requires most { workers ≤ most_workers }
    ensures field { IfOk result (λ field. IsSolved points.now.list cap P field) }
    ensures rows { IfOk result (λ field. RowsContain points.now.list P field) }
    ensures contains { IfOk result (λ field. TargetsContain points.now.list field.values) }
    ensures narrow { IfOk result (λ field. PrintNoWider P points.now.list (squares field.basis.tree) (map box_ends field.values)) }
    ensures grid { IfOk result (λ field. field.basis.tree.grid ≡ grid_of points.now.version) }
    ensures has_tree { OnOk result (HasTree (grid_of points.now.version) points.now.list cap) }
    ensures fault { IfErr result (IsFaultOf (grid_of points.now.version) points.now.list cap) }
{
    let prepared = prepare::<P>(alloc, points, cap, arena)?;
    let crew = Crew { rt, workers, gate };
    Ok(prepared.filled(&crew))
}

/// The field that `solve` gives, with all done on the calling thread.
///
/// Conditions and errors are those of `solve`.
pub fn solve_alone<'a, const P: usize>(
    alloc: Global,
    points: &Points,
    cap: u32,
    arena: &'a Bump,
) -> Result<Field<'a, P>, TreeFault>
    requires list { WithinLimits points.now }
    requires order { IsOrderOf (grid_of points.now.version) P }
    requires capacity { IsCapacity cap }
    ensures field { IfOk result (λ field. IsSolved points.now.list cap P field) }
    ensures rows { IfOk result (λ field. RowsContain points.now.list P field) }
    ensures contains { IfOk result (λ field. TargetsContain points.now.list field.values) }
    ensures narrow { IfOk result (λ field. PrintNoWider P points.now.list (squares field.basis.tree) (map box_ends field.values)) }
    ensures grid { IfOk result (λ field. field.basis.tree.grid ≡ grid_of points.now.version) }
    ensures has_tree { OnOk result (HasTree (grid_of points.now.version) points.now.list cap) }
    ensures fault { IfErr result (IsFaultOf (grid_of points.now.version) points.now.list cap) }
{
    Ok(prepare::<P>(alloc, points, cap, arena)?.filled_alone())
}
