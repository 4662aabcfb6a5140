//! The places of a field in an arena.
ghost use Rattle.std.specs.Prelude.{◌≡◌, length, IfOk};
ghost use Rattle.exact_math.specs.Orders.{IsOrder};
ghost use Rattle.quadtree.specs.TreeModel.{size};
ghost use Rattle.row_phases.specs.Levels.{AreAllMadeLocal, AreAllMadeTargets, AreAllMadeUp};

use bumpalo::Bump;
use field_basis::{Basis, Place, TargetPlace};
use row_phases::{
    Crew, Gate, fill_down, fill_down_alone, fill_targets, fill_targets_alone, fill_up,
    fill_up_alone,
};
use std::alloc::AllocError;
use std::thread::Threads;

/// The places of a field in three flat pieces of an arena: for the multipole row and for the local row of each cell, in the order of the cells,
/// and for the box of each target.
#[derive(Drop)]
pub(crate) struct Places<'a, const P: usize> {
    pub(crate) up: Vec<Place<P>, &'a Bump>,
    pub(crate) local: Vec<Place<P>, &'a Bump>,
    pub(crate) values: Vec<TargetPlace, &'a Bump>,
}

impl<'a, const P: usize> Places<'a, P> {
    /// Places that are not filled, for all cells and targets of a basis.
    pub(crate) fn empty(basis: &Basis<P>, arena: &'a Bump) -> Result<Places<'a, P>, AllocError>
        ensures up { IfOk result (λ places. length places.up.items ≡ size basis.now.tree) }
        ensures local { IfOk result (λ places. length places.local.items ≡ size basis.now.tree) }
        ensures values { IfOk result (λ places. length places.values.items ≡ length basis.now.targets) }
    {
        let cells = basis.tree.cells().len();
        let up = vec![in arena; Place::zero(); cells]?;
        let local = vec![in arena; Place::zero(); cells]?;
        let values = vec![in arena; TargetPlace::zero(); basis.targets.len()]?;
        Ok(Places { up, local, values })
    }

    /// Fills them, phase by phase, on the calling thread.
    pub(crate) fn fill_alone(&mut self, basis: &Basis<P>)
        requires order { IsOrder P }
        requires up { length self.old.up.items ≡ size basis.now.tree }
        requires local { length self.old.local.items ≡ size basis.now.tree }
        requires values { length self.old.values.items ≡ length basis.now.targets }
        ensures up { AreAllMadeUp P basis.now self.new.up.items }
        ensures local { AreAllMadeLocal P basis.now self.new.local.items }
        ensures values { AreAllMadeTargets P basis.now self.new.values.items }
    {
        fill_up_alone(basis, &mut self.up);
        fill_down_alone(basis, &self.up, &mut self.local);
        fill_targets_alone(basis, &self.up, &self.local, &mut self.values);
    }

    /// Fills them, phase by phase, by workers.
    pub(crate) fn fill<R: Threads + Sync, G: Gate>(&mut self, crew: &Crew<R, G>, basis: &Basis<P>)
        requires order { IsOrder P }
        requires up { length self.old.up.items ≡ size basis.now.tree }
        requires local { length self.old.local.items ≡ size basis.now.tree }
        requires values { length self.old.values.items ≡ length basis.now.targets }
        ensures up { AreAllMadeUp P basis.now self.new.up.items }
        ensures local { AreAllMadeLocal P basis.now self.new.local.items }
        ensures values { AreAllMadeTargets P basis.now self.new.values.items }
    {
        fill_up(crew, basis, &mut self.up);
        fill_down(crew, basis, &self.up, &mut self.local);
        fill_targets(crew, basis, &self.up, &self.local, &mut self.values);
    }
}
