//! The places of a run of targets.
ghost use Rattle.std.specs.Prelude.{◌≡◌, ℕ, ◌+◌, ◌<◌, ◌≤◌, length};
ghost use Rattle.field_basis.specs.FieldPlaces.{AreAllLocalPlaces, AreAllMultipolePlaces};
ghost use Rattle.field_basis.specs.MadePlaces.{IsMadeTarget};
ghost use Rattle.field_basis.specs.Target.{target_at};

use crate::value::target_value;
use complex_box::Work;
use field_basis::{Basis, Place, TargetPlace};

/// The box of the k-th target, and the pairs that were summed for it.
fn make_target<const P: usize>(
    basis: &Basis<P>,
    up: &[Place<P>],
    local: &[Place<P>],
    k: usize,
) -> TargetPlace
    requires up { AreAllMultipolePlaces P basis.now.points basis.now.tree up.now }
    requires local { AreAllLocalPlaces P basis.now local.now }
    requires index { k < length basis.now.targets }
    ensures { IsMadeTarget P basis.now k result }
{
    prove!(k < basis.targets.len());
    let mut work = Work::new();
    let value = target_value(basis, up, local, k, &mut work);
    TargetPlace::of(value, work.pairs())
}

/// Writes the boxes of the targets `first`, `first + 1`, .. into the places of `run`, and keeps in each the pairs that were summed for it.
///
/// Conditions: `up` holds the multipole rows of all cells and `local` their local rows and radii, and there is a target for each place.
pub fn fill_run<const P: usize>(
    basis: &Basis<P>,
    up: &[Place<P>],
    local: &[Place<P>],
    first: usize,
    run: &mut [TargetPlace],
)
    requires up { AreAllMultipolePlaces P basis.now.points basis.now.tree up.now }
    requires local { AreAllLocalPlaces P basis.now local.now }
    requires run { first + length run.old ≤ length basis.now.targets }
    ensures len { length run.new ≡ length run.old }
    ensures made { (k : ℕ) → k < length run.old → IsMadeTarget P basis.now (first + k) (target_at run.new k) }
{
    prove!(first <= basis.targets.len());
    for k in 0..run.len() {
        run[k] = make_target(basis, up, local, first + k);
    }
}
