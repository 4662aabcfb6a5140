//! The boxes of the targets.
ghost use Rattle.std.specs.Prelude.{◌≡◌, ℕ, ◌+◌, ◌/◌, ◌<◌, ◌≤◌, true, length};
ghost use Rattle.field_basis.specs.MadePlaces.{IsMadeTarget};
ghost use Rattle.field_basis.specs.Target.{target_at};
ghost use Rattle.quadtree.specs.TreeModel.{size, square_of};
ghost use Rattle.row_phases.specs.Levels.{AreAllMadeLocal, AreAllMadeTargets, AreAllMadeUp};

use crate::crew::Crew;
use crate::gate::{Gate, Piece};
use crate::levels::level_count;
use field_basis::{Basis, Place, TargetPlace};
use std::thread;
use std::thread::Threads;
use target_values::fill_run;

/// Writes the box of each target on the calling thread.
///
/// Conditions: the rows of all cells are made in `up` and `local`, and there is a place for each target.
pub fn fill_targets_alone<const P: usize>(
    basis: &Basis<P>,
    up: &[Place<P>],
    local: &[Place<P>],
    places: &mut [TargetPlace],
)
    requires up { AreAllMadeUp P basis.now up.now }
    requires local { AreAllMadeLocal P basis.now local.now }
    requires len { length places.old ≡ length basis.now.targets }
    ensures made { AreAllMadeTargets P basis.now places.new }
{
    fill_run(basis, up, local, 0, places);
}

/// The run of `count` targets, or fewer where there are no more, that begins at the target `start`, as the gate is told of it.
fn piece_at<const P: usize>(basis: &Basis<P>, start: usize, count: usize) -> Piece
    requires start { start < length basis.now.targets }
    requires count { 0 < count }
    ensures level { (n : ℕ) → n < size basis.now.tree → (square_of basis.now.tree n).level < result.level }
    ensures down { result.down ≡ true }
    ensures part { result.part ≡ start / count }
{
    Piece {
        level: level_count(&basis.tree),
        down: true,
        part: (start / count) as u32,
    }
}

/// Writes the boxes of the targets from `start` on into the places of `run`, and tells the gate when it begins and when it has ended.
fn fill_part<const P: usize, G: Gate>(
    gate: &G,
    piece: Piece,
    basis: &Basis<P>,
    up: &[Place<P>],
    local: &[Place<P>],
    start: usize,
    run: &mut [TargetPlace],
)
    requires up { AreAllMadeUp P basis.now up.now }
    requires local { AreAllMadeLocal P basis.now local.now }
    requires run { start + length run.old ≤ length basis.now.targets }
    ensures { (k : ℕ) → k < length run.old → IsMadeTarget P basis.now (start + k) (target_at run.new k) }
{
    gate.enter(piece);
    fill_run(basis, up, local, start, run);
    gate.leave(piece);
}

/// Writes the box of each target, by the workers of a crew.
///
/// Conditions: the rows of all cells are made in `up` and `local`, and there is a place for each target.
pub fn fill_targets<const P: usize, R: Threads + Sync, G: Gate>(
    crew: &Crew<R, G>,
    basis: &Basis<P>,
    up: &[Place<P>],
    local: &[Place<P>],
    places: &mut [TargetPlace],
)
    requires up { AreAllMadeUp P basis.now up.now }
    requires local { AreAllMadeLocal P basis.now local.now }
    requires len { length places.old ≡ length basis.now.targets }
    ensures made { AreAllMadeTargets P basis.now places.new }
{
    if places.is_empty() {
        return;
    }
    let size = places.len().div_ceil(crew.workers as usize);
    let gate = crew.gate;
    thread::for_each_chunk_mut(
        crew.rt,
        places,
        size,
        &|start: usize, run: &mut [TargetPlace]|
            requires up { AreAllMadeUp P basis.now up.now }
            requires local { AreAllMadeLocal P basis.now local.now }
            requires run { start + length run.now ≤ length basis.now.targets }
            requires some { 0 < length run.now }
            requires size { 0 < size }
            ensures { (k : ℕ) → k < length run.entry.now → IsMadeTarget P basis.entry.now (start + k) (target_at run.exit.now k) }
        {
            let piece = piece_at(basis, start, size);
            fill_part(gate, piece, basis, up, local, start, run)
        },
    );
}
