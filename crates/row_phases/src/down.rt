//! The local rows of all cells, level by level from the root to the deepest.
ghost use Rattle.std.specs.Prelude.{◌≡◌, ℕ, ◌+◌, ◌^◌, ◌<◌, ◌≤◌, length};
ghost use Rattle.field_basis.specs.MadePlaces.{IsMadeLocal};
ghost use Rattle.field_basis.specs.Place.{place_at};
ghost use Rattle.quadtree.specs.TreeModel.{size};
ghost use Rattle.row_phases.specs.DownRuns.{IsRunBelow};
ghost use Rattle.row_phases.specs.Levels.{AreAllMadeLocal, AreAllMadeUp, AreMadeBefore};

use crate::crew::Crew;
use crate::gate::{Gate, Piece};
use crate::levels::level_count;
use downward_rows::fill_run;
use field_basis::{Basis, Place};
use std::thread;
use std::thread::Threads;

/// Fills a run of places between the two calls of the gate.
fn fill_part<const P: usize, G: Gate>(
    gate: &G,
    piece: Piece,
    basis: &Basis<P>,
    up: &[Place<P>],
    above: &[Place<P>],
    first: usize,
    run: &mut [Place<P>],
)
    requires run { IsRunBelow P basis.now up.now above.now first (length run.old) }
    ensures len { length run.new ≡ length run.old }
    ensures made { (k : ℕ) → k < length run.old → IsMadeLocal P basis.now (first + k) (place_at run.new k) }
{
    gate.enter(piece);
    fill_run(basis, up, above, first, run);
    gate.leave(piece);
}

/// Fills a run of places of one level by workers.
fn run_by_crew<const P: usize, R: Threads + Sync, G: Gate>(
    crew: &Crew<R, G>,
    basis: &Basis<P>,
    up: &[Place<P>],
    level: u8,
    above: &[Place<P>],
    first: usize,
    run: &mut [Place<P>],
)
    requires run { IsRunBelow P basis.now up.now above.now first (length run.old) }
    ensures len { length run.new ≡ length run.old }
    ensures made { (k : ℕ) → k < length run.old → IsMadeLocal P basis.now (first + k) (place_at run.new k) }
{
    if run.is_empty() {
        return;
    }
    let size = run.len().div_ceil(crew.workers as usize);
    let gate = crew.gate;
    thread::for_each_chunk_mut(
        crew.rt,
        run,
        size,
        &|start: usize, part: &mut [Place<P>]|
            requires { (IsRunBelow P basis.now up.now above.now (first + start) (length part.now)) × (first + start < 2 ^ 32) × (0 < size) }
            ensures { (k : ℕ) → k < length part.entry.now → IsMadeLocal P basis.entry.now (first + start + k) (place_at part.exit.now k) }
        {
            let piece = Piece {
                level,
                down: true,
                part: (start / size) as u32,
            };
            fill_part(gate, piece, basis, up, above, first + start, part)
        },
    );
}

/// Makes the local rows of a level on the calling thread.
fn level_alone<const P: usize>(
    basis: &Basis<P>,
    up: &[Place<P>],
    level: u8,
    places: &mut [Place<P>],
)
    requires up { AreAllMadeUp P basis.now up.now }
    requires made { AreMadeBefore P basis.now level places.old }
    ensures made { AreMadeBefore P basis.now (level + 1) places.new }
{
    let range = basis.tree.level(level);
    let (above, rest) = places.split_at_mut(range.start);
    let (run, _) = rest.split_at_mut(range.end - range.start);
    fill_run(basis, up, above, range.start, run);
}

/// Makes the local rows of a level by workers.
fn level_by_crew<const P: usize, R: Threads + Sync, G: Gate>(
    crew: &Crew<R, G>,
    basis: &Basis<P>,
    up: &[Place<P>],
    level: u8,
    places: &mut [Place<P>],
)
    requires up { AreAllMadeUp P basis.now up.now }
    requires made { AreMadeBefore P basis.now level places.old }
    ensures made { AreMadeBefore P basis.now (level + 1) places.new }
{
    let range = basis.tree.level(level);
    let (above, rest) = places.split_at_mut(range.start);
    let (run, _) = rest.split_at_mut(range.end - range.start);
    run_by_crew(crew, basis, up, level, above, range.start, run);
}

/// Makes the local rows of all cells on the calling thread, level by level from the root to the deepest, whatever rows stood in their places.
///
/// Conditions: `up` holds the multipole rows of all cells, and there is a place for each cell.
pub fn fill_down_alone<const P: usize>(basis: &Basis<P>, up: &[Place<P>], places: &mut [Place<P>])
    requires up { AreAllMadeUp P basis.now up.now }
    requires len { length places.old ≡ size basis.now.tree }
    ensures made { AreAllMadeLocal P basis.now places.new }
{
    for level in 0..level_count(&basis.tree) {
        level_alone(basis, up, level, places);
    }
}

/// Makes the local rows of all cells by workers, level by level from the root to the deepest, whatever rows stood in their places.
///
/// Conditions: as for `fill_down_alone`.
pub fn fill_down<const P: usize, R: Threads + Sync, G: Gate>(
    crew: &Crew<R, G>,
    basis: &Basis<P>,
    up: &[Place<P>],
    places: &mut [Place<P>],
)
    requires up { AreAllMadeUp P basis.now up.now }
    requires len { length places.old ≡ size basis.now.tree }
    ensures made { AreAllMadeLocal P basis.now places.new }
{
    for level in 0..level_count(&basis.tree) {
        level_by_crew(crew, basis, up, level, places);
    }
}
