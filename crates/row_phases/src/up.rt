//! The multipole rows of all cells, level by level from the deepest to the root.
ghost use Rattle.std.specs.Prelude.{◌≡◌, ℕ, ◌+◌, ◌<◌, ◌^◌, length};
ghost use Rattle.field_basis.specs.MadePlaces.{IsMadeUp};
ghost use Rattle.field_basis.specs.Place.{place_at};
ghost use Rattle.quadtree.specs.TreeModel.{size};
ghost use Rattle.row_phases.specs.Levels.{AreAllMadeUp, AreMadeFrom};
ghost use Rattle.row_phases.specs.UpRuns.{IsRunAbove};

use crate::crew::Crew;
use crate::gate::{Gate, Piece};
use crate::levels::level_count;
use field_basis::{Basis, Place};
use std::thread;
use std::thread::Threads;

/// Makes the rows of the cells `first`, `first + 1`, .. in the places of `run`.
fn run_alone<const P: usize>(
    basis: &Basis<P>,
    behind: &[Place<P>],
    first: usize,
    run: &mut [Place<P>],
)
    requires run { IsRunAbove P basis.now behind.now first (length run.old) }
    ensures { (k : ℕ) → k < length run.old → IsMadeUp P basis.now.points basis.now.tree (first + k) (place_at run.new k) }
{
    upward_rows::fill_run(&basis.tree, &basis.points, behind, first, run);
}

/// Makes the rows of a part of a run, and tells the gate when it begins and when it has ended.
fn fill_part<const P: usize, G: Gate>(
    gate: &G,
    piece: Piece,
    basis: &Basis<P>,
    behind: &[Place<P>],
    first: usize,
    part: &mut [Place<P>],
)
    requires run { IsRunAbove P basis.now behind.now first (length part.old) }
    ensures { (k : ℕ) → k < length part.old → IsMadeUp P basis.now.points basis.now.tree (first + k) (place_at part.new k) }
{
    gate.enter(piece);
    run_alone(basis, behind, first, part);
    gate.leave(piece);
}

/// Makes the rows of the cells `first`, `first + 1`, .. of a level in the places of `run`, by workers.
fn run_by_crew<const P: usize, R: Threads + Sync, G: Gate>(
    crew: &Crew<R, G>,
    basis: &Basis<P>,
    level: u8,
    behind: &[Place<P>],
    first: usize,
    run: &mut [Place<P>],
)
    requires run { IsRunAbove P basis.now behind.now first (length run.old) }
    requires few { first + length run.old < 2 ^ 32 }
    ensures { (k : ℕ) → k < length run.old → IsMadeUp P basis.now.points basis.now.tree (first + k) (place_at run.new k) }
{
    if run.is_empty() {
        return;
    }
    let size = run.len().div_ceil(crew.workers as usize);
    let gate = crew.gate;
    thread::for_each_chunk_mut(
        crew.rt,
        run,
        size,
        &|start: usize, part: &mut [Place<P>]|
            requires { (IsRunAbove P basis.now behind.now (first + start) (length part.now)) × (first + start < 2 ^ 32) × (0 < size) }
            ensures { (k : ℕ) → k < length part.entry.now → IsMadeUp P basis.entry.now.points basis.entry.now.tree (first + start + k) (place_at part.exit.now k) }
        {
            let piece = Piece {
                level,
                down: false,
                part: (start / size) as u32,
            };
            fill_part(gate, piece, basis, behind, first + start, part)
        },
    );
}

/// Makes the rows of a level on the calling thread.
fn level_alone<const P: usize>(basis: &Basis<P>, level: u8, places: &mut [Place<P>])
    requires made { AreMadeFrom P basis.now (level + 1) places.old }
    ensures made { AreMadeFrom P basis.now level places.new }
{
    let range = basis.tree.level(level);
    let (front, behind) = places.split_at_mut(range.end);
    let (_, run) = front.split_at_mut(range.start);
    run_alone(basis, behind, range.start, run);
}

/// Makes the rows of a level by workers.
fn level_by_crew<const P: usize, R: Threads + Sync, G: Gate>(
    crew: &Crew<R, G>,
    basis: &Basis<P>,
    level: u8,
    places: &mut [Place<P>],
)
    requires made { AreMadeFrom P basis.now (level + 1) places.old }
    ensures made { AreMadeFrom P basis.now level places.new }
{
    let range = basis.tree.level(level);
    let (front, behind) = places.split_at_mut(range.end);
    let (_, run) = front.split_at_mut(range.start);
    run_by_crew(crew, basis, level, behind, range.start, run);
}

/// Makes the multipole rows of all cells on the calling thread, level by level from the deepest to the root, whatever stood in their places, and keeps in each
/// how many rows were shifted into it.
///
/// Condition: there is a place for each cell.
pub fn fill_up_alone<const P: usize>(basis: &Basis<P>, places: &mut [Place<P>])
    requires len { length places.old ≡ size basis.now.tree }
    ensures made { AreAllMadeUp P basis.now places.new }
{
    for level in (0..level_count(&basis.tree)).rev() {
        level_alone(basis, level, places);
    }
}

/// Makes the multipole rows of all cells by workers, as `fill_up_alone` does, and under its condition.
pub fn fill_up<const P: usize, R: Threads + Sync, G: Gate>(
    crew: &Crew<R, G>,
    basis: &Basis<P>,
    places: &mut [Place<P>],
)
    requires len { length places.old ≡ size basis.now.tree }
    ensures made { AreAllMadeUp P basis.now places.new }
{
    for level in (0..level_count(&basis.tree)).rev() {
        level_by_crew(crew, basis, level, places);
    }
}
