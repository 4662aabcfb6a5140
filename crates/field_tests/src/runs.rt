//! Which runs a gate is told of.
ghost use Rattle.std.specs.Prelude.{◌≤◌};
ghost use Rattle.limits.specs.Limits.{most_workers};

use crate::gates::field_by;
use bumpalo::Bump;
use row_phases::{Gate, Piece};
use std::alloc::Global;
use std::process::Abort;
use std::sync::atomic::{AtomicU64, Ordering};
use std::test::Fail;
use std::thread::Threads;

/// The most runs that a phase is cut into here.
const MOST: usize = 8;

/// How often each run of each phase began and ended, how many runs came that no phase here has, how many are under way, and how many began
/// while one of another phase was.
#[derive(Drop)]
struct Told {
    begun: Vec<AtomicU64>,
    ended: Vec<AtomicU64>,
    strange: AtomicU64,
    under_way: AtomicU64,
    phase: AtomicU64,
    early: AtomicU64,
}

/// So many counts of 0.
fn counts(alloc: Global, many: usize) -> Result<Vec<AtomicU64>, Fail> {
    let mut counts = Vec::new(alloc);
    for _ in 0..many {
        counts.push(AtomicU64::new(0))?;
    }
    Ok(counts)
}

/// The number of a phase: levels 0 to 17, for multipole rows and for local rows with the targets.
fn phase_of(piece: Piece) -> usize
    ensures { result ≤ 511 }
{
    2 * usize::from(piece.level) + usize::from(piece.down)
}

impl Told {
    fn new(alloc: Global) -> Result<Told, Fail> {
        let begun = counts(alloc, 36 * MOST)?;
        let ended = counts(alloc, 36 * MOST)?;
        Ok(Told {
            begun,
            ended,
            strange: AtomicU64::new(0),
            under_way: AtomicU64::new(0),
            phase: AtomicU64::new(0),
            early: AtomicU64::new(0),
        })
    }

    /// One more of the run in these counts.
    fn raise(&self, counts: &[AtomicU64], piece: Piece) {
        let part = piece.part as usize;
        let count = if part < MOST {
            counts.get(phase_of(piece) * MOST + part)
        } else {
            None
        };
        match count {
            Some(count) => count.fetch_add(1, Ordering::SeqCst),
            None => self.strange.fetch_add(1, Ordering::SeqCst),
        };
    }

    /// How often this run began and ended.
    fn of(&self, level: u8, down: bool, part: usize) -> (u64, u64)
        requires { part ≤ 8 }
    {
        let phase = phase_of(Piece {
            level,
            down,
            part: 0,
        });
        (
            read(&self.begun, phase * MOST + part),
            read(&self.ended, phase * MOST + part),
        )
    }
}

/// The count of a number; 0 where there is none.
fn read(counts: &[AtomicU64], k: usize) -> u64 {
    match counts.get(k) {
        Some(count) => count.load(Ordering::SeqCst),
        None => 0,
    }
}

impl Gate for Told {
    fn enter(&self, piece: Piece) {
        let phase = phase_of(piece) as u64;
        if self.under_way.load(Ordering::SeqCst) > 0 && self.phase.load(Ordering::SeqCst) != phase {
            self.early.fetch_add(1, Ordering::SeqCst);
        }
        // first the phase: a run that finds one under way has to find its phase too
        self.phase.store(phase, Ordering::SeqCst);
        self.under_way.fetch_add(1, Ordering::SeqCst);
        self.raise(&self.begun, piece);
    }

    fn leave(&self, piece: Piece) {
        self.raise(&self.ended, piece);
        self.under_way.fetch_sub(1, Ordering::SeqCst);
    }
}

/// Nine charges and a target at five places. Level 0 has one cell, level 1 three, and each level from 2 to 16 five.
const FIVE_PLACES: [(u32, &str); 10] = [
    (9, "charge -32768 -32768 1\n"),
    (1, "target -32768 -32768\n"),
    (9, "charge -16384 -32768 1\n"),
    (1, "target -16384 -32768\n"),
    (9, "charge 0 -32768 1\n"),
    (1, "target 0 -32768\n"),
    (9, "charge 16384 -32768 1\n"),
    (1, "target 16384 -32768\n"),
    (9, "charge -32768 0 1\n"),
    (1, "target -32768 0\n"),
];

/// Into how many runs phases of one, of three and of five places are cut.
#[derive(Clone, Copy)]
struct Runs {
    one: usize,
    three: usize,
    five: usize,
}

/// So many runs of a phase came, each once, and no other.
fn came(rt: &impl Abort, told: &Told, level: u8, down: bool, runs: usize) {
    for part in 0..MOST {
        let times = u64::from(part < runs);
        assert!(rt; told.of(level, down, part) == (times, times));
    }
}

/// The runs of both phases of a level came.
fn level_came(rt: &impl Abort, told: &Told, level: u8, runs: usize) {
    came(rt, told, level, false, runs);
    came(rt, told, level, true, runs);
}

/// The runs of all phases came, each phase after the one before it had ended.
fn all_came(rt: &impl Abort, told: &Told, runs: Runs) {
    level_came(rt, told, 0, runs.one);
    level_came(rt, told, 1, runs.three);
    for level in 2..17u8 {
        level_came(rt, told, level, runs.five);
    }
    came(rt, told, 17, false, 0);
    came(rt, told, 17, true, runs.five);
    assert!(rt; told.strange.load(Ordering::SeqCst) == 0);
    assert!(rt; told.early.load(Ordering::SeqCst) == 0);
}

/// A solve of the five places by so many workers tells the gate of so many runs.
fn tells<R: Abort + Threads + Sync>(
    rt: &R,
    alloc: Global,
    workers: u32,
    runs: Runs,
) -> Result<(), Fail>
    requires least { 1 ≤ workers }
    requires most { workers ≤ most_workers }
{
    let told = Told::new(alloc)?;
    let arena = Bump::new(alloc);
    let _ = field_by(rt, alloc, &FIVE_PLACES, workers, &told, &arena)?;
    all_came(rt, &told, runs);
    Ok(())
}

#[test]
fn each_run_is_told(rt: HostRuntime) -> Result<(), Fail> {
    let alloc = rt.alloc();
    tells(
        &rt,
        alloc,
        1,
        Runs {
            one: 1,
            three: 1,
            five: 1,
        },
    )?;
    tells(
        &rt,
        alloc,
        2,
        Runs {
            one: 1,
            three: 2,
            five: 2,
        },
    )?;
    tells(
        &rt,
        alloc,
        3,
        Runs {
            one: 1,
            three: 3,
            five: 3,
        },
    )?;
    tells(
        &rt,
        alloc,
        4,
        Runs {
            one: 1,
            three: 3,
            five: 3,
        },
    )?;
    tells(
        &rt,
        alloc,
        64,
        Runs {
            one: 1,
            three: 3,
            five: 5,
        },
    )
}
