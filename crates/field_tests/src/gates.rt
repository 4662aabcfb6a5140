//! A solve by two workers, two of whose runs are under way at once.
ghost use Rattle.std.specs.Prelude.{◌≤◌};
ghost use Rattle.limits.specs.Limits.{most_workers};

use crate::compare::{Known, is_known};
use bumpalo::Bump;
use limits::FIRST_GRID;
use row_phases::{Gate, Piece};
use solve_phase::{Field, solve};
use std::alloc::Global;
use std::process::Abort;
use std::sync::atomic::{AtomicU64, Ordering};
use std::test::Fail;
use std::thread::Threads;
use test_points::points_of;

/// How often a run began and ended.
#[derive(Drop)]
struct Visits {
    entered: AtomicU64,
    left: AtomicU64,
}

impl Visits {
    fn none() -> Visits {
        Visits {
            entered: AtomicU64::new(0),
            left: AtomicU64::new(0),
        }
    }

    fn enter(&self) {
        self.entered.fetch_add(1, Ordering::SeqCst);
    }

    fn leave(&self) {
        self.left.fetch_add(1, Ordering::SeqCst);
    }

    fn has_begun(&self) -> bool {
        self.entered.load(Ordering::SeqCst) > 0
    }

    fn counts(&self) -> (u64, u64) {
        (
            self.entered.load(Ordering::SeqCst),
            self.left.load(Ordering::SeqCst),
        )
    }
}

/// Holds the first run of the multipole rows of the deepest level until the second has begun, for so many turns, and counts the runs of the
/// targets.
#[derive(Drop)]
struct Meeting {
    first: Visits,
    second: Visits,
    targets: Visits,
    given_up: AtomicU64,
}

impl Meeting {
    fn new() -> Meeting {
        Meeting {
            first: Visits::none(),
            second: Visits::none(),
            targets: Visits::none(),
            given_up: AtomicU64::new(0),
        }
    }

    /// The visits of this run, where it is one of the two, or a run of the targets.
    fn visits(&self, piece: Piece) -> Option<&Visits> {
        if piece.down && piece.level == FIRST_GRID + 1 {
            return Some(&self.targets);
        }
        if piece.down || piece.level != FIRST_GRID {
            return None;
        }
        match piece.part {
            0 => Some(&self.first),
            1 => Some(&self.second),
            _ => None,
        }
    }

    fn wait_for_the_second(&self) {
        for _ in 0..1_000_000_000u64 {
            if self.second.has_begun() {
                return;
            }
        }
        self.given_up.fetch_add(1, Ordering::SeqCst);
    }
}

impl Gate for Meeting {
    fn enter(&self, piece: Piece) {
        let Some(visits) = self.visits(piece) else {
            return;
        };
        visits.enter();
        if piece.part == 0 && !piece.down {
            self.wait_for_the_second();
        }
    }

    fn leave(&self, piece: Piece) {
        if let Some(visits) = self.visits(piece) {
            visits.leave();
        }
    }
}

/// Two cells on the deepest level: one of eight charges, and one of a target beside them.
const TWO_CELLS: Known = Known {
    lines: &[(8, "charge 0 0 1\n"), (1, "target 1 0\n")],
    cells: 18,
    translations: 32,
    pairs: 8,
    targets: 1,
    ends: ((8_796_093_022_208, 8_796_093_022_208), (0, 0)),
};

/// The field of these lines at order 8 and capacity 8, by workers. Condition: 1 to 64 of them.
pub fn field_by<'a, R: Threads + Sync, G: Gate>(
    rt: &R,
    alloc: Global,
    lines: &[(u32, &str)],
    workers: u32,
    gate: &G,
    arena: &'a Bump,
) -> Result<Field<'a, 8>, Fail>
    requires least { 1 ≤ workers }
    requires most { workers ≤ most_workers }
{
    let points = points_of(alloc, lines)?;
    Ok(solve::<8, R, G>(rt, alloc, &points, 8, workers, gate, arena)?)
}

/// Each of the two runs, and that of the targets, began once and ended once, and no run gave up waiting.
fn all_came(rt: &impl Abort, gate: &Meeting) {
    assert_eq!(rt; gate.first.counts(), (1, 1));
    assert_eq!(rt; gate.second.counts(), (1, 1));
    assert_eq!(rt; gate.targets.counts(), (1, 1));
    assert_eq!(rt; gate.given_up.load(Ordering::SeqCst), 0);
}

#[test]
fn two_workers_meet(rt: HostRuntime) -> Result<(), Fail> {
    let gate = Meeting::new();
    let arena = Bump::new(rt.alloc());
    let field = field_by(&rt, rt.alloc(), TWO_CELLS.lines, 2, &gate, &arena)?;
    all_came(&rt, &gate);
    is_known(&rt, &field, &TWO_CELLS);
    Ok(())
}
