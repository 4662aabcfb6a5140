//! Two workers of one level are under way at once, and a sample is cut for as many as its words say.
use crate::ports::{SOLVE, SURE, gated_output, output_of};
use fmm_program::Status;
use limits::FIRST_GRID;
use row_phases::{Gate, Piece};
use std::sync::atomic::{AtomicU64, Ordering};
use std::test::Fail;

/// How often a part began and ended.
#[derive(Drop)]
struct Visits {
    entered: AtomicU64,
    left: AtomicU64,
}

impl Visits {
    fn none() -> Visits {
        Visits {
            entered: AtomicU64::new(0),
            left: AtomicU64::new(0),
        }
    }

    fn enter(&self) {
        self.entered.fetch_add(1, Ordering::SeqCst);
    }

    fn leave(&self) {
        self.left.fetch_add(1, Ordering::SeqCst);
    }

    fn has_begun(&self) -> bool {
        self.entered.load(Ordering::SeqCst) > 0
    }

    fn counts(&self) -> (u64, u64) {
        (
            self.entered.load(Ordering::SeqCst),
            self.left.load(Ordering::SeqCst),
        )
    }
}

/// Holds the first part of the multipole rows of the deepest level until the second has begun, for so many turns.
#[derive(Drop)]
struct Meeting {
    first: Visits,
    second: Visits,
    given_up: AtomicU64,
}

impl Meeting {
    /// The visits of this part, where it is one of the two.
    fn visits(&self, piece: Piece) -> Option<&Visits> {
        if piece.level != FIRST_GRID || piece.down {
            return None;
        }
        match piece.part {
            0 => Some(&self.first),
            1 => Some(&self.second),
            _ => None,
        }
    }

    fn wait_for_the_second(&self) {
        for _ in 0..1_000_000_000u64 {
            if self.second.has_begun() {
                return;
            }
        }
        self.given_up.fetch_add(1, Ordering::SeqCst);
    }
}

impl Gate for Meeting {
    fn enter(&self, piece: Piece) {
        let Some(visits) = self.visits(piece) else {
            return;
        };
        visits.enter();
        if piece.part == 0 {
            self.wait_for_the_second();
        }
    }

    fn leave(&self, piece: Piece) {
        if let Some(visits) = self.visits(piece) {
            visits.leave();
        }
    }
}

/// Two cells on the deepest level: one of eight charges, and one of a target beside them.
const TWO_CELLS: &[u8] =
    b"fmm 1 field\ncharge 0 0 1\ncharge 0 0 1\ncharge 0 0 1\ncharge 0 0 1\ncharge 0 0 1\ncharge 0 0 1\ncharge 0 0 1\ncharge 0 0 1\ntarget 1 0\n";

#[test]
fn two_workers_meet(rt: HostRuntime) -> Result<(), Fail> {
    let alloc = rt.alloc();
    let gate = Meeting {
        first: Visits::none(),
        second: Visits::none(),
        given_up: AtomicU64::new(0),
    };
    let words = ["solve", "8", "8", "-", "2"];
    let by_two = gated_output(&rt, alloc, &words, TWO_CELLS, SURE, Status::Done, &gate)?;
    assert_eq!(rt; gate.first.counts(), (1, 1));
    assert_eq!(rt; gate.second.counts(), (1, 1));
    assert_eq!(rt; gate.given_up.load(Ordering::SeqCst), 0);
    let by_one = output_of(&rt, alloc, &SOLVE, TWO_CELLS, SURE, Status::Done)?;
    by_two.hold(&rt, by_one.out.held(), by_one.cert.held());
    Ok(())
}

/// How many runs began that are the second of their phase.
#[derive(Drop)]
struct Seconds {
    begun: AtomicU64,
}

impl Gate for Seconds {
    fn enter(&self, piece: Piece) {
        if piece.part == 1 {
            self.begun.fetch_add(1, Ordering::SeqCst);
        }
    }

    fn leave(&self, _piece: Piece) {}
}

#[test]
fn samples_are_cut(rt: HostRuntime) -> Result<(), Fail> {
    for (workers, is_cut) in [("1", false), ("2", true)] {
        let gate = Seconds {
            begun: AtomicU64::new(0),
        };
        let words = ["sample", "1", "500", "4", "8", workers];
        let outputs = gated_output(&rt, rt.alloc(), &words, b"", SURE, Status::Done, &gate)?;
        assert_eq!(rt; outputs.cert.held(), b"".as_slice());
        assert_eq!(rt; gate.begun.load(Ordering::SeqCst) > 0, is_cut);
    }
    Ok(())
}
