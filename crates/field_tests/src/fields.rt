//! Fields whose numbers are known from elsewhere: one entry far away of each kind.
use crate::compare::{Known, NINE_CHARGES, field_of, is_known};
use bumpalo::Bump;
use letters::Letter;
use solve_phase::Field;
use std::alloc::Global;
use std::process::Abort;
use std::test::Fail;

/// A field with one entry, which is of this letter, and the greatest radius of its rows.
struct Entry {
    letter: Letter,
    known: Known,
    radius: i128,
}

/// The greatest radius of a row.
fn greatest_radius(field: &Field<4>) -> i128 {
    let mut greatest = 0i128;
    for n in 0..field.tree().cells().len() {
        greatest = greatest.max(field.radius(n));
    }
    greatest
}

const PAIR_RADIUS: i128 = 1_789_868_981_808;

const TARGET_RADIUS: i128 = 123_017_820_143;

const SOURCE_RADIUS: i128 = 13_668_646_683;

/// A box is the value, which is exact or between two whole numbers, widened by the radius.
const ENTRIES: [Entry; 3] = [
    // nine charges and nine targets two places to the east, at order 4
    Entry {
        letter: Letter::V,
        known: Known {
            lines: &[NINE_CHARGES, (9, "target 2 0\n")],
            cells: 19,
            translations: 33,
            pairs: 0,
            targets: 9,
            ends: (
                (
                    5_102_421_147_648 - PAIR_RADIUS,
                    5_102_421_147_648 + PAIR_RADIUS,
                ),
                (193_273_528_320 - PAIR_RADIUS, 193_273_528_320 + PAIR_RADIUS),
            ),
        },
        radius: PAIR_RADIUS,
    },
    // nine charges and a target eight places to the east: the radius is the target's alone
    Entry {
        letter: Letter::W,
        known: Known {
            lines: &[NINE_CHARGES, (1, "target 8 0\n")],
            cells: 18,
            translations: 29,
            pairs: 0,
            targets: 1,
            ends: (
                (
                    1_250_804_427_757 - TARGET_RADIUS,
                    1_250_804_427_759 + TARGET_RADIUS,
                ),
                (
                    47_498_902_319 - TARGET_RADIUS,
                    47_498_902_321 + TARGET_RADIUS,
                ),
            ),
        },
        radius: 0,
    },
    // the other way round
    Entry {
        letter: Letter::X,
        known: Known {
            lines: &[(1, "charge 8 0 1\n"), (9, "target 0 0\n")],
            cells: 18,
            translations: 29,
            pairs: 0,
            targets: 9,
            ends: (
                (
                    -138_978_269_756 - SOURCE_RADIUS,
                    -138_978_269_745 + SOURCE_RADIUS,
                ),
                (
                    -5_277_655_819 - SOURCE_RADIUS,
                    -5_277_655_807 + SOURCE_RADIUS,
                ),
            ),
        },
        radius: SOURCE_RADIUS,
    },
];

/// The field has this entry alone.
fn entry_is(rt: &impl Abort, field: &Field<4>, entry: &Entry) {
    assert_eq!(rt; field.lists().total(entry.letter), 1);
    is_known(rt, field, &entry.known);
    assert_eq!(rt; greatest_radius(field), entry.radius);
}

/// The field of the entry's lines has it alone.
fn is_alone(rt: &impl Abort, alloc: Global, entry: &Entry) -> Result<(), Fail> {
    let arena = Bump::new(alloc);
    let field = field_of(alloc, entry.known.lines, &arena)?;
    entry_is(rt, &field, entry);
    Ok(())
}

fn are_alone(rt: &impl Abort, alloc: Global, entries: &[Entry]) -> Result<(), Fail> {
    for entry in entries {
        is_alone(rt, alloc, entry)?;
    }
    Ok(())
}

#[test]
fn one_entry_far_away(rt: HostRuntime) -> Result<(), Fail> {
    are_alone(&rt, rt.alloc(), &ENTRIES)
}
