//! Printed intervals and the bound on their widths: with `n` sources of the weight `S`, the tail `T` of two cells and the smallest side
//! `s`, at order `P`, `s` times what lies between two printed counts is at most `2 S T + 6 P^2 S + 30 P^4 n + 64 P^2 + s (6 n + 6)`.
use crate::ports::{SURE, output_of};
use crate::readback::count_of;
use crate::wide::HEAVY;
use fmm_program::Status;
use std::alloc::Global;
use std::process::Abort;
use std::test::Fail;
use std::thread::Threads;
use test_points::text_of;

/// The first line, the order, the lines of the points, how many targets there are, what the widest interval is at least, the smallest
/// side and the bound; and whether the bound is at most 1.1 times the widest interval, so that another side or weight would be seen.
#[derive(Clone, Copy)]
struct Bounded<'a> {
    head: &'a str,
    order: &'a str,
    points: &'a [(u32, &'a str)],
    targets: usize,
    least: i128,
    side: i128,
    bound: i128,
    tight: bool,
}

/// As many points as a list may have, as heavy as it may be: 65,527 charges at 16 places around nine targets, in V entries of cells of
/// a single place, where the most is cut off.
const FULL: [(u32, &str); 18] = [
    (9, "target 0 0\n"),
    (4096, "charge 2 -2 65536\n"),
    (4096, "charge 2 -1 65536\n"),
    (4096, "charge 2 0 65536\n"),
    (4096, "charge 2 1 65536\n"),
    (4096, "charge 2 2 65536\n"),
    (4096, "charge 2 3 65536\n"),
    (4096, "charge 3 -2 65536\n"),
    (4096, "charge 3 -1 65536\n"),
    (4096, "charge 3 0 65536\n"),
    (4096, "charge 3 1 65536\n"),
    (4096, "charge 3 2 65536\n"),
    (4096, "charge 3 3 65536\n"),
    (4096, "charge -2 0 65536\n"),
    (4096, "charge -2 1 65536\n"),
    (4096, "charge -2 2 65536\n"),
    (4086, "charge -2 3 65536\n"),
    (1, "charge -2 3 655360\n"),
];

/// From 2^41 on, 4, 8 and 32 times 17/31 rounded up: the tail is 198874331312 at order 4, 17985712319 at 8 and 9842 at 32. How wide the
/// widest interval is follows from the reports of another program, and in the last case from what is cut off.
const BOUNDED: [Bounded<'static>; 6] = [
    // One V entry. 3579737963616 for what is cut off, then 864, 69120, 1024 and 60.
    Bounded {
        head: "fmm 1 field\n",
        order: "4",
        points: &[(9, "charge 0 0 1\n"), (9, "target 2 0\n")],
        targets: 9,
        least: 3_255_752_711_646,
        side: 1,
        bound: 3_579_738_034_684,
        tight: true,
    },
    // One W entry of a cell of side 4; the charges go down to a single place, so the bound is the same.
    Bounded {
        head: "fmm 1 field\n",
        order: "4",
        points: &[(9, "charge 0 0 1\n"), (1, "target 8 0\n")],
        targets: 1,
        least: 223_768_111_290,
        side: 1,
        bound: 3_579_738_034_684,
        tight: false,
    },
    // Charges that cancel, in one leaf. The bound doesn't see that nothing is cut off: 75437545122430976 for that, then 805306368,
    // 245760, 4096 and 1179648.
    Bounded {
        head: "fmm 1 field\n",
        order: "8",
        points: &[
            (1, "charge 0 0 1048576\n"),
            (1, "charge 1 0 -1048576\n"),
            (1, "target 100 0\n"),
        ],
        targets: 1,
        least: 3,
        side: 65_536,
        bound: 75_437_545_929_166_848,
        tight: false,
    },
    // Of the weight 2^32. 1708317497997817544704 for what is cut off, then 412316860416, 503247360, 1024 and 393168. What is cut off
    // widens the box by 2 S T units of 2^-40.
    Bounded {
        head: "fmm 1 field\n",
        order: "4",
        points: &FULL,
        targets: 9,
        least: 1_553_705_713_375_000_000_000,
        side: 1,
        bound: 1_708_317_498_410_638_046_672,
        tight: true,
    },
    // Dipoles of the weight 2^36, with a U, a V and a W entry. 1352674180071424 for what is cut off, then 422212465065984, 16106127360,
    // 65536 and 3078.
    Bounded {
        head: "fmm 2 field\n",
        order: "32",
        points: &HEAVY,
        targets: 11,
        least: 1_230_251_789_465_550,
        side: 1,
        bound: 1_774_902_751_333_382,
        tight: false,
    },
    // Vortices and a dipole in two cells of side 4, with a V entry of each to both cells of the targets, which have the side 4 too. The
    // dipole weighs 16 times 7 and the vortices 5 each, so S is 152; n is 9. 5467656544976 for what is cut off, then 58368, 1105920, 4096
    // and 4 times 60. What is cut off widens the box by 2 S T/4 units, which are 1243201164692 counts.
    Bounded {
        head: "fmm 1 velocity\n",
        order: "8",
        points: &[
            (8, "vortex 0 0 5\n"),
            (1, "dipole 2 6 3 -4\n"),
            (8, "target 8 1\n"),
            (1, "target 9 5\n"),
        ],
        targets: 9,
        least: 1_243_201_164_692,
        side: 4,
        bound: 5_467_657_713_600,
        tight: true,
    },
];

/// What lies between the counts of the word of this number and of the next, in the line of a target.
fn apart(line: &str, word: usize) -> Option<i128> {
    let mut words = line.split(' ').skip(word);
    let lower = count_of(words.next()?);
    let upper = count_of(words.next()?);
    Some(upper.saturating_sub(lower))
}

/// The widest interval of a target's line, or of those before it.
fn wider(widest: i128, line: &str) -> i128 {
    let first = apart(line, 4).unwrap_or(i128::MAX);
    let second = apart(line, 7).unwrap_or(i128::MAX);
    widest.max(first).max(second)
}

/// A solve with 8 points a leaf prints a line for each target, and the widest interval is no wider than the bound.
fn is_bounded(
    rt: &(impl Abort + Threads + Sync),
    alloc: Global,
    case: &Bounded<'_>,
) -> Result<(), Fail> {
    let text = text_of(alloc, case.head, case.points)?;
    let words = ["solve", case.order, "8", "-"];
    let outputs = output_of(rt, alloc, &words, &text, SURE, Status::Done)?;
    let report = str::from_utf8(outputs.out.held())?;
    let mut targets: usize = 0;
    let mut widest: i128 = 0;
    for line in report.lines() {
        if line.starts_with("target ") {
            targets = targets.saturating_add(1);
            widest = wider(widest, line);
        }
    }
    assert_eq!(rt; targets, case.targets);
    assert!(rt; case.least <= widest);
    let scaled = widest.saturating_mul(case.side);
    assert!(rt; scaled <= case.bound);
    if case.tight {
        assert!(rt; case.bound.saturating_mul(10) <= scaled.saturating_mul(11));
    }
    Ok(())
}

#[test]
fn widths(rt: HostRuntime) -> Result<(), Fail> {
    for case in &BOUNDED {
        is_bounded(&rt, rt.alloc(), case)?;
    }
    Ok(())
}
