//! Reports of version 2 at all orders, and at sizes that version 1 doesn't have. The numbers are those of another program.
use crate::ports::{SURE, expect, flush_fails, output_of};
use crate::reports::{Known, is_known};
use fmm_program::Status;
use std::alloc::{AllocError, Global};
use std::process::Abort;
use std::test::Fail;
use std::thread::Threads;
use test_points::text_of;

/// The first line of the points.
const HEAD: &str = "fmm 2 field\n";

/// The mode, the order, the lines of the points, and those of the report but the first.
#[derive(Clone, Copy)]
struct Solve<'a> {
    mode: &'a str,
    order: &'a str,
    points: &'a [(u32, &'a str)],
    report: &'a [(u32, &'a str)],
}

/// Poles and a dipole off the grid of version 1. Their tree has 26 cells, two U entries and one entry of each other letter.
const POLES: [(u32, &str); 5] = [
    (9, "pole 300000 -400000 3 -4\n"),
    (9, "target 300002 -400000\n"),
    (1, "target 300008 -399999\n"),
    (1, "dipole 300008 -399992 5 -7\n"),
    (1, "target 300001 -400000\n"),
];

/// The same with vortices in place of the poles.
const VORTICES: [(u32, &str); 5] = [
    (9, "vortex 300000 -400000 3\n"),
    (9, "target 300002 -400000\n"),
    (1, "target 300008 -399999\n"),
    (1, "dipole 300008 -399992 5 -7\n"),
    (1, "target 300001 -400000\n"),
];

/// Dipoles of the greatest weight that a list may have, with a U, a V and a W entry.
pub const HEAVY: [(u32, &str); 4] = [
    (512, "dipole 0 0 1048576 1048576\n"),
    (1, "target 1 0\n"),
    (9, "target 2 0\n"),
    (1, "target 8 0\n"),
];

const SOLVES: [Solve<'static>; 6] = [
    Solve {
        mode: "field",
        order: "16",
        points: &POLES,
        report: &[
            (
                9,
                "target 300002 -400000 re 13.409850401523 13.427881953784 im -18.037386833139 -18.019355280876\n",
            ),
            (
                1,
                "target 300008 -399999 re 2.667094184912 2.667286783621 im -4.703419657466 -4.703227058756\n",
            ),
            (
                1,
                "target 300001 -400000 re 26.932140733071 26.933314668172 im -36.036220142122 -36.035046207022\n",
            ),
            (1, "work translations 45 pairs 10\n"),
            (1, "end\n"),
        ],
    },
    Solve {
        mode: "field",
        order: "24",
        points: &POLES,
        report: &[
            (
                9,
                "target 300002 -400000 re 13.418728927708 13.418871160268 im -18.028471228394 -18.028328995836\n",
            ),
            (
                1,
                "target 300008 -399999 re 2.667189771507 2.667190247773 im -4.703296954694 -4.703296478428\n",
            ),
            (
                1,
                "target 300001 -400000 re 26.932725522540 26.932729877256 im -36.035635351452 -36.035630996736\n",
            ),
            (1, "work translations 45 pairs 10\n"),
            (1, "end\n"),
        ],
    },
    Solve {
        mode: "velocity",
        order: "32",
        points: &VORTICES,
        report: &[
            (
                9,
                "target 300002 -400000 u -0.081200249123 -0.081199750499 v 13.528399751005 13.528400249627\n",
            ),
            (
                1,
                "target 300008 -399999 u -0.517425431902 -0.517425431382 v 3.180219779927 3.180219780447\n",
            ),
            (
                1,
                "target 300001 -400000 u -0.067272307717 -0.067272292486 v 27.035633166478 27.035633181709\n",
            ),
            (1, "work translations 45 pairs 10\n"),
            (1, "end\n"),
        ],
    },
    Solve {
        mode: "field",
        order: "4",
        points: &HEAVY,
        report: &[
            (
                1,
                "target 1 0 re 536870912.000000000000 536870912.000000000000 im 536870912.000000000000 536870912.000000000000\n",
            ),
            (
                9,
                "target 2 0 re -1474013937.375000000000 1633397489.375000000000 im -1503374065.375000000000 1604037361.375000000000\n",
            ),
            (
                1,
                "target 8 0 re -100129102.898231250001 113443501.515831250001 im -103135580.005431250001 110437024.408631250001\n",
            ),
            (1, "work translations 44 pairs 512\n"),
            (1, "end\n"),
        ],
    },
    Solve {
        mode: "field",
        order: "32",
        points: &HEAVY,
        report: &[
            (
                1,
                "target 1 0 re 536870912.000000000000 536870912.000000000000 im 536870912.000000000000 536870912.000000000000\n",
            ),
            (
                9,
                "target 2 0 re 134217112.476253476633 134218342.728042942182 im 134217112.638248299136 134218342.890037764686\n",
            ),
            (
                1,
                "target 8 0 re 8388607.339212442437 8388608.651712442440 im 8388607.338443352748 8388608.650943352750\n",
            ),
            (1, "work translations 44 pairs 512\n"),
            (1, "end\n"),
        ],
    },
    // As many points as a place may have, in a tree of 21 cells.
    Solve {
        mode: "field",
        order: "8",
        points: &[(4095, "charge 0 0 1\n"), (1, "target 0 0\n")],
        report: &[
            (
                1,
                "target 0 0 re 0.000000000000 0.000000000000 im 0.000000000000 0.000000000000\n",
            ),
            (1, "work translations 40 pairs 0\n"),
            (1, "end\n"),
        ],
    },
];

/// The points have this report.
fn solve_reports(
    rt: &(impl Abort + Threads + Sync),
    alloc: Global,
    solve: &Solve<'_>,
) -> Result<(), Fail> {
    let head = format!(in alloc; "fmm 2 {}\n", solve.mode)?;
    let text = text_of(alloc, &head, solve.points)?;
    let first = format!(in alloc; "fmm report 1 {} order {} cap 8\n", solve.mode, solve.order)?;
    let report = text_of(alloc, &first, solve.report)?;
    let words = ["solve", solve.order, "8", "-"];
    expect(rt, alloc, &words, &text, SURE, Status::Done, &report)
}

#[test]
fn wide_reports(rt: HostRuntime) -> Result<(), Fail> {
    for solve in &SOLVES {
        solve_reports(&rt, rt.alloc(), solve)?;
    }
    Ok(())
}

/// A solve at order 4 with 8 points a leaf refuses the text with this line.
fn is_refused(
    rt: &(impl Abort + Threads + Sync),
    alloc: Global,
    text: &[u8],
    line: &str,
) -> Result<(), Fail> {
    let words = ["solve", "4", "8", "-"];
    let line = line.as_bytes();
    expect(rt, alloc, &words, text, SURE, Status::Refused, line)
}

#[test]
fn one_unit_too_heavy(rt: HostRuntime) -> Result<(), Fail> {
    let alloc = rt.alloc();
    let mut text = text_of(alloc, HEAD, &HEAVY)?;
    text.extend_from_slice(b"pole 0 0 0 -1\n")?;
    is_refused(&rt, alloc, &text, "refused line 525 strength\n")
}

/// The charges of the text are solved: so many translations, no pairs, and no line of a target.
fn has_translations(
    rt: &(impl Abort + Threads + Sync),
    alloc: Global,
    text: &[u8],
    translations: u32,
) -> Result<(), Fail> {
    let head = "fmm report 1 field order 4 cap 8\n";
    let work = format!(in alloc; "work translations {translations} pairs 0\n")?;
    let report = text_of(alloc, head, &[(1, &work), (1, "end\n")])?;
    let words = ["solve", "4", "8", "-"];
    expect(rt, alloc, &words, text, SURE, Status::Done, &report)
}

/// As many points as a list may have: as many charges at each of 32 places as a place may have.
fn longest_text(alloc: Global) -> Result<Vec<u8>, AllocError> {
    let mut text = Vec::from_slice(alloc, HEAD.as_bytes())?;
    for i in 0..32u8 {
        let charge = format!(in alloc; "charge {} 0 1\n", 32_768 * i32::from(i) - 524_288)?;
        for _ in 0..4096u16 {
            text.extend_from_slice(charge.as_bytes())?;
        }
    }
    Ok(text)
}

/// A tree of 543 cells, and one point too many.
#[test]
fn the_longest_list(rt: HostRuntime) -> Result<(), Fail> {
    let mut text = longest_text(rt.alloc())?;
    has_translations(&rt, rt.alloc(), &text, 542)?;
    text.extend_from_slice(b"target 0 0\n")?;
    is_refused(&rt, rt.alloc(), &text, "refused line 131074 many\n")
}

/// Nine charges at a place and one beside them to the east, and where it is told a further one to the east of that.
fn push_place(
    alloc: Global,
    text: &mut Vec<u8>,
    x: i32,
    y: i32,
    further: bool,
) -> Result<(), AllocError> {
    let charge = format!(in alloc; "charge {x} {y} 1\n")?;
    for _ in 0..9u8 {
        text.extend_from_slice(charge.as_bytes())?;
    }
    let east = i64::from(x) + 1;
    let charge = format!(in alloc; "charge {east} {y} 1\n")?;
    text.extend_from_slice(charge.as_bytes())?;
    if further {
        let east = i64::from(x) + 2;
        let charge = format!(in alloc; "charge {east} {y} 1\n")?;
        text.extend_from_slice(charge.as_bytes())?;
    }
    Ok(())
}

/// Such charges at 64 times 128 places, so many of them with a further one, each of which is a leaf of its own.
fn deep_text(alloc: Global, further: u16) -> Result<Vec<u8>, AllocError> {
    let mut text = Vec::from_slice(alloc, HEAD.as_bytes())?;
    for i in 0..64u8 {
        for j in 0..128u8 {
            let x = 16_384 * i32::from(i) - 524_288;
            let y = 8192 * i32::from(j) - 524_288;
            let number = 128 * u16::from(i) + u16::from(j);
            push_place(alloc, &mut text, x, y, number < further)?;
        }
    }
    Ok(text)
}

/// As many cells as a tree may have, 131,072, and one more.
#[test]
fn the_largest_tree(rt: HostRuntime) -> Result<(), Fail> {
    let text = deep_text(rt.alloc(), 2731)?;
    has_translations(&rt, rt.alloc(), &text, 131_071)?;
    let text = deep_text(rt.alloc(), 2732)?;
    is_refused(&rt, rt.alloc(), &text, "refused depth cells\n")
}

/// 280 columns of 250 places, where charges and targets alternate: 70,000 points.
fn lattice_text(alloc: Global) -> Result<Vec<u8>, AllocError> {
    let mut text = Vec::from_slice(alloc, HEAD.as_bytes())?;
    for i in 0..280u16 {
        for j in 0..250u16 {
            let x = 3700 * i32::from(i) - 520_000;
            let y = 4100 * i32::from(j) - 515_000;
            let line = if i % 2 == j % 2 {
                format!(in alloc; "charge {x} {y} 1\n")?
            } else {
                format!(in alloc; "target {x} {y}\n")?
            };
            text.extend_from_slice(line.as_bytes())?;
        }
    }
    Ok(text)
}

const LATTICE_REPORT: Known<'static> = Known {
    lines: &[
        (0, "fmm report 1 field order 8 cap 32"),
        (
            1,
            "target -520000 -510900 re -0.042681787863 -0.036330542661 im 0.034983555556 0.041334800756",
        ),
        (
            17_501,
            "target -2000 -510900 re -0.003545410484 0.003817346444 im 0.054297536049 0.061660292975",
        ),
        (
            35_000,
            "target 512300 501800 re 0.036452462912 0.042559878951 im -0.041212910166 -0.035105494128",
        ),
        (35_001, "work translations 145654 pairs 2716582"),
        (35_002, "end"),
    ],
    size: (35_003, 3_135_424),
};

#[test]
fn seventy_thousand_points(rt: HostRuntime) -> Result<(), Fail> {
    let text = lattice_text(rt.alloc())?;
    let words = ["solve", "8", "32", "-"];
    let outputs = output_of(&rt, rt.alloc(), &words, &text, SURE, Status::Done)?;
    is_known(&rt, outputs.out.held(), &LATTICE_REPORT)
}

/// Version 1 has no order 32 in either mode, and a text that is too long is refused as such.
#[test]
fn no_order(rt: HostRuntime) -> Result<(), Fail> {
    let alloc = rt.alloc();
    let words = ["solve", "32", "8", "-"];
    let head = b"fmm 1 velocity\n";
    let line = b"refused order\n";
    expect(&rt, alloc, &words, head, SURE, Status::Refused, line)?;
    flush_fails(&rt, alloc, &words, head, Status::Refused, line)?;
    let long = vec![in alloc; b'a'; 16_777_217]?;
    let line = b"refused long\n";
    expect(&rt, alloc, &words, &long, SURE, Status::Refused, line)
}
