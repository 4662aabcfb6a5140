//! Worked examples of lists with a tree, through the top call.
use crate::ports::{SOLVE, SURE, expect};
use fmm_program::Status;
use std::alloc::Global;
use std::process::Abort;
use std::test::Fail;
use std::thread::Threads;
use test_points::{full_text, text_of};

/// The first line of the points.
const HEAD: &str = "fmm 1 field\n";

/// The order, the lines of the points, those of the targets in the report, and the last line but one.
#[derive(Clone, Copy)]
struct Tree<'a> {
    order: &'a str,
    points: [(u32, &'a str); 2],
    targets: (u32, &'a str),
    work: &'a str,
}

const TREES: [Tree<'static>; 6] = [
    // A tree of 18 cells, with a U entry.
    Tree {
        order: "8",
        points: [(8, "charge 0 0 1\n"), (1, "target 1 0\n")],
        targets: (
            1,
            "target 1 0 re 8.000000000000 8.000000000000 im 0.000000000000 0.000000000000\n",
        ),
        work: "work translations 32 pairs 8\n",
    },
    // One V entry.
    Tree {
        order: "4",
        points: [(9, "charge 0 0 1\n"), (9, "target 2 0\n")],
        targets: (
            9,
            "target 2 0 re 3.012748644177 6.268501355823 im -1.452095105823 1.803657605823\n",
        ),
        work: "work translations 33 pairs 0\n",
    },
    // One U entry, of cells beside each other, and of cells that meet at a corner on every level.
    Tree {
        order: "4",
        points: [(9, "charge 0 0 1\n"), (9, "target 1 0\n")],
        targets: (
            9,
            "target 1 0 re 9.000000000000 9.000000000000 im 0.000000000000 0.000000000000\n",
        ),
        work: "work translations 32 pairs 81\n",
    },
    Tree {
        order: "4",
        points: [(9, "charge -1 -1 1\n"), (9, "target 0 0\n")],
        targets: (
            9,
            "target 0 0 re 4.500000000000 4.500000000000 im -4.500000000000 -4.500000000000\n",
        ),
        work: "work translations 32 pairs 81\n",
    },
    // One W entry, and one X entry.
    Tree {
        order: "4",
        points: [(9, "charge 0 0 1\n"), (1, "target 8 0\n")],
        targets: (
            1,
            "target 8 0 re 1.025715944355 1.249484055645 im -0.068684055645 0.155084055645\n",
        ),
        work: "work translations 29 pairs 0\n",
    },
    Tree {
        order: "4",
        points: [(1, "charge 8 0 1\n"), (9, "target 0 0\n")],
        targets: (
            9,
            "target 0 0 re -0.138831561744 -0.113968438256 im -0.017231561744 0.007631561745\n",
        ),
        work: "work translations 29 pairs 0\n",
    },
];

/// The tree's points give its report.
fn tree_reports(
    rt: &(impl Abort + Threads + Sync),
    alloc: Global,
    tree: &Tree<'_>,
) -> Result<(), Fail> {
    let text = text_of(alloc, HEAD, &tree.points)?;
    let head = format!(in alloc; "fmm report 1 field order {} cap 8\n", tree.order)?;
    let report = text_of(alloc, &head, &[tree.targets, (1, tree.work), (1, "end\n")])?;
    let words = ["solve", tree.order, "8", "-"];
    expect(rt, alloc, &words, &text, SURE, Status::Done, &report)
}

#[test]
fn trees(rt: HostRuntime) -> Result<(), Fail> {
    for tree in &TREES {
        tree_reports(&rt, rt.alloc(), tree)?;
    }
    Ok(())
}

#[test]
fn crowded_places(rt: HostRuntime) -> Result<(), Fail> {
    let alloc = rt.alloc();
    let text = text_of(alloc, HEAD, &[(4097, "charge 0 0 1\n")])?;
    let line = b"refused depth crowded cell 16 32768 32768 points 4097\n";
    expect(&rt, alloc, &SOLVE, &text, SURE, Status::Refused, line)
}

/// As many points as a place may have, in a tree of 17 cells.
#[test]
fn the_fullest_place(rt: HostRuntime) -> Result<(), Fail> {
    let alloc = rt.alloc();
    let text = text_of(
        alloc,
        HEAD,
        &[(4095, "charge 0 0 1\n"), (1, "target 0 0\n")],
    )?;
    let report =
        b"fmm report 1 field order 8 cap 8\ntarget 0 0 re 0.000000000000 0.000000000000 im 0.000000000000 0.000000000000\nwork translations 32 pairs 0\nend\n";
    expect(&rt, alloc, &SOLVE, &text, SURE, Status::Done, report)
}

#[test]
fn many(rt: HostRuntime) -> Result<(), Fail> {
    let mut text = full_text(rt.alloc())?;
    let line = b"refused depth cells\n";
    expect(&rt, rt.alloc(), &SOLVE, &text, SURE, Status::Refused, line)?;
    text.extend_from_slice(b"target 0 0\n")?;
    let line = b"refused line 65538 many\n";
    expect(&rt, rt.alloc(), &SOLVE, &text, SURE, Status::Refused, line)
}
