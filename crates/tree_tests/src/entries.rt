//! Lists worked by hand, of two places each.
ghost use Rattle.cell_lists.specs.Lists.{AreLists};

use crate::known::tree_of;
use cell_lists::{EntryLists, first_apart, lists};
use cell_name::Cell;
use letters::Letter;
use quadtree::Tree;
use std::alloc::Global;
use std::process::Abort;
use std::test::Fail;

/// What the tree of some lines at capacity 8 has.
struct Case {
    /// The lines, each so many times.
    lines: &'static [(u32, &'static str)],
    /// How many cells.
    count: usize,
    /// How many entries of each letter.
    totals: [u64; 4],
    /// A cell.
    cell: usize,
    /// Its four lists.
    lists: [&'static [u32]; 4],
    /// Two leaves.
    leaves: (usize, usize),
    /// The letter of their entry.
    letter: Letter,
    /// The cells of their entry.
    cells: (usize, usize),
}

/// How many cells the tree has, and how many entries of each letter.
fn totals_are(rt: &impl Abort, tree: &Tree, found: &EntryLists, case: &Case) {
    let totals = [
        found.total(Letter::U),
        found.total(Letter::V),
        found.total(Letter::W),
        found.total(Letter::X),
    ];
    assert_eq!(rt; (tree.cells().len(), totals), (case.count, case.totals));
}

/// The four lists of the cell.
fn lists_are(rt: &impl Abort, tree: &Tree, found: &EntryLists, case: &Case)
    requires { AreLists tree.now found.now }
{
    let count = tree.cells().len();
    let b = case.cell;
    assert!(rt; b < count);
    assert_eq!(rt;
        [
            found.u_list(b),
            found.v_list(b),
            found.w_list(b),
            found.x_list(b)
        ],
        case.lists
    );
}

/// The entry of the two leaves has this letter and these cells.
fn entry_is(rt: &impl Abort, tree: &Tree, case: &Case) {
    let count = tree.cells().len();
    let (b, c) = case.leaves;
    assert!(rt; b < count);
    assert!(rt; c < count);
    assert!(rt; tree.is_leaf(b));
    assert!(rt; tree.is_leaf(c));
    assert!(rt; tree.has_target(b));
    assert!(rt; tree.has_source(c));
    let entry = first_apart(tree, b, c);
    assert_eq!(rt;
        (entry.letter, (entry.b, entry.c)),
        (case.letter, case.cells)
    );
}

fn lists_hold(rt: &impl Abort, alloc: Global, tree: &Tree, case: &Case) -> Result<(), Fail> {
    let found = lists(alloc, tree)?;
    totals_are(rt, tree, &found, case);
    lists_are(rt, tree, &found, case);
    Ok(())
}

fn each_holds(rt: &impl Abort, alloc: Global, cases: &[Case]) -> Result<(), Fail> {
    for case in cases {
        let tree = tree_of(alloc, case.lines)?;
        entry_is(rt, &tree, case);
        lists_hold(rt, alloc, &tree, case)?;
    }
    Ok(())
}

const TOUCHING: [Case; 4] = [
    Case {
        lines: &[(7, "charge 0 0 1\n"), (1, "target 1 0\n")],
        count: 1,
        totals: [1, 0, 0, 0],
        cell: 0,
        lists: [&[0], &[], &[], &[]],
        leaves: (0, 0),
        letter: Letter::U,
        cells: (0, 0),
    },
    Case {
        lines: &[(8, "charge 0 0 1\n"), (1, "target 1 0\n")],
        count: 18,
        totals: [1, 0, 0, 0],
        cell: 17,
        lists: [&[16], &[], &[], &[]],
        leaves: (17, 16),
        letter: Letter::U,
        cells: (17, 16),
    },
    Case {
        lines: &[(9, "charge 0 0 1\n"), (9, "target 1 0\n")],
        count: 18,
        totals: [1, 0, 0, 0],
        cell: 17,
        lists: [&[16], &[], &[], &[]],
        leaves: (17, 16),
        letter: Letter::U,
        cells: (17, 16),
    },
    Case {
        lines: &[(9, "charge -1 -1 1\n"), (9, "target 0 0\n")],
        count: 33,
        totals: [1, 0, 0, 0],
        cell: 32,
        lists: [&[31], &[], &[], &[]],
        leaves: (32, 31),
        letter: Letter::U,
        cells: (32, 31),
    },
];

#[test]
fn touching_leaves(rt: HostRuntime) -> Result<(), Fail> {
    each_holds(&rt, rt.alloc(), &TOUCHING)
}

const V: Case = Case {
    lines: &[(9, "charge 0 0 1\n"), (9, "target 2 0\n")],
    count: 19,
    totals: [0, 1, 0, 0],
    cell: 18,
    lists: [&[], &[17], &[], &[]],
    leaves: (18, 17),
    letter: Letter::V,
    cells: (18, 17),
};

const W: Case = Case {
    lines: &[(9, "charge 0 0 1\n"), (1, "target 8 0\n")],
    count: 18,
    totals: [0, 0, 1, 0],
    cell: 14,
    lists: [&[], &[], &[15], &[]],
    leaves: (14, 17),
    letter: Letter::W,
    cells: (14, 15),
};

const X: Case = Case {
    lines: &[(1, "charge 8 0 1\n"), (9, "target 0 0\n")],
    count: 18,
    totals: [0, 0, 0, 1],
    cell: 15,
    lists: [&[], &[], &[], &[14]],
    leaves: (17, 14),
    letter: Letter::X,
    cells: (15, 14),
};

#[test]
fn cells_apart(rt: HostRuntime) -> Result<(), Fail> {
    each_holds(&rt, rt.alloc(), &[V, W, X])
}

/// The number of a cell in the tree of a case.
fn number_is(
    rt: &impl Abort,
    alloc: Global,
    case: &Case,
    cell: Cell,
    n: Option<usize>,
) -> Result<(), Fail> {
    let tree = tree_of(alloc, case.lines)?;
    assert_eq!(rt; tree.find(cell), n);
    Ok(())
}

#[test]
fn numbers_of_small_cells(rt: HostRuntime) -> Result<(), Fail> {
    number_is(&rt, rt.alloc(), &V, Cell::of(2, 0, 16, 16), Some(18))?;
    number_is(&rt, rt.alloc(), &V, Cell::of(0, 0, 16, 16), Some(17))
}

#[test]
fn numbers_of_large_cells(rt: HostRuntime) -> Result<(), Fail> {
    let large = Cell::of(0, 0, 14, 16);
    assert_eq!(rt; large.side(), 4);
    number_is(&rt, rt.alloc(), &W, large, Some(15))?;
    number_is(&rt, rt.alloc(), &X, large, Some(15))
}
