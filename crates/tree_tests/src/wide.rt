//! Trees and lists on the grid of version 2.
use crate::known::wide_tree_of;
use cell_lists::lists;
use cell_name::Cell;
use letters::Letter;
use particle_text::parse;
use quadtree::{Tree, TreeFault};
use std::alloc::Global;
use std::process::Abort;
use std::test::Fail;
use test_points::{wide_points_of, wide_text};

const TWO_PLACES: [(u32, &str); 2] = [(8, "charge 0 0 1\n"), (1, "target 1 0\n")];

#[test]
fn cells_of_two_places(rt: HostRuntime) -> Result<(), Fail> {
    let tree = wide_tree_of(rt.alloc(), &TWO_PLACES)?;
    assert_eq!(rt; (tree.grid(), tree.cells().len()), (20, 22));
    let near = tree.find(Cell::of(1, 0, 20, 20));
    let first_grid = tree.find(Cell::of(1, 0, 16, 16));
    assert_eq!(rt; (near, first_grid), (Some(21), None));
    Ok(())
}

#[test]
fn the_last_level(rt: HostRuntime) -> Result<(), Fail> {
    let tree = wide_tree_of(rt.alloc(), &TWO_PLACES)?;
    let last = tree.level(20);
    assert_eq!(rt; (last.start, last.end), (20, 22));
    Ok(())
}

/// Nine charges and as many targets in opposite corners: a chain of cells down to each of the two places.
#[test]
fn corners(rt: HostRuntime) -> Result<(), Fail> {
    let lines = [
        (9, "charge -524288 -524288 1\n"),
        (9, "target 524287 524287\n"),
    ];
    let tree = wide_tree_of(rt.alloc(), &lines)?;
    assert_eq!(rt; tree.cells().len(), 41);
    let southwest = tree.find(Cell::of(-524_288, -524_288, 20, 20));
    let northeast = tree.find(Cell::of(524_287, 524_287, 20, 20));
    assert_eq!(rt; (southwest, northeast), (Some(39), Some(40)));
    Ok(())
}

/// The tree of the lines has so many entries of U, V, W and X.
fn entries_are(
    rt: &impl Abort,
    alloc: Global,
    lines: &[(u32, &str)],
    totals: [u64; 4],
) -> Result<(), Fail> {
    let tree = wide_tree_of(alloc, lines)?;
    let found = lists(alloc, &tree)?;
    assert_eq!(rt;
        [
            found.total(Letter::U),
            found.total(Letter::V),
            found.total(Letter::W),
            found.total(Letter::X)
        ],
        totals
    );
    Ok(())
}

#[test]
fn entries_of_two_places(rt: HostRuntime) -> Result<(), Fail> {
    let alloc = rt.alloc();
    entries_are(&rt, alloc, &TWO_PLACES, [1, 0, 0, 0])?;
    let poles = (9, "pole 0 0 3 -4\n");
    entries_are(&rt, alloc, &[poles, (9, "target 2 0\n")], [0, 1, 0, 0])?;
    entries_are(&rt, alloc, &[poles, (1, "target 8 0\n")], [0, 0, 1, 0])?;
    let far = (1, "pole 8 0 3 -4\n");
    entries_are(&rt, alloc, &[far, (9, "target 0 0\n")], [0, 0, 0, 1])
}

#[test]
fn crowded_places(rt: HostRuntime) -> Result<(), Fail> {
    let alloc = rt.alloc();
    let crowded = wide_points_of(alloc, &[(4097, "charge 0 0 1\n")])?;
    match Tree::build(alloc, &crowded, 8) {
        Err(TreeFault::Crowded { cell, count }) => {
            assert_eq!(rt;
                (cell.level, cell.i, cell.j, count),
                (20, 524_288, 524_288, 4097)
            );
        }
        _ => panic!(rt; "the place is crowded"),
    }
    Ok(())
}

/// More cells than a tree of version 1 may have.
#[test]
fn a_large_tree(rt: HostRuntime) -> Result<(), Fail> {
    let alloc = rt.alloc();
    let points = parse(alloc, &wide_text(alloc)?)?;
    let tree = Tree::build(alloc, &points, 8)?;
    assert_eq!(rt;
        (points.list.points().len(), tree.cells().len()),
        (65_536, 75_109)
    );
    Ok(())
}
