//! Trees worked by hand, and those that a list may not have.
use crate::known::tree_of;
use cell_name::Cell;
use particle_text::parse;
use quadtree::{Tree, TreeFault};
use std::alloc::Global;
use std::process::Abort;
use std::test::Fail;
use test_points::{full_text, large_text, points_of};

/// How many cells the tree of such a list has.
fn cells_of(alloc: Global, lines: &[(u32, &str)]) -> Result<usize, Fail> {
    Ok(tree_of(alloc, lines)?.cells().len())
}

/// Lists, and how many cells the tree of each has.
const SMALL_LISTS: [(&[(u32, &str)], usize); 7] = [
    (&[], 0),
    (&[(7, "charge 0 0 1\n"), (1, "target 1 0\n")], 1),
    (&[(8, "charge 0 0 1\n"), (1, "target 1 0\n")], 18),
    (&[(9, "charge 0 0 1\n"), (9, "target 2 0\n")], 19),
    (&[(9, "charge -1 -1 1\n"), (9, "target 0 0\n")], 33),
    (&[(9, "charge 0 0 1\n"), (1, "target 8 0\n")], 18),
    (&[(1, "charge 8 0 1\n"), (9, "target 0 0\n")], 18),
];

#[test]
fn cells_of_small_lists(rt: HostRuntime) -> Result<(), Fail> {
    for &(lines, count) in &SMALL_LISTS {
        let found = cells_of(rt.alloc(), lines)?;
        assert_eq!(rt; found, count);
    }
    Ok(())
}

const TWO_PLACES: [(u32, &str); 2] = [(8, "charge 0 0 1\n"), (1, "target 1 0\n")];

#[test]
fn cells_of_two_places(rt: HostRuntime) -> Result<(), Fail> {
    let tree = tree_of(rt.alloc(), &TWO_PLACES)?;
    assert_eq!(rt; (tree.grid(), tree.cells().len()), (16, 18));
    let near = tree.find(Cell::of(1, 0, 16, 16));
    let far = tree.find(Cell::of(5, 5, 16, 16));
    assert_eq!(rt; (near, far), (Some(17), None));
    Ok(())
}

/// The parent of a cell, whether it is a leaf, how many points it has, and whether it has a source and a target.
fn cell_is(
    rt: &impl Abort,
    tree: &Tree,
    n: usize,
    expected: (usize, bool, u64),
    has: (bool, bool),
) {
    let count = tree.cells().len();
    assert!(rt; n < count);
    assert_eq!(rt;
        (
            (tree.parent(n), tree.is_leaf(n), tree.count(n)),
            (tree.has_source(n), tree.has_target(n))
        ),
        (expected, has)
    );
}

#[test]
fn each_cell_of_two_places(rt: HostRuntime) -> Result<(), Fail> {
    let tree = tree_of(rt.alloc(), &TWO_PLACES)?;
    cell_is(&rt, &tree, 0, (0, false, 9), (true, true));
    cell_is(&rt, &tree, 15, (14, false, 9), (true, true));
    cell_is(&rt, &tree, 16, (15, true, 8), (true, false));
    cell_is(&rt, &tree, 17, (15, true, 1), (false, true));
    Ok(())
}

/// The children of a cell.
fn children_are(rt: &impl Abort, tree: &Tree, n: usize, children: &[u32]) {
    let count = tree.cells().len();
    assert!(rt; n < count);
    assert_eq!(rt; tree.children(n), children);
}

#[test]
fn members_and_children_of_two_places(rt: HostRuntime) -> Result<(), Fail> {
    let tree = tree_of(rt.alloc(), &TWO_PLACES)?;
    children_are(&rt, &tree, 15, &[16, 17]);
    children_are(&rt, &tree, 17, &[]);
    assert_eq!(rt; tree.cells().len(), 18);
    assert_eq!(rt; tree.members(17), [8].as_slice());
    Ok(())
}

#[test]
fn levels_of_two_places(rt: HostRuntime) -> Result<(), Fail> {
    let tree = tree_of(rt.alloc(), &TWO_PLACES)?;
    let last = tree.level(16);
    let first = tree.level(0);
    assert_eq!(rt;
        ((last.start, last.end), (first.start, first.end)),
        ((16, 18), (0, 1))
    );
    Ok(())
}

#[test]
fn crowded_places(rt: HostRuntime) -> Result<(), Fail> {
    let alloc = rt.alloc();
    let crowded = points_of(alloc, &[(4097, "charge 0 0 1\n")])?;
    match Tree::build(alloc, &crowded, 8) {
        Err(TreeFault::Crowded { cell, count }) => {
            assert_eq!(rt;
                (cell.level, cell.i, cell.j, count),
                (16, 32768, 32768, 4097)
            );
        }
        _ => panic!(rt; "the place is crowded"),
    }
    Ok(())
}

#[test]
fn the_fullest_place(rt: HostRuntime) -> Result<(), Fail> {
    let most = cells_of(rt.alloc(), &[(4095, "charge 0 0 1\n"), (1, "target 0 0\n")])?;
    assert_eq!(rt; most, 17);
    Ok(())
}

/// 1,365 cells of levels 0 to 5, and 15 for each of 4,096 groups: nearly as many as a tree may have.
#[test]
fn a_large_tree(rt: HostRuntime) -> Result<(), Fail> {
    let alloc = rt.alloc();
    let points = parse(alloc, &large_text(alloc)?)?;
    let tree = Tree::build(alloc, &points, 8)?;
    assert_eq!(rt;
        (points.list.points().len(), tree.cells().len()),
        (53_248, 62_805)
    );
    Ok(())
}

#[test]
fn more_cells_than_a_tree_may_have(rt: HostRuntime) -> Result<(), Fail> {
    let alloc = rt.alloc();
    let points = parse(alloc, &full_text(alloc)?)?;
    assert_eq!(rt; points.list.points().len(), 65536);
    assert!(rt; matches!(Tree::build(alloc, &points, 8), Err(TreeFault::Cells)));
    Ok(())
}
