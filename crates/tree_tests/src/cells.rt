//! Cells of some places.
use cell_name::{Cell, Quadrant};

const WEST: i64 = -32768;

#[test]
fn the_root(rt: HostRuntime) {
    let root = Cell::of(WEST, 32767, 0, 16);
    assert_eq!(rt;
        root,
        Cell {
            level: 0,
            i: 0,
            j: 0,
            grid: 16
        }
    );
    assert_eq!(rt;
        (root.side(), root.corner(), root.doubled_centre()),
        (65536, (WEST, WEST), (0, 0))
    );
}

#[test]
fn cells_of_side_one(rt: HostRuntime) {
    let middle = Cell::of(0, 0, 16, 16);
    assert_eq!(rt; (middle.level, middle.i, middle.j), (16, 32768, 32768));
    assert_eq!(rt;
        (middle.side(), middle.corner(), middle.doubled_centre()),
        (1, (0, 0), (1, 1))
    );
    let corner = Cell::of(32767, WEST, 16, 16);
    assert_eq!(rt; (corner.i, corner.j), (65535, 0));
}

#[test]
fn places_from_a_cell(rt: HostRuntime) {
    let middle = Cell::of(0, 0, 16, 16);
    assert_eq!(rt; middle.offset(8, 0), (15, -1));
    assert_eq!(rt;
        (middle.holds(0, 0), middle.holds(1, 0), middle.holds(0, -1)),
        (true, false, false)
    );
}

#[test]
fn the_widest_root(rt: HostRuntime) {
    let root = Cell::root(20);
    assert_eq!(rt; Cell::of(524_287, -524_288, 0, 20), root);
    assert_eq!(rt;
        (root.side(), root.corner()),
        (1_048_576, (-524_288, -524_288))
    );
}

#[test]
fn cells_of_the_widest_grid(rt: HostRuntime) {
    let middle = Cell::of(0, 0, 20, 20);
    assert_eq!(rt; (middle.i, middle.j), (524_288, 524_288));
    assert_eq!(rt; (middle.side(), middle.corner()), (1, (0, 0)));
    assert_eq!(rt; middle.ancestor(0), Cell::root(20));
}

#[test]
fn a_corner_of_the_widest_grid(rt: HostRuntime) {
    let corner = Cell::of(-524_288, 524_287, 20, 20);
    assert_eq!(rt; (corner.level, corner.i, corner.j), (20, 0, 1_048_575));
    assert_eq!(rt;
        (corner.corner(), corner.doubled_centre()),
        ((-524_288, 524_287), (-1_048_575, 1_048_575))
    );
    assert_eq!(rt; corner.offset(524_287, -524_288), (2_097_149, -2_097_151));
}

/// Cells of the same level, column and row on the two grids.
#[test]
fn one_name_on_both_grids(rt: HostRuntime) {
    let first = Cell::of(0, 0, 16, 16);
    let widest = Cell::of(0, 0, 16, 20);
    assert_eq!(rt;
        (first.level, first.i, first.j),
        (widest.level, widest.i, widest.j)
    );
    assert!(rt; first < widest);
    assert_eq!(rt; (first.side(), widest.side()), (1, 16));
    assert_eq!(rt; (first.holds(8, 8), widest.holds(8, 8)), (false, true));
}

#[test]
fn families(rt: HostRuntime) {
    let cell = Cell::of(8, 0, 14, 16);
    let up = cell.parent();
    assert_eq!(rt;
        ((cell.i, cell.j), (up.level, up.i, up.j)),
        ((8194, 8192), (13, 4097, 4096))
    );
    let quadrant = cell.quadrant();
    assert_eq!(rt;
        quadrant,
        Quadrant {
            right: false,
            top: false
        }
    );
    assert_eq!(rt; up.child(quadrant), cell);
}

#[test]
fn ancestors(rt: HostRuntime) {
    let cell = Cell::of(8, 0, 14, 16);
    assert_eq!(rt;
        cell.ancestor(1),
        Cell {
            level: 1,
            i: 1,
            j: 1,
            grid: 16
        }
    );
    let quadrant = cell.quadrant();
    let below = cell.ancestor(16 - 2).child(quadrant).child(quadrant);
    assert!(rt; Cell::of(-1, -1, 16, 16) < below);
}

#[test]
fn neighbours(rt: HostRuntime) {
    let southwest = Cell::of(-1, -1, 16, 16);
    assert!(rt; southwest.touches(Cell::of(0, 0, 16, 16)));
    assert!(rt; southwest.touches(Cell::of(0, 0, 0, 16)));
    assert!(rt; !southwest.touches(Cell::of(1, 0, 16, 16)));
}
