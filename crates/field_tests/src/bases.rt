//! A basis: weights and positions of targets, by hand.
use field_basis::Basis;
use quadtree::Tree;
use std::alloc::Global;
use std::test::Fail;
use test_points::points_of;

/// The basis of these lines at order 4 and capacity 8.
fn basis_of(alloc: Global, lines: &[(u32, &str)]) -> Result<Basis<4>, Fail> {
    let points = points_of(alloc, lines)?;
    let tree = Tree::build(alloc, &points, 8)?;
    Ok(Basis::<4>::over(alloc, points.list.points(), 8, tree)?)
}

/// The root and its four quarters: a charge in the south-west, one in the north-west, targets in the south-east and a dipole in the north-east.
const QUARTERS: [(u32, &str); 4] = [
    (1, "charge -8 -8 5\n"),
    (1, "charge -8 8 -2\n"),
    (1, "dipole 8 8 3 -4\n"),
    (6, "target 8 -8\n"),
];

const WEIGHTS: [i128; 5] = [63, 5, 2, 0, 56];

const TARGETS: [u32; 6] = [3, 4, 5, 6, 7, 8];

#[test]
fn weights_of_four_quarters(rt: HostRuntime) -> Result<(), Fail> {
    let basis = basis_of(rt.alloc(), &QUARTERS)?;
    assert!(rt; basis.weights.as_slice() == WEIGHTS.as_slice());
    assert!(rt; basis.targets.as_slice() == TARGETS.as_slice());
    Ok(())
}
