//! Rows that are known from elsewhere: sources on the border of a cell go in and out again, and a far value.
ghost use Rattle.limits.specs.Limits.{widest_grid};
ghost use Rattle.points.specs.Limits.{HasStrength, IsKindOf};

use crate::known::{LARGE, SMALL, WIDE_LARGE, nine_charges};
use complex_box::{CBox, Row};
use multipole::{add_source, at_multipole, take_source};
use points::{Kind, Point};
use std::process::Abort;
use test_boxes::ends;

/// The point of a kind in the corner of the cell of side 1 that holds the origin.
fn goes_and_comes(rt: &impl Abort, kind: Kind, second: CBox)
    requires kind { IsKindOf widest_grid kind }
    requires strength { HasStrength kind }
{
    let source = Point { x: 0, y: 0, kind };
    let mut row = [CBox::zero(); 4];
    add_source::<4>(&mut row, SMALL, &source);
    let added = row[1];
    take_source::<4>(&mut row, SMALL, &source);
    assert_eq!(rt; (added, row), (second, [CBox::zero(); 4]));
}

#[test]
fn there_and_back(rt: HostRuntime) {
    let half = 549_755_813_888;
    goes_and_comes(&rt, Kind::Charge(1), CBox::point(-half, -half));
    goes_and_comes(&rt, Kind::Vortex(1), CBox::point(-half, half));
    goes_and_comes(&rt, Kind::Dipole(3, -2), CBox::point(6 * half, -4 * half));
    goes_and_comes(&rt, Kind::Pole(3, -4), CBox::point(-7 * half, half));
    goes_and_comes(&rt, Kind::Target, CBox::zero());
}

/// The value at (8, 0) of the moments of nine charges, on both grids.
#[test]
fn far_value(rt: HostRuntime) {
    let known = (
        (1_250_804_427_757, 1_250_804_427_759),
        (47_498_902_319, 47_498_902_321),
    );
    let first = at_multipole::<4>(Row::new(&nine_charges(LARGE)), LARGE, 8, 0);
    let widest = at_multipole::<4>(Row::new(&nine_charges(WIDE_LARGE)), WIDE_LARGE, 8, 0);
    assert_eq!(rt; (ends(first), ends(widest)), (known, known));
}
