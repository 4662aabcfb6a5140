//! Worked radii.
use error_ledger::{Ledger, weight};
use points::{Kind, Point};

#[test]
fn weights(rt: HostRuntime) {
    let charge = Point {
        x: 1,
        y: -2,
        kind: Kind::Charge(-3),
    };
    let vortex = Point {
        x: 0,
        y: 0,
        kind: Kind::Vortex(7),
    };
    let dipole = Point {
        x: 0,
        y: 0,
        kind: Kind::Dipole(5, -6),
    };
    let pole = Point {
        x: 524_287,
        y: -524_288,
        kind: Kind::Pole(5, -6),
    };
    let target = Point {
        x: 0,
        y: 0,
        kind: Kind::Target,
    };
    assert_eq!(rt;
        [
            weight(&charge, 4),
            weight(&vortex, 4),
            weight(&dipole, 4),
            weight(&pole, 4),
            weight(&target, 4)
        ],
        [3, 7, 88, 11, 0]
    );
}

#[test]
fn radii(rt: HostRuntime) {
    // One charge far from a cell of side 4, nine charges in such a cell, and nine seen from a cell of side 1.
    let mut one = Ledger::new();
    one.add_single(1, 4, 4);
    let mut nine = Ledger::new();
    nine.add_single(9, 4, 4);
    let mut seen = Ledger::new();
    seen.add_pair(9, 1, 4);
    let first = seen.radius();
    seen.add_pair(1, 2, 8);
    assert_eq!(rt;
        [one.radius(), nine.radius(), first, seen.radius()],
        [
            13_668_646_683,
            123_017_820_143,
            1_789_868_981_808,
            1_798_861_837_968
        ]
    );
}
