//! Pairs worked by hand: thirds, dipoles, vortices, one place.
use complex_box::Work;
use near_field::pair;
use points::{Kind, Point};
use test_boxes::ends;

const ONE: i128 = 1_099_511_627_776;

const HALF: i128 = 549_755_813_888;

const THIRD: i128 = 366_503_875_925;

#[test]
fn charges(rt: HostRuntime) {
    let mut work = Work::new();
    let source = Point {
        x: 0,
        y: 0,
        kind: Kind::Charge(1),
    };
    let got = [
        ends(pair(&source, 1, 0, &mut work)),
        ends(pair(&source, 0, 1, &mut work)),
        ends(pair(&source, 3, 0, &mut work)),
        ends(pair(&source, -3, 0, &mut work)),
    ];
    assert_eq!(rt;
        got,
        [
            ((ONE, ONE), (0, 0)),
            ((0, 0), (-ONE, -ONE)),
            ((THIRD, THIRD + 1), (0, 0)),
            ((-THIRD - 1, -THIRD), (0, 0))
        ]
    );
    let four = work.pairs();
    let same_place = ends(pair(&source, 0, 0, &mut work));
    assert_eq!(rt; (four, same_place, work.pairs()), (4, ((0, 0), (0, 0)), 4));
}

/// `(3 + 4i)/(3 + 4i)`, and the same pole seen from the origin's other side.
#[test]
fn poles(rt: HostRuntime) {
    let mut work = Work::new();
    let pole = Point {
        x: 0,
        y: 0,
        kind: Kind::Pole(3, 4),
    };
    let got = [
        ends(pair(&pole, 3, 4, &mut work)),
        ends(pair(&pole, -3, -4, &mut work)),
        ends(pair(&pole, 0, 1, &mut work)),
    ];
    assert_eq!(rt;
        got,
        [
            ((ONE, ONE), (0, 0)),
            ((-ONE, -ONE), (0, 0)),
            ((4 * ONE, 4 * ONE), (-3 * ONE, -3 * ONE))
        ]
    );
    assert_eq!(rt; (work.pairs(), work.translations()), (3, 0));
}

#[test]
fn other_kinds(rt: HostRuntime) {
    let mut work = Work::new();
    let dipole = Point {
        x: 0,
        y: 0,
        kind: Kind::Dipole(1, 0),
    };
    let vortex = Point {
        x: 0,
        y: 0,
        kind: Kind::Vortex(1),
    };
    let target = Point {
        x: 0,
        y: 0,
        kind: Kind::Target,
    };
    let got = [
        ends(pair(&dipole, 1, 1, &mut work)),
        ends(pair(&vortex, 1, 0, &mut work)),
        ends(pair(&target, 1, 0, &mut work)),
    ];
    assert_eq!(rt;
        got,
        [
            ((0, 0), (-HALF, -HALF)),
            ((0, 0), (-ONE, -ONE)),
            ((0, 0), (0, 0))
        ]
    );
    assert_eq!(rt; (work.pairs(), work.translations()), (3, 0));
}
