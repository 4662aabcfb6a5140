//! Rows brought down: a square in each quadrant, by hand, and the row of a far charge, brought down twice and evaluated.
ghost use Rattle.std.specs.Prelude.{◌≡◌, ◌^◌, length};
ghost use Rattle.row_recursions.specs.Rows.{row_of};
ghost use Rattle.row_recursions.specs.Sizes.{RowWithin};

use crate::compare::row_is;
use crate::known::{BOTTOM_LEFT, FAR_CHARGE, SMALL, far_point};
use cell_name::Quadrant;
use complex_box::{CBox, Row, Work};
use local_expansion::at_local;
use local_shift::shift_down;
use points::Kind;
use std::process::Abort;
use test_boxes::{Ends, ends};

/// The row alone, brought down.
fn brought_down(rt: &impl Abort, parent: &[CBox], q: Quadrant) -> [CBox; 4]
    requires len { length parent.now ≡ 4 }
    requires size { RowWithin 4 (2 ^ 90) (row_of parent.now) }
    ensures { RowWithin 4 (2 ^ 90) (row_of result) }
{
    let mut row = [CBox::zero(); 4];
    let mut work = Work::new();
    shift_down::<4>(Row::new(parent), q, &mut row, &mut work);
    assert_eq!(rt; (work.translations(), work.pairs()), (1, 0));
    row
}

/// `16 ((2 T + q)/4)^2`, halved: `q^2/2 + 2 q T + 2 T^2`.
fn square_is(rt: &impl Abort, q: Quadrant, first: i128, re: i128, im: i128) {
    let row = brought_down(
        rt,
        &[CBox::zero(), CBox::zero(), CBox::point(16, 0), CBox::zero()],
        q,
    );
    row_is(
        rt,
        &row,
        &[
            ((0, 0), (first, first)),
            ((re, re), (im, im)),
            ((2, 2), (0, 0)),
            ((0, 0), (0, 0)),
        ],
    );
}

const TOP_RIGHT: Quadrant = Quadrant {
    right: true,
    top: true,
};

const BOTTOM_RIGHT: Quadrant = Quadrant {
    right: true,
    top: false,
};

const TOP_LEFT: Quadrant = Quadrant {
    right: false,
    top: true,
};

#[test]
fn square_in_each_quadrant(rt: HostRuntime) {
    square_is(&rt, TOP_RIGHT, 1, 2, 2);
    square_is(&rt, BOTTOM_RIGHT, -1, 2, -2);
    square_is(&rt, TOP_LEFT, -1, -2, 2);
    square_is(&rt, BOTTOM_LEFT, 1, -2, -2);
}

/// What a charge 1 at (8, 0) adds to the row of the cell of side 4 at the origin, in the cell of side 2 there.
#[test]
fn far_charge_once(rt: HostRuntime) {
    let charge = far_point(Kind::Charge(1));
    row_is(&rt, &charge, &FAR_CHARGE);
    let first = brought_down(&rt, &charge, BOTTOM_LEFT);
    assert_eq!(rt;
        [ends(first[0]), ends(first[3])],
        [
            (
                (-307_973_206_941, -307_973_206_939),
                (-44_750_123_252, -44_750_123_249)
            ),
            (
                (-3_078_632_558, -3_078_632_557),
                (-10_555_311_627, -10_555_311_626)
            )
        ]
    );
}

/// Its row in the cell of side 1.
const FAR_CHARGE_TWICE: [Ends; 4] = [
    (
        (-146_351_869_606, -146_351_869_603),
        (-11_538_000_146, -11_538_000_142),
    ),
    (
        (-16_382_723_256, -16_382_723_252),
        (-948_328_781, -948_328_777),
    ),
    ((-4_576_717_151, -4_576_717_150), (261_134_010, 261_134_013)),
    ((-192_414_535, -192_414_534), (-659_706_977, -659_706_976)),
];

#[test]
fn far_charge_twice(rt: HostRuntime) {
    let first = brought_down(&rt, &far_point(Kind::Charge(1)), BOTTOM_LEFT);
    let second = brought_down(&rt, &first, BOTTOM_LEFT);
    row_is(&rt, &second, &FAR_CHARGE_TWICE);
    assert_eq!(rt;
        ends(at_local::<4>(Row::new(&second), SMALL, 0, 0)),
        (
            (-138_978_269_756, -138_978_269_745),
            (-5_277_655_819, -5_277_655_807)
        )
    );
}
