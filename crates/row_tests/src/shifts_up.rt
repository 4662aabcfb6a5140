//! A small row goes up and away again, with numbers by hand, and a charge goes up and is seen from afar.
ghost use Rattle.std.specs.Prelude.{◌≡◌, ◌^◌, length};
ghost use Rattle.row_recursions.specs.Rows.{row_of};
ghost use Rattle.row_recursions.specs.Sizes.{RowWithin};

use crate::compare::row_is;
use crate::known::{BOTTOM_LEFT, LARGE, SMALL, nine_charges};
use cell_name::Quadrant;
use complex_box::{CBox, Row, Work};
use multipole::at_multipole;
use multipole_shift::{shift_up, take_up};
use test_boxes::{Ends, ends};

/// What the row of `up_and_away` adds to that of the cell above.
const SEEN_FROM_ABOVE: [Ends; 4] = [
    ((1, 1), (0, 0)),
    ((1, 2), (-1, 0)),
    ((-1, 1), (-1, 1)),
    ((0, 2), (0, 3)),
];

#[test]
fn up_and_away(rt: HostRuntime) {
    let child = [
        CBox::point(1, 0),
        CBox::point(3, -1),
        CBox::point(-2, 5),
        CBox::point(7, 7),
    ];
    let below_on_the_right = Quadrant {
        right: true,
        top: false,
    };
    let child_row = Row::<4>::new(&child);
    let mut work = Work::new();
    let mut row = [CBox::zero(); 4];
    shift_up::<4>(child_row, below_on_the_right, &mut row, &mut work);
    row_is(&rt, &row, &SEEN_FROM_ABOVE);
    take_up::<4>(child_row, below_on_the_right, &mut row, &mut work);
    assert_eq!(rt;
        (row, work.translations(), work.pairs()),
        ([CBox::zero(); 4], 2, 0)
    );
}

/// The row about the centre of the cell above.
fn above(child: &[CBox]) -> [CBox; 4]
    requires len { length child.now ≡ 4 }
    requires size { RowWithin 4 (2 ^ 79) (row_of child.now) }
    ensures { RowWithin 4 (2 ^ 79) (row_of result) }
{
    let mut row = [CBox::zero(); 4];
    shift_up::<4>(Row::new(child), BOTTOM_LEFT, &mut row, &mut Work::new());
    row
}

#[test]
fn up_and_seen_from_afar(rt: HostRuntime) {
    let row = above(&above(&nine_charges(SMALL)));
    assert_eq!(rt;
        ends(at_multipole::<4>(Row::new(&row), LARGE, 8, 0)),
        (
            (1_250_804_427_757, 1_250_804_427_759),
            (47_498_902_319, 47_498_902_321)
        )
    );
}
