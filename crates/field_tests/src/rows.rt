//! Rows that are known from elsewhere.
use crate::compare::{NINE_CHARGES, ends_are, field_of};
use bumpalo::Bump;
use complex_box::Row;
use solve_phase::Field;
use std::process::Abort;
use std::test::Fail;
use test_boxes::Ends;

const NINE: i128 = 9_895_604_649_984;

const HALF: i128 = 4_947_802_324_992;

const QUARTER: i128 = 2_473_901_162_496;

/// Nine charges at the origin, and nine targets beside them.
const CHARGES: [(u32, &str); 2] = [NINE_CHARGES, (9, "target 2 0\n")];

/// The row of the charges' cell of level 16. The offset from the centre of each cell below the root is half a side to the west and to the south.
const LEAF: [Ends; 4] = [
    ((NINE, NINE), (0, 0)),
    ((-HALF, -HALF), (-HALF, -HALF)),
    ((0, 0), (HALF, HALF)),
    ((QUARTER, QUARTER), (-QUARTER, -QUARTER)),
];

/// The row of the root, whose centre is the charges' place.
const ROOT: [Ends; 4] = [
    ((NINE, NINE), (0, 0)),
    ((0, 0), (0, 0)),
    ((0, 0), (0, 0)),
    ((0, 0), (0, 0)),
];

/// There is a row, and its boxes are the known ones.
fn has_row(rt: &impl Abort, row: Option<Row<4>>, known: &[Ends; 4]) {
    match row {
        Some(row) => {
            for i in 0..4 {
                ends_are(rt, row.get(i), known[i]);
            }
        }
        None => assert!(rt; false),
    }
}

fn has_moments(rt: &impl Abort, field: &Field<4>) {
    assert!(rt; field.tree().cells().len() == 19);
    has_row(rt, field.up(0), &ROOT);
    // the targets' cell of level 15
    assert!(rt; field.up(16).is_none());
    has_row(rt, field.up(17), &LEAF);
}

/// Nine charges at the origin, by hand.
#[test]
fn multipole_rows(rt: HostRuntime) -> Result<(), Fail> {
    let arena = Bump::new(rt.alloc());
    let field = field_of(rt.alloc(), &CHARGES, &arena)?;
    has_moments(&rt, &field);
    Ok(())
}

/// One charge, and nine targets far from it.
const ONE_FAR_AWAY: [(u32, &str); 2] = [(1, "charge 8 0 1\n"), (9, "target 0 0\n")];

/// The row of a cell of side 4 that sees one far charge.
const FAR_CHARGE: [Ends; 4] = [
    (
        (-659_706_976_666, -659_706_976_665),
        (-219_902_325_556, -219_902_325_555),
    ),
    (
        (-351_843_720_889, -351_843_720_887),
        (-263_882_790_667, -263_882_790_666),
    ),
    (
        (-158_329_674_401, -158_329_674_398),
        (-228_698_418_578, -228_698_418_577),
    ),
    (
        (-49_258_120_926, -49_258_120_923),
        (-168_884_986_027, -168_884_986_025),
    ),
];

fn has_far_charge(rt: &impl Abort, field: &Field<4>) {
    assert!(rt; field.tree().cells().len() == 18);
    has_row(rt, field.local(15), &FAR_CHARGE);
    assert_eq!(rt; (field.radius(14), field.radius(15)), (0, 13_668_646_683));
}

#[test]
fn local_rows(rt: HostRuntime) -> Result<(), Fail> {
    let arena = Bump::new(rt.alloc());
    let field = field_of(rt.alloc(), &ONE_FAR_AWAY, &arena)?;
    has_far_charge(&rt, &field);
    Ok(())
}
