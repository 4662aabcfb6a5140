//! Fields of texts of version 2, whose numbers are known from elsewhere.
ghost use Rattle.exact_math.specs.Orders.{IsOrder};

use crate::compare::{EACH_LETTER, Known, NINE_CHARGES, ends_are, is_known, wide_field_of};
use bumpalo::Bump;
use solve_phase::Field;
use std::alloc::Global;
use std::process::Abort;
use std::test::Fail;
use test_boxes::Ends;

/// The field of the lines is as it is known.
fn is_solved<const P: usize>(rt: &impl Abort, alloc: Global, known: &Known) -> Result<(), Fail>
    requires { IsOrder P }
{
    let arena = Bump::new(alloc);
    let field = wide_field_of::<P>(alloc, known.lines, &arena)?;
    is_known(rt, &field, known);
    Ok(())
}

fn are_known<const P: usize>(rt: &impl Abort, alloc: Global, each: &[Known]) -> Result<(), Fail>
    requires { IsOrder P }
{
    for known in each {
        is_solved::<P>(rt, alloc, known)?;
    }
    Ok(())
}

const ONE: i128 = 1_099_511_627_776;

const NEAR: [Known; 4] = [
    // (3 + 4i)/(3 + 4i) is 1
    Known {
        lines: &[(1, "pole 0 0 3 4\n"), (1, "target 3 4\n")],
        cells: 1,
        translations: 0,
        pairs: 1,
        targets: 1,
        ends: ((ONE, ONE), (0, 0)),
    },
    // 1/(d + i d) at the distance 1,048,575 in both coordinates
    Known {
        lines: &[
            (1, "charge -524288 -524288 1\n"),
            (1, "target 524287 524287\n"),
        ],
        cells: 1,
        translations: 0,
        pairs: 1,
        targets: 1,
        ends: ((524_288, 524_289), (-524_289, -524_288)),
    },
    // the charges' cell and the target's are of level 20
    Known {
        lines: &[(8, "charge 0 0 1\n"), (1, "target 1 0\n")],
        cells: 22,
        translations: 40,
        pairs: 8,
        targets: 1,
        ends: ((8 * ONE, 8 * ONE), (0, 0)),
    },
    // the terms are 2^60/100 and -2^60/99
    Known {
        lines: &[
            (1, "charge 0 0 1048576\n"),
            (1, "charge 1 0 -1048576\n"),
            (1, "target 100 0\n"),
        ],
        cells: 1,
        translations: 0,
        pairs: 2,
        targets: 1,
        ends: ((-116_456_717_637_057, -116_456_717_637_055), (0, 0)),
    },
];

#[test]
fn sources_nearby(rt: HostRuntime) -> Result<(), Fail> {
    are_known::<8>(&rt, rt.alloc(), &NEAR)
}

const NINE_POLES: (u32, &str) = (9, "pole 0 0 3 -4\n");

const FAR: [Known; 4] = [
    // nine charges and nine targets two places to the east: the box is the one on the smaller grid, over a tree with four cells more
    Known {
        lines: &[NINE_CHARGES, (9, "target 2 0\n")],
        cells: 23,
        translations: 41,
        pairs: 0,
        targets: 9,
        ends: (
            (3_312_552_165_840, 6_892_290_129_456),
            (-1_596_595_453_488, 1_983_142_510_128),
        ),
    },
    // poles that are converted
    Known {
        lines: &[NINE_POLES, (9, "target 2 0\n")],
        cells: 23,
        translations: 41,
        pairs: 0,
        targets: 9,
        ends: (
            (3_551_274_683_568, 28_609_440_428_880),
            (-32_358_946_878_288, -7_300_781_132_976),
        ),
    },
    // poles whose multipole row is evaluated at a target
    Known {
        lines: &[NINE_POLES, (1, "target 8 0\n")],
        cells: 22,
        translations: 37,
        pairs: 0,
        targets: 1,
        ends: (
            (3_081_284_151_555, 4_803_533_633_552),
            (-5_721_845_745_071, -3_999_596_263_073),
        ),
    },
    // a pole that enters a local row by itself
    Known {
        lines: &[(1, "pole 8 0 3 -4\n"), (9, "target 0 0\n")],
        cells: 22,
        translations: 37,
        pairs: 0,
        targets: 9,
        ends: (
            (-533_725_959_289, -342_364_905_722),
            (444_399_584_780, 635_760_638_346),
        ),
    },
];

#[test]
fn sources_far_away(rt: HostRuntime) -> Result<(), Fail> {
    are_known::<4>(&rt, rt.alloc(), &FAR)
}

const OF_ORDER_32: [Known; 2] = [
    Known {
        lines: &[(1, "charge 0 0 1\n"), (1, "target 3 4\n")],
        cells: 1,
        translations: 0,
        pairs: 1,
        targets: 1,
        ends: (
            (131_941_395_333, 131_941_395_334),
            (-175_921_860_445, -175_921_860_444),
        ),
    },
    // the V entry of nine charges and nine targets loses next to nothing: the sum is 4.5
    Known {
        lines: &[NINE_CHARGES, (9, "target 2 0\n")],
        cells: 23,
        translations: 41,
        pairs: 0,
        targets: 9,
        ends: ((4_947_802_236_504, 4_947_802_413_711), (-88_534, 88_672)),
    },
];

#[test]
fn order_32(rt: HostRuntime) -> Result<(), Fail> {
    are_known::<32>(&rt, rt.alloc(), &OF_ORDER_32)
}

/// The boxes of the points with entries of each letter: that of the nine targets, of the one far to the east and of the one next to the poles.
fn boxes_are<const P: usize>(rt: &impl Abort, field: &Field<P>, known: &[Ends; 3]) {
    assert!(rt; (field.translations(), field.pairs(), field.targets()) == (45, 10, 11));
    ends_are(rt, field.value(8), known[0]);
    ends_are(rt, field.value(9), known[1]);
    ends_are(rt, field.value(10), known[2]);
}

/// The field of the points with entries of each letter has these boxes.
fn letters_are<const P: usize>(
    rt: &impl Abort,
    alloc: Global,
    known: &[Ends; 3],
) -> Result<(), Fail>
    requires { IsOrder P }
{
    let arena = Bump::new(alloc);
    let field = wide_field_of::<P>(alloc, &EACH_LETTER, &arena)?;
    boxes_are(rt, &field, known);
    Ok(())
}

const AT_ORDER_4: [Ends; 3] = [
    (
        (2_148_307_021_663, 29_830_852_930_025),
        (-33_703_092_930_476, -6_020_547_022_114),
    ),
    (
        (2_336_723_758_476, 4_058_973_240_474),
        (-6_141_810_647_957, -4_419_561_165_959),
    ),
    (
        (28_300_036_370_528, 30_924_416_533_580),
        (-40_931_442_886_585, -38_307_062_723_534),
    ),
];

const AT_ORDER_16: [Ends; 3] = [
    (
        (14_744_286_443_212, 14_764_112_344_589),
        (-19_832_316_557_729, -19_812_490_656_351),
    ),
    (
        (2_932_501_068_685, 2_932_712_833_204),
        (-5_171_464_603_693, -5_171_252_839_174),
    ),
    (
        (29_612_201_896_912, 29_613_492_652_204),
        (-39_622_243_067_358, -39_620_952_312_067),
    ),
];

const AT_ORDER_24: [Ends; 3] = [
    (
        (14_754_048_485_990, 14_754_204_872_342),
        (-19_822_513_746_644, -19_822_357_360_293),
    ),
    (
        (2_932_606_167_258, 2_932_606_690_917),
        (-5_171_329_690_569, -5_171_329_166_910),
    ),
    (
        (29_612_844_879_733, 29_612_849_667_792),
        (-39_621_600_083_217, -39_621_595_295_157),
    ),
];

#[test]
fn each_letter(rt: HostRuntime) -> Result<(), Fail> {
    letters_are::<4>(&rt, rt.alloc(), &AT_ORDER_4)?;
    letters_are::<16>(&rt, rt.alloc(), &AT_ORDER_16)?;
    letters_are::<24>(&rt, rt.alloc(), &AT_ORDER_24)
}
