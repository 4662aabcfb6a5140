//! Worked rows of version 2 of the text, and the borders of its limits.
use crate::particles::{come_back, count_of, have_faults, line_has, text_of};
use limits::{
    FIRST_GRID, WIDEST_GRID, grid_of, in_grid, is_version, most_cells, most_order, most_points,
    most_weight,
};
use particle_text::{TextKind, admit, first_fault, parse_point};
use points::{Kind, Mode, Point};
use std::test::Fail;

const HEADS: [(&[u8], u64, TextKind); 10] = [
    (b"fmm 0 field\n", 1, TextKind::Syntax),
    (b"fmm 3 field\n", 1, TextKind::Syntax),
    (b"fmm 02 field\n", 1, TextKind::Syntax),
    (b"fmm -2 field\n", 1, TextKind::Syntax),
    (b"fmm 12 field\n", 1, TextKind::Syntax),
    (b"fmm  2 field\n", 1, TextKind::Syntax),
    (b"fmm 2 Field\n", 1, TextKind::Syntax),
    (b"fmm 2 velocity \n", 1, TextKind::Syntax),
    (b"fmm 2\n", 1, TextKind::Syntax),
    (b"fmm 2 field", 1, TextKind::Syntax),
];

const POLES: [(&[u8], u64, TextKind); 14] = [
    (b"fmm 1 field\npole 0 0 1 0\n", 2, TextKind::Syntax),
    (b"fmm 1 velocity\npole 0 0 1 0\n", 2, TextKind::Syntax),
    (b"fmm 1 field\npole 0 0 1048577 0\n", 2, TextKind::Syntax),
    (b"fmm 2 field\npole 0 0 1048577 0\n", 2, TextKind::Range),
    (b"fmm 2 field\npole 0 0 0 -1048577\n", 2, TextKind::Range),
    (
        b"fmm 2 field\npole 0 0 0 1234567890123456789012345678901234567890\n",
        2,
        TextKind::Range,
    ),
    (b"fmm 2 field\npole 524288 0 1 0\n", 2, TextKind::Range),
    (b"fmm 2 field\npole 0 0 1\n", 2, TextKind::Syntax),
    (b"fmm 2 field\npole 0 0 1 0 0\n", 2, TextKind::Syntax),
    (b"fmm 2 field\npole 0 0 01 0\n", 2, TextKind::Syntax),
    (b"fmm 2 field\npole 0 0 1 -0\n", 2, TextKind::Syntax),
    (b"fmm 2 field\nPole 0 0 1 0\n", 2, TextKind::Syntax),
    (
        b"fmm 2 field\ntarget 0 0\npoles 0 0 1 0\n",
        3,
        TextKind::Syntax,
    ),
    (b"fmm 2 velocity\npole 0 0 1 0", 2, TextKind::Syntax),
];

const PLACES: [(&[u8], u64, TextKind); 8] = [
    (b"fmm 1 field\ncharge 32768 0 1\n", 2, TextKind::Range),
    (b"fmm 1 field\ntarget 0 -32769\n", 2, TextKind::Range),
    (b"fmm 2 field\ntarget 524288 0\n", 2, TextKind::Range),
    (b"fmm 2 field\ntarget 0 524288\n", 2, TextKind::Range),
    (b"fmm 2 field\ntarget -524289 0\n", 2, TextKind::Range),
    (b"fmm 2 field\ntarget 0 -524289\n", 2, TextKind::Range),
    (b"fmm 2 field\ncharge 0 0 1048577\n", 2, TextKind::Range),
    (b"fmm 2 field\nvortex 524288 0 1\n", 2, TextKind::Range),
];

const MODES: [(&[u8], u64, TextKind); 2] = [
    (b"fmm 2 field\nvortex 0 0 1\n", 2, TextKind::Mixed),
    (
        b"fmm 2 velocity\npole 0 0 1 0\ncharge 0 0 1\n",
        3,
        TextKind::Mixed,
    ),
];

const TEXTS: [(&[u8], usize); 6] = [
    (b"fmm 2 field\n", 0),
    (b"fmm 2 velocity\n", 0),
    (b"fmm 2 field\npole 0 0 3 4\ntarget 3 4\n", 2),
    (
        b"fmm 2 velocity\nvortex 0 0 1\npole 5 5 0 0\ntarget 1 0\n",
        3,
    ),
    (
        b"fmm 2 field\ncharge -524288 -524288 1\ntarget 524287 524287\n",
        2,
    ),
    (
        b"fmm 2 field\ndipole 32768 -32769 1 0\npole -524288 524287 -1048576 1048576\n",
        2,
    ),
];

#[test]
fn faults_are_named(rt: HostRuntime) {
    have_faults(&rt, rt.alloc(), &HEADS);
    have_faults(&rt, rt.alloc(), &POLES);
    have_faults(&rt, rt.alloc(), &PLACES);
    have_faults(&rt, rt.alloc(), &MODES);
}

#[test]
fn texts_are_read_and_printed_back(rt: HostRuntime) -> Result<(), Fail> {
    come_back(&rt, rt.alloc(), 2, &TEXTS)
}

#[test]
fn the_weight_has_a_limit(rt: HostRuntime) -> Result<(), Fail> {
    let line = b"dipole 0 0 1048576 1048576\n";
    let mut text = text_of(rt.alloc(), b"fmm 2 field\n", 512, line)?;
    let most = first_fault(text.as_slice());
    text.extend_from_slice(b"charge 0 0 1\n")?;
    let more = first_fault(text.as_slice());
    assert_eq!(rt; (most, more), (None, Some((514, TextKind::Strength))));
    Ok(())
}

#[test]
fn poles_weigh_by_both_parts(rt: HostRuntime) -> Result<(), Fail> {
    let line = b"pole 0 0 1048576 -1048576\n";
    let mut text = text_of(rt.alloc(), b"fmm 2 velocity\n", 32_768, line)?;
    let most = first_fault(text.as_slice());
    text.extend_from_slice(b"pole 0 0 0 1\n")?;
    let more = first_fault(text.as_slice());
    assert_eq!(rt; (most, more), (None, Some((32_770, TextKind::Strength))));
    Ok(())
}

#[test]
fn the_list_has_a_limit(rt: HostRuntime) -> Result<(), Fail> {
    let mut text = text_of(rt.alloc(), b"fmm 2 field\n", 131_072, b"target 0 0\n")?;
    let most = count_of(rt.alloc(), text.as_slice())?;
    text.extend_from_slice(b"target 0 0\n")?;
    let more = first_fault(text.as_slice());
    assert_eq!(rt; (most, more), (131_072, Some((131_074, TextKind::Many))));
    Ok(())
}

#[test]
fn points_are_admitted(rt: HostRuntime) -> Result<(), Fail> {
    let pole = parse_point(2, b"pole 1 -2 1 -2")?;
    let heavy = 68_719_476_736 - 3;
    assert_eq!(rt;
        [
            admit(2, Mode::Field, 131_071, heavy, &pole),
            admit(2, Mode::Velocity, 131_071, heavy, &pole),
            admit(2, Mode::Field, 131_071, heavy + 1, &pole),
            admit(2, Mode::Velocity, 131_072, heavy + 1, &pole)
        ],
        [None, None, Some(TextKind::Strength), Some(TextKind::Many)]
    );
    Ok(())
}

#[test]
fn poles_are_of_version_two(rt: HostRuntime) {
    let pole = Point {
        x: 1,
        y: -2,
        kind: Kind::Pole(5, -6),
    };
    line_has(&rt, 2, b"pole 1 -2 5 -6", pole, (5, -6), (0, 0), 11);
    assert_eq!(rt;
        [
            parse_point(1, b"pole 1 -2 5 -6"),
            parse_point(2, b"pole 1 -2 5 -1048577")
        ],
        [Err(TextKind::Syntax), Err(TextKind::Range)]
    );
    assert!(rt; pole.kind.is_source());
    assert!(rt; pole.is_in_range(WIDEST_GRID) && !pole.is_in_range(FIRST_GRID));
}

#[test]
fn the_grid_has_borders(rt: HostRuntime) {
    assert_eq!(rt;
        [
            in_grid(WIDEST_GRID, -524_288, 524_287),
            in_grid(WIDEST_GRID, 524_287, -524_288),
            in_grid(WIDEST_GRID, 524_288, 0),
            in_grid(WIDEST_GRID, 0, -524_289)
        ],
        [true, true, false, false]
    );
}

#[test]
fn versions_have_limits(rt: HostRuntime) {
    assert_eq!(rt;
        [is_version(0), is_version(1), is_version(2), is_version(3)],
        [false, true, true, false]
    );
    assert_eq!(rt; [grid_of(1), grid_of(2)], [16, 20]);
    assert_eq!(rt; [most_points(16), most_points(20)], [65_536, 131_072]);
    assert_eq!(rt; [most_cells(16), most_cells(20)], [65_536, 131_072]);
    assert_eq!(rt;
        [most_weight(16), most_weight(20)],
        [4_294_967_296, 68_719_476_736]
    );
    assert_eq!(rt; [most_order(16), most_order(20)], [24, 32]);
}
