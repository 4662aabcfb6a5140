//! Worked rows of version 1 of the text and its border cases.
ghost use Rattle.limits.specs.Limits.{IsVersion, widest_grid};
ghost use Rattle.points.specs.Limits.{InRange};

use limits::{FIRST_GRID, in_grid};
use particle_text::{
    ParseFault, TextKind, admit, first_fault, one_reading, one_text, parse, parse_point, print,
};
use points::{Kind, Mode, Point};
use std::alloc::Global;
use std::process::Abort;
use std::test::Fail;

const FAULTS: [(&[u8], u64, TextKind); 27] = [
    (b"", 1, TextKind::Syntax),
    (b"fmm 1 field", 1, TextKind::Syntax),
    (b"fmm 1 field \ncharge 0 0 1\n", 1, TextKind::Syntax),
    (b"fmm 1 field\ncharge 0 0 1048577\n", 2, TextKind::Range),
    (b"fmm 1 field\ncharge 0 0\n", 2, TextKind::Syntax),
    (b"fmm 1 field\nvortex 0 0 1\n", 2, TextKind::Mixed),
    (
        b"fmm 1 velocity\ntarget 0 0\ncharge 0 0 1\n",
        3,
        TextKind::Mixed,
    ),
    (b"fmm 1 field\nvortex 0 0 1048577\n", 2, TextKind::Range),
    (b"fmm 1 field\ncharge 00 0 1\n", 2, TextKind::Syntax),
    (b"fmm 1 field\ncharge 01 0 1\n", 2, TextKind::Syntax),
    (b"fmm 1 field\ncharge +1 0 1\n", 2, TextKind::Syntax),
    (b"fmm 1 field\ncharge -0 0 1\n", 2, TextKind::Syntax),
    (b"fmm 1 field\ncharge - 0 1\n", 2, TextKind::Syntax),
    (b"fmm 1 field\ncharge  0 0 1\n", 2, TextKind::Syntax),
    (b"fmm 1 field\ncharge 0 0 1 \n", 2, TextKind::Syntax),
    (b"fmm 1 field\n charge 0 0 1\n", 2, TextKind::Syntax),
    (b"fmm 1 field\ncharge 0\t0 1\n", 2, TextKind::Syntax),
    (b"fmm 1 field\ncharge 0 0 1\r\n", 2, TextKind::Syntax),
    (b"fmm 1 field\ncharge 0 0 1\0\n", 2, TextKind::Syntax),
    (b"fmm 1 field\ncharge 0 0 \xC2\xB2\n", 2, TextKind::Syntax),
    (
        b"fmm 1 field\ntarget 0 0\ncharge 0 0 1",
        3,
        TextKind::Syntax,
    ),
    (b"fmm 1 field\n\n", 2, TextKind::Syntax),
    (
        b"fmm 1 field\ntarget 0 0\nTarget 0 0\n",
        3,
        TextKind::Syntax,
    ),
    (b"fmm 1 field\ntarget 32768 0\n", 2, TextKind::Range),
    (b"fmm 1 field\ntarget 0 -32769\n", 2, TextKind::Range),
    (b"fmm 1 field\ndipole 0 0 0 -1048577\n", 2, TextKind::Range),
    (
        b"fmm 1 field\ntarget 0 1234567890123456789012345678901234567890\n",
        2,
        TextKind::Range,
    ),
];

const TEXTS: [(&[u8], usize); 4] = [
    (b"fmm 1 field\n", 0),
    (b"fmm 1 field\ncharge 0 0 1\ntarget 3 4\n", 2),
    (
        b"fmm 1 velocity\nvortex 0 0 1\ndipole -32768 32767 -1048576 1048576\ntarget 1 0\n",
        3,
    ),
    (b"fmm 1 field\ncharge 5 5 0\ncharge 5 5 -7\n", 2),
];

/// Each text has its first fault on that line, of that kind.
pub(crate) fn have_faults(rt: &impl Abort, alloc: Global, faults: &[(&[u8], u64, TextKind)]) {
    for &(text, line, what) in faults {
        assert_eq!(rt;
            (parse(alloc, text).err(), first_fault(text)),
            (Some(ParseFault::Text { line, what }), Some((line, what)))
        );
    }
}

#[test]
fn faults_are_named(rt: HostRuntime) {
    have_faults(&rt, rt.alloc(), &FAULTS);
}

/// The text is of that version and has so many points, and is what they print to.
fn comes_back(
    rt: &impl Abort,
    alloc: Global,
    text: &[u8],
    version: u8,
    count: usize,
) -> Result<(), Fail> {
    let points = parse(alloc, text)?;
    assert_eq!(rt;
        (
            points.version,
            points.list.points().len(),
            first_fault(text)
        ),
        (version, count, None)
    );
    let printed = print(alloc, &points)?;
    assert_eq!(rt; printed.as_slice(), text);
    Ok(())
}

/// The texts are of that version, each with so many points, and are what these print to.
pub(crate) fn come_back(
    rt: &impl Abort,
    alloc: Global,
    version: u8,
    texts: &[(&[u8], usize)],
) -> Result<(), Fail> {
    for &(text, count) in texts {
        comes_back(rt, alloc, text, version, count)?;
    }
    Ok(())
}

#[test]
fn texts_are_read_and_printed_back(rt: HostRuntime) -> Result<(), Fail> {
    come_back(&rt, rt.alloc(), 1, &TEXTS)
}

/// The text of this head line with this line so many times.
pub(crate) fn text_of(
    alloc: Global,
    head: &[u8],
    count: u32,
    line: &[u8],
) -> Result<Vec<u8>, Fail> {
    let mut text = Vec::from_slice(alloc, head)?;
    for _ in 0..count {
        text.extend_from_slice(line)?;
    }
    Ok(text)
}

#[test]
fn the_weight_has_a_limit(rt: HostRuntime) -> Result<(), Fail> {
    let mut text = text_of(
        rt.alloc(),
        b"fmm 1 field\n",
        32,
        b"dipole 0 0 1048576 1048576\n",
    )?;
    let most = first_fault(text.as_slice());
    text.extend_from_slice(b"charge 0 0 1\n")?;
    let more = first_fault(text.as_slice());
    assert_eq!(rt; (most, more), (None, Some((34, TextKind::Strength))));
    Ok(())
}

/// How many points the text has.
pub(crate) fn count_of(alloc: Global, text: &[u8]) -> Result<usize, Fail> {
    Ok(parse(alloc, text)?.list.points().len())
}

#[test]
fn the_list_has_a_limit(rt: HostRuntime) -> Result<(), Fail> {
    let mut text = text_of(rt.alloc(), b"fmm 1 field\n", 65_536, b"target 0 0\n")?;
    let most = count_of(rt.alloc(), text.as_slice())?;
    text.extend_from_slice(b"target 0 0\n")?;
    let more = first_fault(text.as_slice());
    assert_eq!(rt; (most, more), (65_536, Some((65_538, TextKind::Many))));
    Ok(())
}

/// The point of a line of that version, and its pole, dipole and weight.
pub(crate) fn line_has(
    rt: &impl Abort,
    version: u8,
    line: &[u8],
    point: Point,
    pole: (i64, i64),
    dipole: (i64, i64),
    weight: u64,
)
    requires version { IsVersion version }
    requires range { InRange widest_grid point }
{
    assert_eq!(rt; parse_point(version, line), Ok(point));
    let got = (point.pole(), point.dipole(), point.weight64());
    assert_eq!(rt; got, (pole, dipole, weight));
}

#[test]
fn points_have_poles_and_weights(rt: HostRuntime) {
    let charge = Point {
        x: 1,
        y: -2,
        kind: Kind::Charge(-3),
    };
    let dipole = Point {
        x: 0,
        y: 0,
        kind: Kind::Dipole(5, -6),
    };
    let vortex = Point {
        x: 0,
        y: 0,
        kind: Kind::Vortex(7),
    };
    line_has(&rt, 1, b"charge 1 -2 -3", charge, (-3, 0), (0, 0), 3);
    line_has(&rt, 1, b"dipole 0 0 5 -6", dipole, (0, 0), (5, -6), 704);
    line_has(&rt, 1, b"vortex 0 0 7", vortex, (0, -7), (0, 0), 7);
}

#[test]
fn points_are_admitted(rt: HostRuntime) -> Result<(), Fail> {
    let charge = parse_point(1, b"charge 1 -2 -3")?;
    let heavy = 4_294_967_296 - 3;
    assert_eq!(rt;
        [
            admit(1, Mode::Field, 65_535, heavy, &charge),
            admit(1, Mode::Field, 65_535, heavy + 1, &charge),
            admit(1, Mode::Field, 65_536, heavy + 1, &charge),
            admit(1, Mode::Velocity, 65_536, heavy + 1, &charge)
        ],
        [
            None,
            Some(TextKind::Strength),
            Some(TextKind::Many),
            Some(TextKind::Mixed)
        ]
    );
    assert!(rt; charge.is_in_range(FIRST_GRID));
    Ok(())
}

#[test]
fn lines_outside_the_grid(rt: HostRuntime) {
    assert!(rt; in_grid(FIRST_GRID, -32_768, 32_767) && !in_grid(FIRST_GRID, 0, 32_768));
    assert_eq!(rt;
        [
            parse_point(1, b"target 0 32768"),
            parse_point(1, b"target 0")
        ],
        [Err(TextKind::Range), Err(TextKind::Syntax)]
    );
    one_reading();
    one_text();
}
