//! Every form of a line of a certificate, and both sides of each border of its ranges.
use crate::certificates::{fault_of, joined};
use cert_text::{CertFault, CertKind};
use std::alloc::Global;
use std::process::Abort;
use std::test::Fail;

/// What is wrong with a line, or nothing.
type Verdict = Option<CertKind>;

/// A line, counted from 1, what is wrong with each of these in its place in version 1, and in version 2.
type Changes = (usize, Verdict, Verdict, &'static [&'static [u8]]);

const OK: Verdict = None;

const SYNTAX: Verdict = Some(CertKind::Syntax);

const RANGE: Verdict = Some(CertKind::Range);

/// A root with two leaves.
pub(crate) const TREE: [&[u8]; 16] = [
    b"fmmcert 1 4 2 1 3 2",
    b"node 0 0 0 0",
    b"node 0 1 0 0",
    b"node 0 1 1 1",
    b"at 1",
    b"at 2",
    b"m 1 2 3 4 5 6 7 8 9 10 11 12 13 14 15 16",
    b"m -16 -15 -14 -13 -12 -11 -10 -9 -8 -7 -6 -5 -4 -3 -2 -1",
    b"m -",
    b"u 2 1",
    b"v 1 2",
    b"l -",
    b"l -",
    b"l 5 1 2 3 4 5 6 7 8 9 10 11 12 -13 14 -15 16",
    b"t -1 2 -3 4 -5 6 -7 8",
    b"end",
];

const NODES: [Changes; 8] = [
    (2, OK, OK, &[b"node 0 0 0 0"]),
    (
        2,
        RANGE,
        RANGE,
        &[
            b"node 1 0 0 0",
            b"node -1 0 0 0",
            b"node 0 0 1 0",
            b"node 0 0 0 1",
            b"node 0 0 -1 0",
            b"node 0 0 0 -1",
            b"node 0 0 0 1234567890123456789012345678901234567890",
        ],
    ),
    (3, OK, OK, &[b"node 0 16 65535 65535"]),
    (
        3,
        RANGE,
        OK,
        &[b"node 0 17 131071 131071", b"node 0 20 1048575 1048575"],
    ),
    (
        3,
        RANGE,
        RANGE,
        &[
            b"node 1 1 0 0",
            b"node -1 1 0 0",
            b"node 0 16 65536 0",
            b"node 0 16 0 65536",
            b"node 0 20 1048576 0",
            b"node 0 20 0 1048576",
            b"node 0 21 0 0",
            b"node 0 -1 0 0",
            b"node 0 256 0 0",
        ],
    ),
    (
        3,
        SYNTAX,
        SYNTAX,
        &[
            b"node 0 1 0",
            b"node 0 1 0 0 0",
            b"node",
            b"nodes 0 1 0 0",
            b"Node 0 1 0 0",
            b"at 0",
            b"node 00 1 0 0",
            b"node 0 +1 0 0",
            b"node 0 1 -0 0",
            b"node 0 1  0 0",
            b"node 0 1 0 0 ",
            b" node 0 1 0 0",
            b"node 0\t1 0 0",
            b"node 0 1 0 0\r",
            b"node 0 1 0 1-",
            b"",
            b"node 0 21 0 00",
            b"node 9 9 9 9 9",
        ],
    ),
    (4, OK, OK, &[b"node 1 1 1 1"]),
    (4, RANGE, RANGE, &[b"node 2 1 1 1"]),
];

const POINTS_AND_ENTRIES: [Changes; 6] = [
    (5, OK, OK, &[b"at 0", b"at 2"]),
    (
        5,
        RANGE,
        RANGE,
        &[
            b"at 3",
            b"at -1",
            b"at 18446744073709551616",
            b"at 1234567890123456789012345678901234567890",
        ],
    ),
    (
        5,
        SYNTAX,
        SYNTAX,
        &[
            b"at",
            b"at 1 1",
            b"at 01",
            b"at +1",
            b"at -0",
            b"at  1",
            b"at 1 ",
            b"at 1.",
            b"att 1",
            b"node 0 1 0 0",
        ],
    ),
    (10, OK, OK, &[b"u 0 0", b"v 2 2", b"w 0 2", b"x 2 0"]),
    (
        10,
        RANGE,
        RANGE,
        &[
            b"u 3 0",
            b"v 0 3",
            b"w -1 0",
            b"x 0 -1",
            b"x 0 18446744073709551616",
        ],
    ),
    (
        10,
        SYNTAX,
        SYNTAX,
        &[
            b"y 0 0", b"U 0 0", b"uv 0 0", b"u 0", b"u 0 0 0", b"u", b"- 0 0", b"u 0 -0",
            b"u 3 00", b"",
        ],
    ),
];

const MULTIPOLE_ROWS: [Changes; 3] = [
    (
        7,
        OK,
        OK,
        &[
            b"m -",
            b"m -1208925819614629174706176 1208925819614629174706176 0 0 0 0 0 0 0 0 0 0 0 0 0 0",
            b"m 0 0 0 0 0 0 0 0 0 0 0 0 0 0 -1208925819614629174706176 1208925819614629174706176",
        ],
    ),
    (
        7,
        RANGE,
        RANGE,
        &[
            b"m 0 1208925819614629174706177 0 0 0 0 0 0 0 0 0 0 0 0 0 0",
            b"m -1208925819614629174706177 0 0 0 0 0 0 0 0 0 0 0 0 0 0 0",
            b"m 0 0 0 0 0 0 0 0 0 0 0 0 0 0 0 1208925819614629174706177",
            b"m 1 0 0 0 0 0 0 0 0 0 0 0 0 0 0 0",
            b"m 0 0 0 0 0 0 0 0 0 0 0 0 0 0 1 0",
            b"m 0 0 -1208925819614629174706176 -1208925819614629174706177 0 0 0 0 0 0 0 0 0 0 0 0",
        ],
    ),
    (
        7,
        SYNTAX,
        SYNTAX,
        &[
            b"m",
            b"m 0",
            b"m - ",
            b"m - 0",
            b"m -0",
            b"m  -",
            b"-",
            b"m 0 0 0 0 0 0 0 0 0 0 0 0 0 0 0",
            b"m 0 0 0 0 0 0 0 0 0 0 0 0 0 0 0 0 0",
            b"m 1 0 0 0 0 0 0 0 0 0 0 0 0 0 0",
            b"m 1 0 0 0 0 0 0 0 0 0 0 0 0 0 0 0 ",
            b"m 0 1208925819614629174706177 0 0 0 0 0 0 0 0 0 0 0 0 0 0 0",
            b"l -",
        ],
    ),
];

const LOCAL_ROWS: [Changes; 3] = [
    (
        12,
        OK,
        OK,
        &[
            b"l -",
            b"l 0 0 0 0 0 0 0 0 0 0 0 0 0 0 0 0 0",
            b"l 1237940039285380274899124224 0 0 0 0 0 0 0 0 0 0 0 0 0 0 0 0",
            b"l 0 -1237940039285380274899124224 1237940039285380274899124224 0 0 0 0 0 0 0 0 0 0 0 0 0 0",
            b"l 0 0 0 0 0 0 0 0 0 0 0 0 0 0 0 -1237940039285380274899124224 1237940039285380274899124224",
        ],
    ),
    (
        12,
        RANGE,
        RANGE,
        &[
            b"l 1237940039285380274899124225 0 0 0 0 0 0 0 0 0 0 0 0 0 0 0 0",
            b"l -1 0 0 0 0 0 0 0 0 0 0 0 0 0 0 0 0",
            b"l 0 0 1237940039285380274899124225 0 0 0 0 0 0 0 0 0 0 0 0 0 0",
            b"l 0 -1237940039285380274899124225 0 0 0 0 0 0 0 0 0 0 0 0 0 0 0",
            b"l 0 0 0 0 0 0 0 0 0 0 0 0 0 0 0 0 1237940039285380274899124225",
            b"l 0 1 0 0 0 0 0 0 0 0 0 0 0 0 0 0 0",
            b"l 0 0 0 0 0 0 0 0 0 0 0 0 0 0 0 1 0",
        ],
    ),
    (
        12,
        SYNTAX,
        SYNTAX,
        &[
            b"l",
            b"l 0",
            b"l - ",
            b"l - 0",
            b"l -0",
            b"l 0 0 0 0 0 0 0 0 0 0 0 0 0 0 0 0",
            b"l 0 0 0 0 0 0 0 0 0 0 0 0 0 0 0 0 0 0",
            b"l -1 0 0 0 0 0 0 0 0 0 0 0 0 0 0 0",
            b"l 00 0 0 0 0 0 0 0 0 0 0 0 0 0 0 0 0",
            b"m -",
        ],
    ),
];

const TARGETS_AND_END: [Changes; 6] = [
    (
        15,
        OK,
        OK,
        &[
            b"t -19342813113834066795298816 19342813113834066795298816 0 0 0 0 0 0",
            b"t 0 0 0 0 0 0 -19342813113834066795298816 19342813113834066795298816",
        ],
    ),
    (
        15,
        RANGE,
        OK,
        &[
            b"t 0 19342813113834066795298817 0 0 0 0 0 0",
            b"t -19342813113834066795298817 0 0 0 0 0 0 0",
            b"t 0 0 0 0 0 0 0 19342813113834066795298817",
            b"t -79228162514264337593543950336 79228162514264337593543950336 0 0 0 0 0 0",
            b"t 0 0 0 0 0 0 -79228162514264337593543950336 79228162514264337593543950336",
        ],
    ),
    (
        15,
        RANGE,
        RANGE,
        &[
            b"t 0 79228162514264337593543950337 0 0 0 0 0 0",
            b"t -79228162514264337593543950337 0 0 0 0 0 0 0",
            b"t 0 0 0 0 0 0 0 79228162514264337593543950337",
            b"t 1 0 0 0 0 0 0 0",
            b"t 0 0 1 0 0 0 0 0",
            b"t 0 0 0 0 1 0 0 0",
            b"t 0 0 0 0 0 0 1 0",
        ],
    ),
    (
        15,
        SYNTAX,
        SYNTAX,
        &[
            b"t",
            b"t -",
            b"t 0 0 0 0 0 0 0",
            b"t 0 0 0 0 0 0 0 0 0",
            b"t 1 0 0 0 0 0 0",
            b"t 0 0 0 0 0 0 0 00",
            b"t 0 0 0 0 0 0 0 0 ",
            b"t 0 0 0 0 0 0 0  0",
            b"end",
        ],
    ),
    (16, OK, OK, &[b"end"]),
    (
        16,
        SYNTAX,
        SYNTAX,
        &[
            b"End",
            b"ends",
            b"end 0",
            b"end ",
            b" end",
            b"",
            b"t 0 0 0 0 0 0 0 0",
        ],
    ),
];

/// The tree, with this first line and with another line changed, is at fault on that line or nowhere.
fn changed_has(
    rt: &impl Abort,
    alloc: Global,
    head: &'static [u8],
    line: usize,
    with: &'static [u8],
    verdict: Verdict,
) -> Result<(), Fail> {
    let mut lines = TREE;
    lines[0] = head;
    if 0 < line && line <= 16 {
        lines[line - 1] = with;
    }
    let text = joined(alloc, &lines)?;
    let fault = verdict.map(|what| CertFault::Text {
        line: line as u64,
        what,
    });
    assert_eq!(rt; fault_of(alloc, text.as_slice()), fault);
    Ok(())
}

/// Each change has its verdicts.
fn changes_have(rt: &impl Abort, alloc: Global, changes: &[Changes]) -> Result<(), Fail> {
    for &(line, first, second, texts) in changes {
        for &with in texts {
            changed_has(rt, alloc, b"fmmcert 1 4 2 1 3 2", line, with, first)?;
            changed_has(rt, alloc, b"fmmcert 2 4 2 1 3 2", line, with, second)?;
        }
    }
    Ok(())
}

#[test]
fn nodes_have_borders(rt: HostRuntime) -> Result<(), Fail> {
    changes_have(&rt, rt.alloc(), &NODES)
}

#[test]
fn points_and_entries_have_borders(rt: HostRuntime) -> Result<(), Fail> {
    changes_have(&rt, rt.alloc(), &POINTS_AND_ENTRIES)
}

#[test]
fn multipole_rows_have_borders(rt: HostRuntime) -> Result<(), Fail> {
    changes_have(&rt, rt.alloc(), &MULTIPOLE_ROWS)
}

#[test]
fn local_rows_have_borders(rt: HostRuntime) -> Result<(), Fail> {
    changes_have(&rt, rt.alloc(), &LOCAL_ROWS)
}

#[test]
fn targets_and_end_have_borders(rt: HostRuntime) -> Result<(), Fail> {
    changes_have(&rt, rt.alloc(), &TARGETS_AND_END)
}
