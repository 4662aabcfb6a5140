//! The worked certificate and changed ones, and first lines.
use crate::cert_lines::TREE;
use cell_name::Cell;
use cert_text::{CertFault, CertKind, Entry, Letter, one_reading, read_cert};
use complex_box::CBox;
use fixed_interval::Interval;
use std::alloc::Global;
use std::test::Fail;

const HEAD: &[u8] = b"fmmcert 1 4 2 1 1 1";

const NODE: &[u8] = b"node 0 0 0 0";

const AT: &[u8] = b"at 0";

const M: &[u8] = b"m 1099511627776 1099511627776 0 0 0 0 0 0 0 0 0 0 0 0 0 0";

const U: &[u8] = b"u 0 0";

const L: &[u8] = b"l 0 0 0 0 0 0 0 0 0 0 0 0 0 0 0 0 0";

const T: &[u8] = b"t 1099511627776 1099511627776 0 0 1000000000000 1000000000000 0 0";

const END: &[u8] = b"end";

/// The worked certificate of a charge and a target.
const WORKED: [&[u8]; 9] = [HEAD, NODE, AT, AT, M, U, L, T, END];

const CUT_M: &[u8] = b"m 1099511627776";

const OTHER_M: &[u8] = b"m 1099511627777 1099511627777 0 0 0 0 0 0 0 0 0 0 0 0 0 0";

const WIDER_M: &[u8] = b"m 0 2199023255552 0 0 0 0 0 0 0 0 0 0 0 0 0 0";

const CROSSED_T: &[u8] = b"t 1099511627777 1099511627776 0 0 1000000000000 1000000000000 0 0";

const OTHER_T: &[u8] = b"t 1099511627776 1099511627776 0 0 1000000000001 1000000000001 0 0";

const NO_ENTRY: &[u8] = b"fmmcert 1 4 2 1 1 0";

const TWO_ENTRIES: &[u8] = b"fmmcert 1 4 2 1 1 2";

const NO_TARGET: &[u8] = b"fmmcert 1 4 2 0 1 1";

type First = Option<(u64, CertKind)>;

/// Changed ones, each with its first fault. Whether what they claim of the points holds is no matter of their lines.
const CHANGED: [(&[&[u8]], First); 9] = [
    (&[HEAD, NODE, AT, AT, CUT_M], Some((5, CertKind::Syntax))),
    (
        &[HEAD, NODE, AT, AT, M, U, L, CROSSED_T, END],
        Some((8, CertKind::Range)),
    ),
    (&[HEAD, NODE, AT, AT, OTHER_M, U, L, T, END], None),
    (&[NO_ENTRY, NODE, AT, AT, M, L, T, END], None),
    (
        &[HEAD, NODE, AT, AT, M, L, T, END],
        Some((6, CertKind::Syntax)),
    ),
    (&[TWO_ENTRIES, NODE, AT, AT, M, U, U, L, T, END], None),
    (&[HEAD, NODE, AT, AT, M, U, L, OTHER_T, END], None),
    (&[NO_TARGET, NODE, AT, AT, M, U, L, END], None),
    (&[HEAD, NODE, AT, AT, WIDER_M, U, L, T, END], None),
];

const HEADS: [(&[u8], First); 66] = [
    (b"", Some((1, CertKind::Syntax))),
    (b"\n", Some((1, CertKind::Syntax))),
    (b"end\n", Some((1, CertKind::Syntax))),
    (b"fmmcert 1 4 0 0 0 0", Some((1, CertKind::Syntax))),
    (b"fmmcert 1 4 0 0 0 0\nend\n", None),
    (b"fmmcert 1 8 0 0 0 0\nend\n", None),
    (b"fmmcert 1 16 0 0 0 0\nend\n", None),
    (b"fmmcert 1 24 0 0 0 0\nend\n", None),
    (b"fmmcert 2 4 0 0 0 0\nend\n", None),
    (b"fmmcert 2 8 0 0 0 0\nend\n", None),
    (b"fmmcert 2 16 0 0 0 0\nend\n", None),
    (b"fmmcert 2 24 0 0 0 0\nend\n", None),
    (b"fmmcert 2 32 0 0 0 0\nend\n", None),
    (b"fmmcert 1 32 0 0 0 0\nend\n", Some((1, CertKind::Syntax))),
    (b"fmmcert 2 0 0 0 0 0\nend\n", Some((1, CertKind::Syntax))),
    (b"fmmcert 2 5 0 0 0 0\nend\n", Some((1, CertKind::Syntax))),
    (b"fmmcert 2 40 0 0 0 0\nend\n", Some((1, CertKind::Syntax))),
    (b"fmmcert 2 -4 0 0 0 0\nend\n", Some((1, CertKind::Syntax))),
    (
        b"fmmcert 2 4294967300 0 0 0 0\nend\n",
        Some((1, CertKind::Syntax)),
    ),
    (b"fmmcert 0 4 0 0 0 0\nend\n", Some((1, CertKind::Syntax))),
    (b"fmmcert 3 4 0 0 0 0\nend\n", Some((1, CertKind::Syntax))),
    (b"fmmcert -1 4 0 0 0 0\nend\n", Some((1, CertKind::Syntax))),
    (
        b"fmmcert 18446744073709551617 4 0 0 0 0\nend\n",
        Some((1, CertKind::Syntax)),
    ),
    (b"fmmcert 1 4 0 0 0\nend\n", Some((1, CertKind::Syntax))),
    (b"fmmcert 1 4 0 0 0 0 0\nend\n", Some((1, CertKind::Syntax))),
    (b"fmmcert 01 4 0 0 0 0\nend\n", Some((1, CertKind::Syntax))),
    (b"fmmcert 1 04 0 0 0 0\nend\n", Some((1, CertKind::Syntax))),
    (b"fmmcert 1 4 +0 0 0 0\nend\n", Some((1, CertKind::Syntax))),
    (b"fmmcert 1 4 0 0 0 -0\nend\n", Some((1, CertKind::Syntax))),
    (b"fmmcert  1 4 0 0 0 0\nend\n", Some((1, CertKind::Syntax))),
    (b"fmmcert 1 4 0 0 0 0 \nend\n", Some((1, CertKind::Syntax))),
    (b"fmmcert\nend\n", Some((1, CertKind::Syntax))),
    (b"Fmmcert 1 4 0 0 0 0\nend\n", Some((1, CertKind::Syntax))),
    (b"fmm 1 4 0 0 0 0\nend\n", Some((1, CertKind::Syntax))),
    (b" fmmcert 1 4 0 0 0 0\nend\n", Some((1, CertKind::Syntax))),
    (b"fmmcert 1 4 0 0 0 0\r\nend\n", Some((1, CertKind::Syntax))),
    (
        b"fmmcert 1 4 65536 0 0 0\nend\n",
        Some((2, CertKind::Syntax)),
    ),
    (
        b"fmmcert 1 4 65537 0 0 0\nend\n",
        Some((1, CertKind::Range)),
    ),
    (
        b"fmmcert 1 4 0 65536 0 0\nend\n",
        Some((2, CertKind::Syntax)),
    ),
    (
        b"fmmcert 1 4 0 65537 0 0\nend\n",
        Some((1, CertKind::Range)),
    ),
    (
        b"fmmcert 1 4 0 0 65536 0\nend\n",
        Some((2, CertKind::Syntax)),
    ),
    (
        b"fmmcert 1 4 0 0 65537 0\nend\n",
        Some((1, CertKind::Range)),
    ),
    (
        b"fmmcert 1 4 0 0 0 268435455\nend\n",
        Some((2, CertKind::Syntax)),
    ),
    (
        b"fmmcert 1 4 0 0 0 268435456\nend\n",
        Some((1, CertKind::Range)),
    ),
    (
        b"fmmcert 2 4 131072 0 0 0\nend\n",
        Some((2, CertKind::Syntax)),
    ),
    (
        b"fmmcert 2 4 131073 0 0 0\nend\n",
        Some((1, CertKind::Range)),
    ),
    (
        b"fmmcert 2 4 0 131072 0 0\nend\n",
        Some((2, CertKind::Syntax)),
    ),
    (
        b"fmmcert 2 4 0 131073 0 0\nend\n",
        Some((1, CertKind::Range)),
    ),
    (
        b"fmmcert 2 4 0 0 131072 0\nend\n",
        Some((2, CertKind::Syntax)),
    ),
    (
        b"fmmcert 2 4 0 0 131073 0\nend\n",
        Some((1, CertKind::Range)),
    ),
    (
        b"fmmcert 2 4 0 0 0 536870911\nend\n",
        Some((2, CertKind::Syntax)),
    ),
    (
        b"fmmcert 2 4 0 0 0 536870912\nend\n",
        Some((1, CertKind::Range)),
    ),
    (b"fmmcert 1 4 -1 0 0 0\nend\n", Some((1, CertKind::Range))),
    (b"fmmcert 1 4 0 -1 0 0\nend\n", Some((1, CertKind::Range))),
    (b"fmmcert 1 4 0 0 -1 0\nend\n", Some((1, CertKind::Range))),
    (b"fmmcert 1 4 0 0 0 -1\nend\n", Some((1, CertKind::Range))),
    (
        b"fmmcert 2 32 0 0 0 1234567890123456789012345678901234567890\nend\n",
        Some((1, CertKind::Range)),
    ),
    (
        b"fmmcert 1 5 65537 0 0 0\nend\n",
        Some((1, CertKind::Syntax)),
    ),
    (b"fmmcert 3 4 0 0 -1 0\nend\n", Some((1, CertKind::Syntax))),
    (
        b"fmmcert 1 4 65537 0 0 00\nend\n",
        Some((1, CertKind::Syntax)),
    ),
    (b"fmmcert 1 4 65537 0 0 0", Some((1, CertKind::Syntax))),
    (b"fmmcert 2 32 0 0 0 0\n", Some((2, CertKind::Syntax))),
    (b"fmmcert 2 32 0 0 0 0\nend", Some((2, CertKind::Syntax))),
    (
        b"fmmcert 2 32 0 0 0 0\nend\n\n",
        Some((3, CertKind::Syntax)),
    ),
    (
        b"fmmcert 2 32 0 0 0 0\nend\nend\n",
        Some((3, CertKind::Syntax)),
    ),
    (b"fmmcert 2 32 0 0 0 0\nend\n ", Some((3, CertKind::Syntax))),
];

/// The text of lines.
pub(crate) fn joined(alloc: Global, lines: &[&[u8]]) -> Result<Vec<u8>, Fail> {
    let mut text = Vec::new(alloc);
    for &line in lines {
        text.extend_from_slice(line)?;
        text.push(b'\n')?;
    }
    Ok(text)
}

/// What is wrong with the bytes: the first line at fault, and how.
pub(crate) fn fault_of(alloc: Global, bytes: &[u8]) -> Option<CertFault> {
    read_cert(alloc, bytes).err()
}

#[test]
fn first_lines_have_faults(rt: HostRuntime) {
    for &(text, first) in &HEADS {
        let fault = first.map(|(line, what)| CertFault::Text { line, what });
        assert_eq!(&rt; fault_of(rt.alloc(), text), fault);
    }
    one_reading();
}

#[test]
fn changed_certificates_have_faults(rt: HostRuntime) -> Result<(), Fail> {
    for &(lines, first) in &CHANGED {
        let fault = first.map(|(line, what)| CertFault::Text { line, what });
        let text = joined(rt.alloc(), lines)?;
        assert_eq!(&rt; fault_of(rt.alloc(), text.as_slice()), fault);
    }
    Ok(())
}

/// A text that is cut has its fault on the line behind the last line feed.
#[test]
fn cut_certificates_have_faults(rt: HostRuntime) -> Result<(), Fail> {
    let text = joined(rt.alloc(), &WORKED)?;
    assert_eq!(rt; fault_of(rt.alloc(), text.as_slice()), None);
    let what = CertKind::Syntax;
    let mut line: u64 = 1;
    for (k, &byte) in text.as_slice().iter().enumerate() {
        let fault = fault_of(rt.alloc(), &text.as_slice()[..k]);
        assert_eq!(rt; fault, Some(CertFault::Text { line, what }));
        line = line.wrapping_add(u64::from(byte == b'\n'));
    }
    assert_eq!(rt; line, 10);
    Ok(())
}

#[test]
fn the_worked_certificate_is_read(rt: HostRuntime) -> Result<(), Fail> {
    let text = joined(rt.alloc(), &WORKED)?;
    let cert = read_cert(rt.alloc(), text.as_slice())?;
    assert_eq!(rt; (cert.version(), cert.order()), (1, 4));
    assert_eq!(rt; cert.points(), 2);
    assert_eq!(rt; cert.cells(), 1);
    let root = Cell {
        level: 0,
        i: 0,
        j: 0,
        grid: 16,
    };
    assert_eq!(rt; cert.node(0), (0, root));
    assert_eq!(rt; [cert.at(0), cert.at(1)], [0, 0]);
    let one = Interval::point(1_099_511_627_776);
    let zero = Interval::point(0);
    assert_eq!(rt; cert.up(0, 0), CBox { re: one, im: zero });
    assert_eq!(rt; cert.up(0, 3), CBox { re: zero, im: zero });
    assert_eq!(rt; cert.radius(0), 0);
    assert_eq!(rt; cert.local(0, 0), CBox { re: zero, im: zero });
    Ok(())
}

#[test]
fn the_worked_target_is_read(rt: HostRuntime) -> Result<(), Fail> {
    let text = joined(rt.alloc(), &WORKED)?;
    let cert = read_cert(rt.alloc(), text.as_slice())?;
    assert_eq!(rt; cert.entries(), 1);
    assert_eq!(rt; cert.targets(), 1);
    let entry = Entry {
        letter: Letter::U,
        b: 0,
        c: 0,
    };
    assert_eq!(rt; cert.entry(0), entry);
    let one = Interval::point(1_099_511_627_776);
    let zero = Interval::point(0);
    assert_eq!(rt; cert.target(0), CBox { re: one, im: zero });
    let whole = 1_000_000_000_000;
    assert_eq!(rt; cert.counts(0), [whole, whole, 0, 0]);
    Ok(())
}

#[test]
fn later_nodes_are_read(rt: HostRuntime) -> Result<(), Fail> {
    let text = joined(rt.alloc(), &TREE)?;
    let cert = read_cert(rt.alloc(), text.as_slice())?;
    assert_eq!(rt; cert.order(), 4);
    assert_eq!(rt; cert.cells(), 3);
    assert_eq!(rt; cert.points(), 2);
    let cell = Cell {
        level: 1,
        i: 1,
        j: 1,
        grid: 16,
    };
    assert_eq!(rt; cert.node(2), (0, cell));
    assert_eq!(rt; cert.at(1), 2);
    let up = CBox {
        re: Interval::new(-4, -3),
        im: Interval::new(-2, -1),
    };
    assert_eq!(rt; cert.up(1, 3), up);
    assert_eq!(rt; cert.radius(2), 5);
    let local = CBox {
        re: Interval::new(-13, 14),
        im: Interval::new(-15, 16),
    };
    assert_eq!(rt; cert.local(2, 3), local);
    Ok(())
}

#[test]
fn later_entries_are_read(rt: HostRuntime) -> Result<(), Fail> {
    let text = joined(rt.alloc(), &TREE)?;
    let cert = read_cert(rt.alloc(), text.as_slice())?;
    assert_eq!(rt; cert.entries(), 2);
    assert_eq!(rt; cert.targets(), 1);
    let entry = Entry {
        letter: Letter::V,
        b: 1,
        c: 2,
    };
    assert_eq!(rt; cert.entry(1), entry);
    let target = CBox {
        re: Interval::new(-1, 2),
        im: Interval::new(-3, 4),
    };
    assert_eq!(rt; cert.target(0), target);
    assert_eq!(rt; cert.counts(0), [-5, 6, -7, 8]);
    Ok(())
}
