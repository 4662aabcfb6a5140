//! Certificates and what `check` says of them, through the top call.
use crate::ports::{Ports, SURE, checked};
use fmm_program::Status;
use std::alloc::Global;
use std::process::Abort;
use std::test::Fail;
use std::thread::Threads;

/// A charge at the middle of the grid, and a target.
const POINTS: &[u8] = b"fmm 1 field\ncharge 0 0 1\ntarget 1 0\n";

/// The certificate that a solve of them writes at order 4, line by line.
const WORKED: [&str; 9] = [
    "fmmcert 1 4 2 1 1 1\n",
    "node 0 0 0 0\n",
    "at 0\n",
    "at 0\n",
    "m 1099511627776 1099511627776 0 0 0 0 0 0 0 0 0 0 0 0 0 0\n",
    "u 0 0\n",
    "l 0 0 0 0 0 0 0 0 0 0 0 0 0 0 0 0 0\n",
    "t 1099511627776 1099511627776 0 0 1000000000000 1000000000000 0 0\n",
    "end\n",
];

/// A certificate of the same points that no solve writes: two nodes share a cell.
const FORGED: [&str; 15] = [
    "fmmcert 1 4 2 1 3 1\n",
    "node 0 0 0 0\n",
    "node 0 1 1 1\n",
    "node 0 1 1 1\n",
    "at 1\n",
    "at 2\n",
    "m 1099511627776 1099511627776 0 0 0 0 0 0 0 0 0 0 0 0 0 0\n",
    "m 1099511627776 1099511627776 0 0 -549755813888 -549755813888 -549755813888 -549755813888 0 0 549755813888 549755813888 274877906944 274877906944 -274877906944 -274877906944\n",
    "m -\n",
    "u 2 1\n",
    "l -\n",
    "l -\n",
    "l -\n",
    "t 1099511627776 1099511627776 0 0 1000000000000 1000000000000 0 0\n",
    "end\n",
];

/// Other texts in place of some lines, by their numbers from 1 on, and what `check` says then.
type Change = (&'static [(usize, &'static str)], Status, &'static [u8]);

const CHANGES: [Change; 9] = [
    (&[], Status::Done, b"accepted targets 1\n"),
    (
        &[(5, "m 1099511627776"), (6, ""), (7, ""), (8, ""), (9, "")],
        Status::Rejected,
        b"rejected syntax line 5\n",
    ),
    (
        &[(
            8,
            "t 1099511627777 1099511627776 0 0 1000000000000 1000000000000 0 0\n",
        )],
        Status::Rejected,
        b"rejected range line 8\n",
    ),
    (
        &[(
            5,
            "m 1099511627777 1099511627777 0 0 0 0 0 0 0 0 0 0 0 0 0 0\n",
        )],
        Status::Rejected,
        b"rejected c2 line 5\n",
    ),
    (
        &[(1, "fmmcert 1 4 2 1 1 0\n"), (6, "")],
        Status::Rejected,
        b"rejected c6 line 6\n",
    ),
    (
        &[(1, "fmmcert 1 4 2 1 1 2\n"), (6, "u 0 0\nu 0 0\n")],
        Status::Rejected,
        b"rejected c6 line 8\n",
    ),
    (
        &[(
            8,
            "t 1099511627776 1099511627776 0 0 1000000000001 1000000000001 0 0\n",
        )],
        Status::Rejected,
        b"rejected c7 line 8\n",
    ),
    (
        &[(1, "fmmcert 1 4 2 0 1 1\n"), (8, "")],
        Status::Rejected,
        b"rejected c8 line 1\n",
    ),
    (
        &[(5, "m 0 2199023255552 0 0 0 0 0 0 0 0 0 0 0 0 0 0\n")],
        Status::Done,
        b"accepted targets 1\n",
    ),
];

const FORGED_CHANGES: [Change; 9] = [
    (&[], Status::Done, b"accepted targets 1\n"),
    (
        &[(4, "node 0 1 0 0\n")],
        Status::Rejected,
        b"rejected c1 line 6\n",
    ),
    (
        &[(4, "node 0 1 2 0\n")],
        Status::Rejected,
        b"rejected range line 4\n",
    ),
    (&[(6, "at 0\n")], Status::Rejected, b"rejected c1 line 6\n"),
    (
        &[(
            7,
            "m 1099511627777 1099511627777 0 0 0 0 0 0 0 0 0 0 0 0 0 0\n",
        )],
        Status::Rejected,
        b"rejected c3 line 7\n",
    ),
    (
        &[(10, "v 2 1\n")],
        Status::Rejected,
        b"rejected c5 line 10\n",
    ),
    (
        &[(13, "l 0 1 1 0 0 0 0 0 0 0 0 0 0 0 0 0 0\n")],
        Status::Rejected,
        b"rejected c4 line 13\n",
    ),
    (
        &[(10, "u 1 1\n")],
        Status::Rejected,
        b"rejected c6 line 13\n",
    ),
    (
        &[(15, "end\nend\n")],
        Status::Rejected,
        b"rejected syntax line 16\n",
    ),
];

/// The text in place of a line, if there is one.
fn in_place<'a>(line: &'a str, number: usize, changes: &[(usize, &'a str)]) -> &'a str {
    for &(changed, text) in changes {
        if changed == number {
            return text;
        }
    }
    line
}

/// The lines, with other texts in place of some.
fn changed<'a>(
    alloc: Global,
    lines: &[&'a str],
    changes: &[(usize, &'a str)],
) -> Result<Vec<u8>, Fail> {
    let mut text = Vec::new(alloc);
    let mut number: usize = 0;
    for &line in lines {
        number = number.wrapping_add(1);
        text.extend_from_slice(in_place(line, number, changes).as_bytes())?;
    }
    Ok(text)
}

/// `check` says of these points and each change what it should.
fn says(
    rt: &(impl Abort + Threads + Sync),
    alloc: Global,
    points: &[u8],
    lines: &[&str],
    table: &[Change],
) -> Result<(), Fail> {
    for &(changes, status, written) in table {
        let text = changed(alloc, lines, changes)?;
        let out = checked(rt, alloc, points, text.as_slice(), SURE, status)?;
        assert_eq!(rt; out.held(), written);
    }
    Ok(())
}

#[test]
fn changed_certificates(rt: HostRuntime) -> Result<(), Fail> {
    says(&rt, rt.alloc(), POINTS, &WORKED, &CHANGES)
}

#[test]
fn forged_certificates(rt: HostRuntime) -> Result<(), Fail> {
    says(&rt, rt.alloc(), POINTS, &FORGED, &FORGED_CHANGES)
}

/// Two sources of no strength and a target, each in a quarter of the grid of its own.
const THREE_LEAVES: &[u8] = b"fmm 1 field\ncharge -1 -1 0\ncharge 0 -1 0\ntarget 0 0\n";

/// A certificate of them: all rows and the box are zero, and each source is accounted for by an entry of its own.
const TILED: [&str; 20] = [
    "fmmcert 1 4 3 1 4 2\n",
    "node 0 0 0 0\n",
    "node 0 1 0 0\n",
    "node 0 1 1 0\n",
    "node 0 1 1 1\n",
    "at 1\n",
    "at 2\n",
    "at 3\n",
    "m -\n",
    "m -\n",
    "m -\n",
    "m -\n",
    "u 3 1\n",
    "u 3 2\n",
    "l -\n",
    "l -\n",
    "l -\n",
    "l -\n",
    "t 0 0 0 0 0 0 0 0\n",
    "end\n",
];

/// One source twice and the other never, as many entries as before; the other way round; and the entries in another order.
const TILED_CHANGES: [Change; 4] = [
    (&[], Status::Done, b"accepted targets 1\n"),
    (
        &[(14, "u 3 1\n")],
        Status::Rejected,
        b"rejected c6 line 18\n",
    ),
    (
        &[(13, "u 3 2\n")],
        Status::Rejected,
        b"rejected c6 line 18\n",
    ),
    (
        &[(13, "u 3 2\n"), (14, "u 3 1\n")],
        Status::Done,
        b"accepted targets 1\n",
    ),
];

#[test]
fn tilings(rt: HostRuntime) -> Result<(), Fail> {
    says(&rt, rt.alloc(), THREE_LEAVES, &TILED, &TILED_CHANGES)
}

/// A source of no strength at the centre of a cell of side 16384, and a target three halves of that side from it.
const FAR: &[u8] = b"fmm 1 field\ncharge -8192 -24576 0\ntarget 16384 -24576\n";

/// The same, with the target one place nearer.
const TOO_NEAR: &[u8] = b"fmm 1 field\ncharge -8192 -24576 0\ntarget 16383 -24576\n";

/// A certificate of both, but for the distance.
const DISTANT: [&str; 18] = [
    "fmmcert 1 4 2 1 4 1\n",
    "node 0 0 0 0\n",
    "node 0 1 0 0\n",
    "node 0 1 1 0\n",
    "node 1 2 1 0\n",
    "at 3\n",
    "at 2\n",
    "m -\n",
    "m -\n",
    "m -\n",
    "m -\n",
    "w 2 3\n",
    "l -\n",
    "l -\n",
    "l -\n",
    "l -\n",
    "t 0 0 0 0 0 0 0 0\n",
    "end\n",
];

const FAR_CHANGES: [Change; 1] = [(&[], Status::Done, b"accepted targets 1\n")];

const TOO_NEAR_CHANGES: [Change; 2] = [
    (&[], Status::Rejected, b"rejected c5 line 12\n"),
    (&[(12, "u 2 3\n")], Status::Done, b"accepted targets 1\n"),
];

#[test]
fn distances(rt: HostRuntime) -> Result<(), Fail> {
    says(&rt, rt.alloc(), FAR, &DISTANT, &FAR_CHANGES)?;
    says(&rt, rt.alloc(), TOO_NEAR, &DISTANT, &TOO_NEAR_CHANGES)
}

/// Two charges that cancel at one place, two sides from the centre of a cell of side 16384, and a target at that centre.
const CANCELLING: &[u8] =
    b"fmm 1 field\ncharge 24576 -24576 1\ncharge 24576 -24576 -1\ntarget -8192 -24576\n";

/// A certificate of them: all rows are zero, and what the entry can lose of a weight of 2 at order 4 is 6674144 units.
const LOSING: [&str; 19] = [
    "fmmcert 1 4 3 1 4 1\n",
    "node 0 0 0 0\n",
    "node 0 1 0 0\n",
    "node 0 1 1 0\n",
    "node 1 2 1 0\n",
    "at 2\n",
    "at 2\n",
    "at 3\n",
    "m -\n",
    "m -\n",
    "m -\n",
    "m -\n",
    "x 3 2\n",
    "l -\n",
    "l -\n",
    "l -\n",
    "l 6674144 0 0 0 0 0 0 0 0 0 0 0 0 0 0 0 0\n",
    "t -6674144 6674144 -6674144 6674144 -6070099 6070099 -6070099 6070099\n",
    "end\n",
];

/// The radius one too small, or none; and the box or its counts one too narrow for it.
const LOSING_CHANGES: [Change; 5] = [
    (&[], Status::Done, b"accepted targets 1\n"),
    (
        &[(17, "l 6674143 0 0 0 0 0 0 0 0 0 0 0 0 0 0 0 0\n")],
        Status::Rejected,
        b"rejected c4 line 17\n",
    ),
    (&[(17, "l -\n")], Status::Rejected, b"rejected c4 line 17\n"),
    (
        &[(
            18,
            "t -6674144 6674143 -6674144 6674144 -6070099 6070099 -6070099 6070099\n",
        )],
        Status::Rejected,
        b"rejected c7 line 18\n",
    ),
    (
        &[(
            18,
            "t -6674144 6674144 -6674144 6674144 -6070099 6070098 -6070099 6070099\n",
        )],
        Status::Rejected,
        b"rejected c7 line 18\n",
    ),
];

#[test]
fn radii(rt: HostRuntime) -> Result<(), Fail> {
    says(&rt, rt.alloc(), CANCELLING, &LOSING, &LOSING_CHANGES)
}

/// The certificate of no points, without a node.
#[test]
fn no_points(rt: HostRuntime) -> Result<(), Fail> {
    let lines = ["fmmcert 1 4 0 0 0 0\n", "end\n"];
    let table: [Change; 1] = [(&[], Status::Done, b"accepted targets 0\n")];
    says(&rt, rt.alloc(), b"fmm 1 field\n", &lines, &table)
}

/// Points that are refused, before the certificate is looked at, or are of another version than the certificate.
const OTHERS: [(&[u8], Status, &[u8]); 4] = [
    (
        b"fmm 1 field\ncharge 00 0 1\n",
        Status::Refused,
        b"refused line 2 syntax\n",
    ),
    (
        b"fmm 2 field\ncharge 0 0 1\ntarget 1 0\n",
        Status::Rejected,
        b"rejected c8 line 1\n",
    ),
    (
        b"fmm 1 field\ncharge 0 0 1\n",
        Status::Rejected,
        b"rejected c8 line 1\n",
    ),
    (
        b"fmm 1 field\ncharge 0 0 2\ntarget 1 0\n",
        Status::Rejected,
        b"rejected c2 line 5\n",
    ),
];

#[test]
fn other_points(rt: HostRuntime) -> Result<(), Fail> {
    let cert = changed(rt.alloc(), &WORKED, &[])?;
    for &(points, status, written) in &OTHERS {
        let out = checked(&rt, rt.alloc(), points, cert.as_slice(), SURE, status)?;
        assert_eq!(&rt; out.held(), written);
    }
    Ok(())
}

/// Points that are refused are so also where the certificate can't be read, for it isn't read then.
#[test]
fn refused_points(rt: HostRuntime) -> Result<(), Fail> {
    let cert = changed(rt.alloc(), &WORKED, &[])?;
    let (points, status, written) = OTHERS[0];
    let ports = Ports {
        failing_certs: &[1],
        ..SURE
    };
    let out = checked(&rt, rt.alloc(), points, cert.as_slice(), ports, status)?;
    assert_eq!(&rt; out.held(), written);
    Ok(())
}

/// Each read of both inputs fails in its turn, and nothing is written; each write and the flush behind it do, and what was
/// taken before it stays.
#[test]
fn ports_fail(rt: HostRuntime) -> Result<(), Fail> {
    let alloc = rt.alloc();
    let cert = changed(alloc, &WORKED, &[])?;
    let accepted = b"accepted targets 1\n";
    for number in 1..3 {
        let reads = Ports {
            failing_reads: &[number],
            ..SURE
        };
        let out = checked(
            &rt,
            alloc,
            POINTS,
            cert.as_slice(),
            reads,
            Status::ReadFault,
        )?;
        assert_eq!(&rt; out.held(), b"".as_slice());
        let certs = Ports {
            failing_certs: &[number],
            ..SURE
        };
        let out = checked(
            &rt,
            alloc,
            POINTS,
            cert.as_slice(),
            certs,
            Status::ReadFault,
        )?;
        assert_eq!(&rt; out.held(), b"".as_slice());
    }
    for taken in 0..accepted.len() + 1 {
        let writes = Ports {
            step: 1,
            failing_writes: &[taken as u64 + 1],
            ..SURE
        };
        let out = checked(
            &rt,
            alloc,
            POINTS,
            cert.as_slice(),
            writes,
            Status::WriteFault,
        )?;
        assert_eq!(&rt; out.held(), &accepted[..taken]);
    }
    Ok(())
}
