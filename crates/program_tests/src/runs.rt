//! Worked examples of one leaf through the top call.
ghost use Rattle.std.specs.Prelude.{◌<◌};

use crate::ports::{Ports, SOLVE, SURE, expect, flush_fails, output_of, words_of};
use fmm_program::{Opening, Status, plan, run};
use io_ports::{BrokenSink, BrokenSource, DropSink, MemSink, Sink, SureSource};
use row_phases::OpenGate;
use std::alloc::Global;
use std::process::Abort;
use std::test::Fail;
use std::thread::Threads;

const SOLVE_WIDE: [&str; 4] = ["solve", "8", "1024", "-"];

const ONE_PAIR: &[u8] = b"fmm 1 field\ncharge 0 0 1\ntarget 3 4\n";

const ONE_PAIR_REPORT: &[u8] =
    b"fmm report 1 field order 8 cap 8\ntarget 3 4 re 0.119999999999 0.120000000001 im -0.160000000001 -0.159999999999\nwork translations 0 pairs 1\nend\n";

/// Lists of points and their reports.
const REPORTS: [(&[u8], &[u8]); 11] = [
    (ONE_PAIR, ONE_PAIR_REPORT),
    (
        b"fmm 1 field\ncharge 0 0 1\ntarget 1 0\n",
        b"fmm report 1 field order 8 cap 8\ntarget 1 0 re 1.000000000000 1.000000000000 im 0.000000000000 0.000000000000\nwork translations 0 pairs 1\nend\n",
    ),
    (
        b"fmm 1 velocity\nvortex 0 0 1\ntarget 1 0\n",
        b"fmm report 1 velocity order 8 cap 8\ntarget 1 0 u 0.000000000000 0.000000000000 v 1.000000000000 1.000000000000\nwork translations 0 pairs 1\nend\n",
    ),
    (
        b"fmm 1 field\ncharge 5 5 7\ntarget 5 5\n",
        b"fmm report 1 field order 8 cap 8\ntarget 5 5 re 0.000000000000 0.000000000000 im 0.000000000000 0.000000000000\nwork translations 0 pairs 0\nend\n",
    ),
    (
        b"fmm 1 field\ncharge -32768 -32768 1\ntarget 32767 32767\n",
        b"fmm report 1 field order 8 cap 8\ntarget 32767 32767 re 0.000007629510 0.000007629512 im -0.000007629512 -0.000007629510\nwork translations 0 pairs 1\nend\n",
    ),
    (
        b"fmm 1 field\ndipole 0 0 1 0\ntarget 0 2\n",
        b"fmm report 1 field order 8 cap 8\ntarget 0 2 re -0.250000000000 -0.250000000000 im 0.000000000000 0.000000000000\nwork translations 0 pairs 1\nend\n",
    ),
    (
        b"fmm 1 field\n",
        b"fmm report 1 field order 8 cap 8\nwork translations 0 pairs 0\nend\n",
    ),
    (
        b"fmm 1 field\ntarget 0 0\n",
        b"fmm report 1 field order 8 cap 8\ntarget 0 0 re 0.000000000000 0.000000000000 im 0.000000000000 0.000000000000\nwork translations 0 pairs 0\nend\n",
    ),
    (
        b"fmm 1 field\ncharge 0 0 1\n",
        b"fmm report 1 field order 8 cap 8\nwork translations 0 pairs 0\nend\n",
    ),
    (
        b"fmm 1 field\ncharge 0 0 1\ncharge 0 0 1\ncharge 0 0 1\ncharge 0 0 1\ncharge 0 0 1\ncharge 0 0 1\ncharge 0 0 1\ntarget 1 0\n",
        b"fmm report 1 field order 8 cap 8\ntarget 1 0 re 7.000000000000 7.000000000000 im 0.000000000000 0.000000000000\nwork translations 0 pairs 7\nend\n",
    ),
    (
        b"fmm 1 field\ncharge 0 0 1048576\ncharge 1 0 -1048576\ntarget 100 0\n",
        b"fmm report 1 field order 8 cap 8\ntarget 100 0 re -105.916767676770 -105.916767676767 im 0.000000000000 0.000000000000\nwork translations 0 pairs 2\nend\n",
    ),
];

/// What a solve of this text ends with and writes.
fn solves(
    rt: &(impl Abort + Threads + Sync),
    alloc: Global,
    text: &[u8],
    status: Status,
    written: &[u8],
) -> Result<(), Fail> {
    expect(rt, alloc, &SOLVE, text, SURE, status, written)
}

#[test]
fn reports(rt: HostRuntime) -> Result<(), Fail> {
    for &(text, report) in &REPORTS {
        solves(&rt, rt.alloc(), text, Status::Done, report)?;
    }
    Ok(())
}

#[test]
fn one_byte_at_a_time(rt: HostRuntime) -> Result<(), Fail> {
    let bytewise = Ports { step: 1, ..SURE };
    expect(
        &rt,
        rt.alloc(),
        &SOLVE,
        ONE_PAIR,
        bytewise,
        Status::Done,
        ONE_PAIR_REPORT,
    )
}

/// Texts that are refused, and how.
const REFUSALS: [(&[u8], &[u8]); 7] = [
    (
        b"fmm 1 field\ncharge 0 0 1048577\n",
        b"refused line 2 range\n",
    ),
    (b"fmm 1 field\ncharge 0 0\n", b"refused line 2 syntax\n"),
    (b"fmm 1 field\nvortex 0 0 1\n", b"refused line 2 mixed\n"),
    (b"fmm 1 field\ncharge 00 0 1\n", b"refused line 2 syntax\n"),
    (b"fmm 1 field\rcharge 0 0 1\n", b"refused line 1 syntax\n"),
    (b"fmm 3 field\ncharge 0 0 1\n", b"refused line 1 syntax\n"),
    (b"", b"refused line 1 syntax\n"),
];

#[test]
fn refusals(rt: HostRuntime) -> Result<(), Fail> {
    for &(text, line) in &REFUSALS {
        solves(&rt, rt.alloc(), text, Status::Refused, line)?;
    }
    Ok(())
}

/// A number of 400 digits is a number.
#[test]
fn long_numbers(rt: HostRuntime) -> Result<(), Fail> {
    let mut text = Vec::from_slice(rt.alloc(), b"fmm 1 field\ntarget ")?;
    for _ in 0..400 {
        text.push(b'7')?;
    }
    text.extend_from_slice(b" 0\n")?;
    let line = b"refused line 2 range\n";
    solves(&rt, rt.alloc(), &text, Status::Refused, line)
}

/// What a solve of this text with 1024 points a leaf ends with and writes.
fn solves_wide(
    rt: &(impl Abort + Threads + Sync),
    alloc: Global,
    text: &[u8],
    status: Status,
    written: &[u8],
) -> Result<(), Fail> {
    expect(rt, alloc, &SOLVE_WIDE, text, SURE, status, written)
}

#[test]
fn weights(rt: HostRuntime) -> Result<(), Fail> {
    let mut text = Vec::from_slice(rt.alloc(), b"fmm 1 field\n")?;
    for _ in 0..32 {
        text.extend_from_slice(b"dipole 0 0 1048576 1048576\n")?;
    }
    let report = b"fmm report 1 field order 8 cap 1024\nwork translations 0 pairs 0\nend\n";
    solves_wide(&rt, rt.alloc(), &text, Status::Done, report)?;
    text.extend_from_slice(b"charge 0 0 1\n")?;
    let line = b"refused line 34 strength\n";
    solves_wide(&rt, rt.alloc(), &text, Status::Refused, line)
}

#[test]
fn long(rt: HostRuntime) -> Result<(), Fail> {
    // One byte more than an input may have.
    let text = vec![in rt.alloc(); b'a'; 16_777_217]?;
    solves(&rt, rt.alloc(), &text, Status::Refused, b"refused long\n")
}

#[test]
fn read_faults(rt: HostRuntime) -> Result<(), Fail> {
    for failing in [[1], [2]] {
        let ports = Ports {
            step: 7,
            failing_reads: &failing,
            ..SURE
        };
        let status = Status::ReadFault;
        expect(&rt, rt.alloc(), &SOLVE, ONE_PAIR, ports, status, b"")?;
    }
    Ok(())
}

/// A solve whose write of the report fails leaves so much of it, and the whole certificate.
fn report_fails(
    rt: &(impl Abort + Threads + Sync),
    alloc: Global,
    ports: Ports<'_>,
    begun: &[u8],
) -> Result<(), Fail>
    requires { 0 < ports.step }
{
    let whole = output_of(rt, alloc, &SOLVE, ONE_PAIR, SURE, Status::Done)?;
    let outputs = output_of(rt, alloc, &SOLVE, ONE_PAIR, ports, Status::WriteFault)?;
    outputs.hold(rt, begun, whole.cert.held());
    Ok(())
}

#[test]
fn write_faults(rt: HostRuntime) -> Result<(), Fail> {
    let ports = Ports {
        failing_writes: &[1],
        ..SURE
    };
    report_fails(&rt, rt.alloc(), ports, b"")?;
    // The first line takes seven writes of five bytes.
    let ports = Ports {
        step: 5,
        failing_writes: &[8],
        ..SURE
    };
    let head = b"fmm report 1 field order 8 cap 8\n";
    report_fails(&rt, rt.alloc(), ports, head)
}

#[test]
fn a_broken_source(rt: HostRuntime) -> Result<(), Fail> {
    let words = words_of(rt.alloc(), &SOLVE)?;
    let mut out = MemSink::with_room(rt.alloc(), 64, 64, Vec::new(rt.alloc()))?;
    let mut cert_out = MemSink::with_room(rt.alloc(), 64, 64, Vec::new(rt.alloc()))?;
    let answer = run(
        &rt,
        rt.alloc(),
        &words,
        &mut BrokenSource::new(),
        &mut SureSource::new(Vec::new(rt.alloc())),
        &mut out,
        &mut cert_out,
        &OpenGate,
    );
    assert_eq!(rt; (answer, out.held()), (Status::ReadFault, b"".as_slice()));
    assert_eq!(rt; cert_out.held(), b"".as_slice());
    Ok(())
}

/// How a solve of one pair into these sinks ends.
fn solve_into<O: Sink, C: Sink>(
    rt: &(impl Abort + Threads + Sync),
    alloc: Global,
    out: &mut O,
    cert_out: &mut C,
) -> Result<Status, Fail> {
    let words = words_of(alloc, &SOLVE)?;
    let mut points = SureSource::new(Vec::from_slice(alloc, ONE_PAIR)?);
    let mut cert_in = SureSource::new(Vec::new(alloc));
    Ok(run(
        rt,
        alloc,
        &words,
        &mut points,
        &mut cert_in,
        out,
        cert_out,
        &OpenGate,
    ))
}

#[test]
fn broken_sinks(rt: HostRuntime) -> Result<(), Fail> {
    let alloc = rt.alloc();
    let answer = solve_into(&rt, alloc, &mut BrokenSink::new(), &mut DropSink)?;
    assert_eq!(rt; answer, Status::WriteFault);
    let mut out = MemSink::with_room(alloc, 4096, 64, Vec::new(alloc))?;
    let answer = solve_into(&rt, alloc, &mut out, &mut BrokenSink::new())?;
    assert_eq!(rt; (answer, out.held()), (Status::WriteFault, b"".as_slice()));
    Ok(())
}

/// A sink that keeps nothing can stand for the certificate, as where the points come from standard input.
#[test]
fn a_dropped_certificate(rt: HostRuntime) -> Result<(), Fail> {
    let alloc = rt.alloc();
    let mut out = MemSink::with_room(alloc, 4096, 64, Vec::new(alloc))?;
    let answer = solve_into(&rt, alloc, &mut out, &mut DropSink)?;
    assert_eq!(rt; (answer, out.held()), (Status::Done, ONE_PAIR_REPORT));
    Ok(())
}

const USAGE: &[u8] =
    b"usage: fmm solve ORDER CAP FILE [WORKERS] | check FILE | session ORDER CAP | sample SEED N ORDER CAP [WORKERS]\n";

/// Words that are no command.
const WRONG: [&[&str]; 18] = [
    &["solve", "5", "8", "-"],
    &["solve", "8", "7", "-"],
    &["solve", "8", "8", "-", "65"],
    &["solve", "8", "8", "-", "0"],
    &["solve", "8", "8", "-", "01"],
    &["solve", "8", "8", "-", "2", "2"],
    &["check"],
    &["check", "-"],
    &["check", "a", "b"],
    &["solve", "08", "8", "-"],
    &["solve", "8", "8"],
    &["sample", "0", "0", "8", "32"],
    &["sample", "4294967296", "2", "8", "32"],
    &["sample", "0", "2", "8", "32", "65"],
    &["sample", "0", "2", "8", "32", "2", "2"],
    // Samples are of version 1.
    &["sample", "0", "2", "32", "32"],
    &["sample", "0", "65537", "8", "32"],
    &[],
];

#[test]
fn usage(rt: HostRuntime) -> Result<(), Fail> {
    for &words in &WRONG {
        let text = b"fmm 1 field\n";
        expect(&rt, rt.alloc(), words, text, SURE, Status::Usage, USAGE)?;
    }
    Ok(())
}

/// Words and a text, how they end with sure ports, and the report, the line of refusal or the usage line that they get.
const FLUSHED: [(&[&str], &[u8], Status, &[u8]); 3] = [
    (&SOLVE, ONE_PAIR, Status::Done, ONE_PAIR_REPORT),
    (&SOLVE, b"", Status::Refused, b"refused line 1 syntax\n"),
    (&[], ONE_PAIR, Status::Usage, USAGE),
];

#[test]
fn flush_faults(rt: HostRuntime) -> Result<(), Fail> {
    for &(words, text, status, written) in &FLUSHED {
        flush_fails(&rt, rt.alloc(), words, text, status, written)?;
    }
    Ok(())
}

#[test]
fn wrong_words_open_nothing(rt: HostRuntime) -> Result<(), Fail> {
    for &wrong in &WRONG {
        let words = words_of(rt.alloc(), wrong)?;
        assert!(rt; matches!(plan(&words), Opening::Nothing));
    }
    Ok(())
}

#[test]
fn a_solve_opens_its_input(rt: HostRuntime) -> Result<(), Fail> {
    let words = words_of(rt.alloc(), &SOLVE)?;
    assert_eq!(rt; words.count(), 4);
    assert!(rt; matches!(plan(&words), Opening::SolveInput));
    let words = words_of(rt.alloc(), &["solve", "8", "8", "-", "64"])?;
    assert!(rt; matches!(plan(&words), Opening::SolveInput));
    Ok(())
}

#[test]
fn a_solve_opens_its_file(rt: HostRuntime) -> Result<(), Fail> {
    let words = words_of(rt.alloc(), &["solve", "32", "1024", "points.txt"])?;
    assert!(rt; matches!(plan(&words), Opening::SolveFile { file: "points.txt" }));
    Ok(())
}
