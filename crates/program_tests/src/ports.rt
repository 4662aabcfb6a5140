//! Ports in memory, and what a run must do with them.
ghost use Rattle.std.specs.Prelude.{◌<◌};

use crate::readback::agrees;
use fmm_program::{Status, Words, run};
use io_ports::{MemSink, MemSource, SureSource};
use row_phases::{Gate, OpenGate};
use std::alloc::Global;
use std::process::Abort;
use std::test::Fail;
use std::thread::Threads;

/// A list of these words.
pub fn words_of(alloc: Global, words: &[&str]) -> Result<Words, Fail> {
    let mut list = Words::new(alloc);
    for word in words {
        list.push(alloc, word)?;
    }
    Ok(list)
}

/// The ports of a run: the most that one read gives and one write takes, and the numbers of those that fail, of reads, of
/// writes of the output, and of writes of the certificate, in a check of its reads.
#[derive(Clone, Copy)]
pub struct Ports<'a> {
    pub step: usize,
    pub failing_reads: &'a [u64],
    pub failing_writes: &'a [u64],
    pub failing_certs: &'a [u64],
}

/// Ports that never fail.
pub const SURE: Ports<'static> = Ports {
    step: 4096,
    failing_reads: &[],
    failing_writes: &[],
    failing_certs: &[],
};

/// What a run wrote: its output, and its certificate.
#[derive(Drop)]
pub struct Outputs {
    pub out: MemSink,
    pub cert: MemSink,
}

impl Outputs {
    /// They hold these bytes.
    pub fn hold(&self, rt: &impl Abort, out: &[u8], cert: &[u8]) {
        assert_eq!(rt; self.out.held(), out);
        assert_eq!(rt; self.cert.held(), cert);
    }
}

/// The text in steps, where some reads fail.
fn source_of(alloc: Global, text: &[u8], step: usize, failing: &[u64]) -> Result<MemSource, Fail>
    requires { 0 < step }
{
    let bytes = Vec::from_slice(alloc, text)?;
    let failing = Vec::from_slice(alloc, failing)?;
    Ok(MemSource::new(bytes, step, failing))
}

/// The most bytes of an output.
const MOST_OUT: usize = 4_194_304;

/// The most bytes of a certificate.
const MOST_CERT: usize = 134_217_728;

/// A sink of so much room that takes steps, where some writes fail.
fn sink_of(alloc: Global, room: usize, step: usize, failing: &[u64]) -> Result<MemSink, Fail>
    requires { 0 < step }
{
    let failing = Vec::from_slice(alloc, failing)?;
    Ok(MemSink::with_room(alloc, room, step, failing)?)
}

/// What a run of the words on a text writes, where the gate is told of each run of places. It ends with this status.
pub fn gated_output<G: Gate>(
    rt: &(impl Abort + Threads + Sync),
    alloc: Global,
    words: &[&str],
    text: &[u8],
    ports: Ports<'_>,
    status: Status,
    gate: &G,
) -> Result<Outputs, Fail>
    requires { 0 < ports.step }
{
    let words = words_of(alloc, words)?;
    let mut points = source_of(alloc, text, ports.step, ports.failing_reads)?;
    let mut outputs = Outputs {
        out: sink_of(alloc, MOST_OUT, ports.step, ports.failing_writes)?,
        cert: sink_of(alloc, MOST_CERT, ports.step, ports.failing_certs)?,
    };
    let answer = run(
        rt,
        alloc,
        &words,
        &mut points,
        &mut SureSource::new(Vec::new(alloc)),
        &mut outputs.out,
        &mut outputs.cert,
        gate,
    );
    assert_eq!(rt; answer, status);
    Ok(outputs)
}

/// A solve that succeeds writes a certificate, which agrees with its report. Where there is no solve, and where one is
/// refused or has no answer, there is none.
fn is_certified(
    rt: &impl Abort,
    alloc: Global,
    words: &[&str],
    status: Status,
    outputs: &Outputs,
) -> Result<(), Fail> {
    let (out, cert) = (outputs.out.held(), outputs.cert.held());
    if words.len() < 4 || words[0] != "solve" {
        assert_eq!(rt; cert, b"".as_slice());
        return Ok(());
    }
    match status {
        Status::Done => agrees(rt, alloc, words[1], cert, out)?,
        Status::WriteFault => {}
        _ => assert_eq!(rt; cert, b"".as_slice()),
    }
    Ok(())
}

/// What `check` writes of points and a certificate. It ends with this status, and writes no certificate.
pub fn checked(
    rt: &(impl Abort + Threads + Sync),
    alloc: Global,
    points: &[u8],
    cert: &[u8],
    ports: Ports<'_>,
    status: Status,
) -> Result<MemSink, Fail>
    requires { 0 < ports.step }
{
    let words = words_of(alloc, &["check", "points"])?;
    let mut points = source_of(alloc, points, ports.step, ports.failing_reads)?;
    let mut cert_in = source_of(alloc, cert, ports.step, ports.failing_certs)?;
    let mut out = sink_of(alloc, 4096, ports.step, ports.failing_writes)?;
    let mut cert_out = sink_of(alloc, 4096, ports.step, &[])?;
    let answer = run(
        rt,
        alloc,
        &words,
        &mut points,
        &mut cert_in,
        &mut out,
        &mut cert_out,
        &OpenGate,
    );
    assert_eq!(rt; answer, status);
    assert_eq!(rt; cert_out.held(), b"".as_slice());
    Ok(out)
}

/// The certificate that a solve wrote of a text that isn't long is accepted.
fn is_accepted(
    rt: &(impl Abort + Threads + Sync),
    alloc: Global,
    words: &[&str],
    text: &[u8],
    written: &Outputs,
) -> Result<(), Fail> {
    if words.len() != 4 || words[0] != "solve" || MOST_TRIED < text.len() {
        return Ok(());
    }
    checked(rt, alloc, text, written.cert.held(), SURE, Status::Done)?;
    Ok(())
}

/// The numbers of workers that each solve is tried with.
const WORKERS: [&str; 5] = ["1", "2", "3", "8", "64"];

/// The longest text, in bytes, whose solve is tried so.
const MOST_TRIED: usize = 65_536;

/// A solve of a text that isn't long, whose words name no number of workers, writes the same by each of these numbers.
fn same_by_workers(
    rt: &(impl Abort + Threads + Sync),
    alloc: Global,
    words: &[&str],
    text: &[u8],
    ports: Ports<'_>,
    written: &Outputs,
) -> Result<(), Fail>
    requires { 0 < ports.step }
{
    if words.len() != 4 || MOST_TRIED < text.len() {
        return Ok(());
    }
    for workers in WORKERS {
        let words = [words[0], words[1], words[2], words[3], workers];
        let outputs = gated_output(rt, alloc, &words, text, ports, Status::Done, &OpenGate)?;
        outputs.hold(rt, written.out.held(), written.cert.held());
    }
    Ok(())
}

/// What a run of the words on a text writes. It ends with this status. A solve that succeeds has a certificate that
/// agrees with its report, and, where its text isn't long, is tried by several numbers of workers too and its certificate
/// accepted; a run that ends otherwise has none, but for a solve with a write fault.
pub fn output_of(
    rt: &(impl Abort + Threads + Sync),
    alloc: Global,
    words: &[&str],
    text: &[u8],
    ports: Ports<'_>,
    status: Status,
) -> Result<Outputs, Fail>
    requires { 0 < ports.step }
{
    let outputs = gated_output(rt, alloc, words, text, ports, status, &OpenGate)?;
    is_certified(rt, alloc, words, status, &outputs)?;
    if status == Status::Done {
        same_by_workers(rt, alloc, words, text, ports, &outputs)?;
        is_accepted(rt, alloc, words, text, &outputs)?;
    }
    Ok(outputs)
}

/// Runs the words on a text, and compares how it ended and what it wrote, as `output_of` does, and its output.
pub fn expect(
    rt: &(impl Abort + Threads + Sync),
    alloc: Global,
    words: &[&str],
    text: &[u8],
    ports: Ports<'_>,
    status: Status,
    written: &[u8],
) -> Result<(), Fail>
    requires { 0 < ports.step }
{
    let outputs = output_of(rt, alloc, words, text, ports, status)?;
    assert_eq!(rt; outputs.out.held(), written);
    Ok(())
}

/// Runs the words on a text, which ends so with sure ports, where all is written, a byte at a time, and the flush behind
/// the output fails.
pub fn flush_fails(
    rt: &(impl Abort + Threads + Sync),
    alloc: Global,
    words: &[&str],
    text: &[u8],
    status: Status,
    written: &[u8],
) -> Result<(), Fail> {
    let whole = output_of(rt, alloc, words, text, SURE, status)?;
    let flush = [written.len() as u64 + 1];
    let ports = Ports {
        step: 1,
        failing_writes: &flush,
        ..SURE
    };
    let outputs = output_of(rt, alloc, words, text, ports, Status::WriteFault)?;
    outputs.hold(rt, written, whole.cert.held());
    Ok(())
}

/// The words of a solve at order 8 with 8 points a leaf.
pub const SOLVE: [&str; 4] = ["solve", "8", "8", "-"];
