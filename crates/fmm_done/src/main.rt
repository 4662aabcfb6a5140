//! A charge and a target: the program writes their report, and ends with status 0.
#![tactic(auto)]

use fmm_program::{Status, Words, run};
use io_ports::{DropSink, Memory, Sink, SureSource, WriteSink};
use row_phases::OpenGate;
use std::alloc::Global;
use std::process::ExitCode;
use std::thread::Threads;

const TEXT: &[u8] = b"fmm 1 field\ncharge 0 0 1\ntarget 3 4\n";

fn answer<R: Threads + Sync, O: Sink>(
    rt: &R,
    alloc: Global,
    out: &mut O,
) -> Result<Status, Memory> {
    let mut words = Words::new(alloc);
    for word in ["solve", "8", "8", "-"] {
        words.push(alloc, word)?;
    }
    Ok(run(
        rt,
        alloc,
        &words,
        &mut SureSource::new(Vec::from_slice(alloc, TEXT).map_err(|_| Memory)?),
        &mut SureSource::new(Vec::new(alloc)),
        out,
        &mut DropSink,
        &OpenGate,
    ))
}

fn main(rt: HostRuntime) -> ExitCode {
    let mut out = WriteSink::new(rt.stdout());
    ExitCode::from(
        answer(&rt, rt.alloc(), &mut out)
            .unwrap_or(Status::Memory)
            .code(),
    )
}
