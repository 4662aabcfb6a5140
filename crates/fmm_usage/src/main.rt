//! Words of no form: the program writes the usage line, and ends with status 2.
#![tactic(auto)]

use fmm_program::{Words, run};
use io_ports::{DropSink, SureSource, WriteSink};
use row_phases::OpenGate;
use std::process::ExitCode;

fn main(rt: HostRuntime) -> ExitCode {
    let alloc = rt.alloc();
    let status = run(
        &rt,
        alloc,
        &Words::new(alloc),
        &mut SureSource::new(Vec::new(alloc)),
        &mut SureSource::new(Vec::new(alloc)),
        &mut WriteSink::new(rt.stdout()),
        &mut DropSink,
        &OpenGate,
    );
    ExitCode::from(status.code())
}
