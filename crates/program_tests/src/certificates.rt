//! The worked certificate, whole, and over ports that take a byte at a time or fail.
ghost use Rattle.std.specs.Prelude.{◌<◌};

use crate::ports::{Outputs, Ports, SURE, output_of};
use fmm_program::Status;
use std::alloc::Global;
use std::process::Abort;
use std::test::Fail;
use std::thread::Threads;

const WORDS: [&str; 4] = ["solve", "4", "8", "-"];

const TEXT: &[u8] = b"fmm 1 field\ncharge 0 0 1\ntarget 1 0\n";

const REPORT: &[u8] =
    b"fmm report 1 field order 4 cap 8\ntarget 1 0 re 1.000000000000 1.000000000000 im 0.000000000000 0.000000000000\nwork translations 0 pairs 1\nend\n";

/// The certificate of the text at order 4: one cell, with the charge at its centre.
const CERT: &str = "fmmcert 1 4 2 1 1 1\n\
    node 0 0 0 0\n\
    at 0\n\
    at 0\n\
    m 1099511627776 1099511627776 0 0 0 0 0 0 0 0 0 0 0 0 0 0\n\
    u 0 0\n\
    l 0 0 0 0 0 0 0 0 0 0 0 0 0 0 0 0 0\n\
    t 1099511627776 1099511627776 0 0 1000000000000 1000000000000 0 0\n\
    end\n";

/// What a solve of the text over these ports writes.
fn solve_over(
    rt: &(impl Abort + Threads + Sync),
    alloc: Global,
    ports: Ports<'_>,
    status: Status,
) -> Result<Outputs, Fail>
    requires { 0 < ports.step }
{
    output_of(rt, alloc, &WORDS, TEXT, ports, status)
}

#[test]
fn worked(rt: HostRuntime) -> Result<(), Fail> {
    for ports in [SURE, BYTEWISE] {
        let outputs = solve_over(&rt, rt.alloc(), ports, Status::Done)?;
        outputs.hold(&rt, REPORT, CERT.as_bytes());
    }
    Ok(())
}

/// Ports that move a byte at a time.
const BYTEWISE: Ports<'static> = Ports { step: 1, ..SURE };

/// Each write of the certificate, and the flush behind it, fails in its turn: what was taken before it stays, and nothing of
/// the report goes out.
#[test]
fn certificate_fails(rt: HostRuntime) -> Result<(), Fail> {
    let cert = CERT.as_bytes();
    for taken in 0..cert.len() + 1 {
        let ports = Ports {
            failing_certs: &[taken as u64 + 1],
            ..BYTEWISE
        };
        let outputs = solve_over(&rt, rt.alloc(), ports, Status::WriteFault)?;
        outputs.hold(&rt, b"", &cert[..taken]);
    }
    Ok(())
}

/// Each write of the report, and the flush behind it, fails in its turn: what was taken before it stays, behind the whole
/// certificate.
#[test]
fn report_fails(rt: HostRuntime) -> Result<(), Fail> {
    for taken in 0..REPORT.len() + 1 {
        let ports = Ports {
            failing_writes: &[taken as u64 + 1],
            ..BYTEWISE
        };
        let outputs = solve_over(&rt, rt.alloc(), ports, Status::WriteFault)?;
        outputs.hold(&rt, &REPORT[..taken], CERT.as_bytes());
    }
    Ok(())
}
