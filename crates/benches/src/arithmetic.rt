//! Calls the arithmetic of intervals and boxes in loops: a thousand calls of each in short, whose results are folded into
//! one number, and ten million when they are timed.
mod loops;
mod samples;

use loops::Operation;
use std::io;
use std::time::Instant;

/// Says how long a call takes.
fn tell_time(rt: &HostRuntime, operation: Operation) -> io::Result<()> {
    let start = Instant::now(rt)?;
    let folded = operation.run(10_000_000);
    let tenths = start.elapsed(rt)?.as_nanos() / 1_000_000;
    let name = operation.name();
    println!(rt; "{name} {folded} {}.{} ns a call", tenths / 10, tenths % 10)
}

/// Says what comes of a thousand calls.
fn tell(rt: &HostRuntime, operation: Operation) -> io::Result<()> {
    println!(rt; "{} {}", operation.name(), operation.run(1_000))
}

pub fn run(rt: &HostRuntime, timed: bool) -> io::Result<()> {
    for operation in Operation::ALL {
        if timed {
            tell_time(rt, operation)?;
        } else {
            tell(rt, operation)?;
        }
    }
    Ok(())
}
