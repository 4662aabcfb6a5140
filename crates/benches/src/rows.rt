//! Calls each operation on rows of order 16 in a loop: a thousand times in short, whose results are folded into one
//! number, and for some 0.3 seconds when it is timed.
mod loops;
mod samples;

use crate::no_memory;
use kernel_table::Kernel;
use loops::Operation;
use std::io;
use std::time::Instant;

/// Says how long a call takes.
fn tell_time(rt: &HostRuntime, kernel: &Kernel<16>, operation: Operation) -> io::Result<()> {
    let count = operation.many();
    let start = Instant::now(rt)?;
    let folded = operation.run(kernel, count);
    let nanos = start.elapsed(rt)?.as_nanos() / u128::from(count);
    let name = operation.name();
    println!(rt;
        "{name} {folded} {nanos} ns a call, {} a sixteenth",
        nanos / 16
    )
}

/// Says what comes of a thousand calls.
fn tell(rt: &HostRuntime, kernel: &Kernel<16>, operation: Operation) -> io::Result<()> {
    println!(rt; "{} {}", operation.name(), operation.run(kernel, 1_000))
}

pub fn run(rt: &HostRuntime, timed: bool) -> io::Result<()> {
    let Ok(kernel) = Kernel::<16>::new(rt.alloc()) else {
        return Err(no_memory());
    };
    for operation in Operation::ALL {
        if timed {
            tell_time(rt, &kernel, operation)?;
        } else {
            tell(rt, &kernel, operation)?;
        }
    }
    Ok(())
}
