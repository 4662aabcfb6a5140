//! Makes the kernel's table of order 24 and says its entry `(0, 1)` at two sides; when it is timed it makes forty more.
use crate::no_memory;
use complex_box::Gauss;
use kernel_table::Kernel;
use std::io;
use std::time::Instant;

/// Makes one table and says an entry.
fn tell(rt: &HostRuntime) -> io::Result<()> {
    let Ok(kernel) = Kernel::<24>::new(rt.alloc()) else {
        return Err(no_memory());
    };
    let entry = kernel.entry(Gauss { re: 2, im: 0 }, 0, 1);
    println!(rt;
        "kernel 24 at 2: {} {} {} {}",
        entry.re.lo, entry.re.hi, entry.im.lo, entry.im.hi
    )
}

/// How many of forty tables were made.
fn made(rt: &HostRuntime) -> u32 {
    let mut made = 0u32;
    for _ in 0..40 {
        if Kernel::<24>::new(rt.alloc()).is_ok() {
            made = made.saturating_add(1);
        }
    }
    made
}

pub fn run(rt: &HostRuntime, timed: bool) -> io::Result<()> {
    tell(rt)?;
    if timed {
        let start = Instant::now(rt)?;
        let made = made(rt);
        let micros = start.elapsed(rt)?.as_micros();
        println!(rt; "{made} tables in {micros} us")?;
    }
    Ok(())
}
