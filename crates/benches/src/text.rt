//! Reads, prints and writes 8,192 and 65,536 lines, and says what came out, or how many megabytes a second.
ghost use Rattle.std.specs.Prelude.{◌≤◌};
ghost use Rattle.limits.specs.Limits.{first_grid, most_points};
ghost use Rattle.points.specs.Limits.{WithinLimits};

use complex_box::CBox;
use io_ports::{DropSink, MemSink, Sink};
use particle_text::{parse, print};
use points::{Mode, Points};
use report_lines::write_target;
use std::io;
use std::time::Instant;

/// A text of that many charges.
fn sample(rt: &HostRuntime, lines: u32) -> Option<Vec<u8>> {
    let mut text = Vec::from_slice(rt.alloc(), b"fmm 1 field\n").ok()?;
    for _ in 0..lines {
        text.extend_from_slice(b"charge -12345 23456 -54321\n")
            .ok()?;
    }
    Some(text)
}

/// Says how fast so many bytes went through since the start.
fn tell_rate(rt: &HostRuntime, name: &str, bytes: usize, start: Instant) -> io::Result<()> {
    let micros = start.elapsed(rt)?.as_micros().max(1);
    let rate = bytes as u128 / micros;
    println!(rt; "{name} {bytes} bytes in {micros} us, {rate} MB/s")
}

/// Says how many bytes went through since the start, or how fast.
pub(crate) fn tell(
    rt: &HostRuntime,
    timed: bool,
    name: &str,
    bytes: usize,
    start: Instant,
) -> io::Result<()> {
    if timed {
        tell_rate(rt, name, bytes, start)
    } else {
        println!(rt; "{name} {bytes} bytes")
    }
}

/// Writes the line of one target.
fn write_line<S: Sink>(sink: &mut S) -> bool {
    let v = CBox::point(123_456_789_012_345, -98_765_432_101_234);
    write_target(Mode::Field, -12345, 23456, v, sink).is_ok()
}

/// How many bytes the line of one target has.
fn line_length(rt: &HostRuntime) -> usize {
    match MemSink::with_room(rt.alloc(), 256, 256, Vec::new(rt.alloc())) {
        Ok(mut sink) => {
            if write_line(&mut sink) {
                sink.held().len()
            } else {
                0
            }
        }
        Err(_) => 0,
    }
}

/// Writes as many lines of targets to a sink that keeps nothing.
fn write_lines(lines: u32) -> bool {
    let mut sink = DropSink;
    let mut all = true;
    for _ in 0..lines {
        all = all && write_line(&mut sink);
    }
    all
}

/// Prints the points.
fn printed(rt: &HostRuntime, points: &Points) -> usize
    requires { WithinLimits points.now }
{
    match print(rt.alloc(), points) {
        Ok(bytes) => bytes.len(),
        Err(_) => 0,
    }
}

/// Reads a text, and prints its points; says whether it was read.
fn measure_points(rt: &HostRuntime, timed: bool, text: &[u8]) -> io::Result<bool> {
    let start = Instant::now(rt)?;
    let Ok(points) = parse(rt.alloc(), text) else {
        return Ok(false);
    };
    tell(rt, timed, "parse", text.len(), start)?;
    let start = Instant::now(rt)?;
    let bytes = printed(rt, &points);
    tell(rt, timed, "print", bytes, start)?;
    Ok(true)
}

/// Writes that many lines of targets.
fn measure_lines(rt: &HostRuntime, timed: bool, lines: u32) -> io::Result<()>
    requires { lines ≤ most_points first_grid }
{
    let line = line_length(rt).min(256);
    let start = Instant::now(rt)?;
    let bytes = if write_lines(lines) {
        line * lines as usize
    } else {
        0
    };
    tell(rt, timed, "write_target", bytes, start)
}

/// Reads, prints and writes that many lines.
fn measure(rt: &HostRuntime, timed: bool, lines: u32) -> io::Result<()>
    requires { lines ≤ most_points first_grid }
{
    let Some(text) = sample(rt, lines) else {
        return Ok(());
    };
    if measure_points(rt, timed, text.as_slice())? {
        measure_lines(rt, timed, lines)?;
    }
    Ok(())
}

pub fn run(rt: &HostRuntime, timed: bool) -> io::Result<()> {
    measure(rt, timed, 8_192)?;
    measure(rt, timed, 65_536)
}
