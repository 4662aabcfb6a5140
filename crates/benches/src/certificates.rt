//! Writes and reads the certificates of samples of 2,000 and 20,000 points at order 16 with 32 points a leaf, and says how many bytes they
//! have, or how many megabytes a second.
ghost use Rattle.std.specs.Prelude.{◌≡◌, ◌≤◌};
ghost use Rattle.field_solve.specs.Field.{IsSolved};
ghost use Rattle.limits.specs.Limits.{first_grid, grid_of, most_points};
ghost use Rattle.points.specs.Limits.{WithinLimits};

use crate::no_memory;
use crate::text::tell;
use bumpalo::Bump;
use cert_text::read_cert;
use field_certificate::write_cert;
use field_solve::{Field, solve_alone};
use io_ports::{DropSink, MemSink};
use point_sample::sample_points;
use points::Points;
use std::io;
use std::time::Instant;

/// The room for a certificate.
const ROOM: usize = 1 << 23;

/// Writes the certificate to a sink that keeps nothing, says how long that took, and gives it.
fn measure_writing(
    rt: &HostRuntime,
    timed: bool,
    points: &Points,
    field: &Field<16>,
) -> io::Result<MemSink>
    requires list { WithinLimits points.now }
    requires solved { IsSolved points.now.list field.now.basis.cap 16 field.now }
    requires grid { field.now.basis.tree.grid ≡ grid_of points.now.version }
{
    let Ok(mut sink) = MemSink::with_room(rt.alloc(), ROOM, ROOM, Vec::new(rt.alloc())) else {
        return Err(no_memory());
    };
    if write_cert(points, field, &mut sink).is_err() {
        return Err(no_memory());
    }
    let start = Instant::now(rt)?;
    let _ = write_cert(points, field, &mut DropSink);
    tell(rt, timed, "write_cert", sink.held().len(), start)?;
    Ok(sink)
}

/// Reads a certificate.
fn measure_reading(rt: &HostRuntime, timed: bool, bytes: &[u8]) -> io::Result<()> {
    let start = Instant::now(rt)?;
    let read = read_cert(rt.alloc(), bytes).is_ok();
    tell(
        rt,
        timed,
        if read { "read_cert" } else { "no certificate" },
        bytes.len(),
        start,
    )
}

/// Writes and reads the certificate of the sample of that many points.
fn measure(rt: &HostRuntime, timed: bool, count: u32) -> io::Result<()>
    requires { count ≤ most_points first_grid }
{
    let Ok(points) = sample_points(rt.alloc(), 7, count) else {
        return Err(no_memory());
    };
    let arena = Bump::new(rt.alloc());
    let Ok(field) = solve_alone::<16>(rt.alloc(), &points, 32, &arena) else {
        return Err(io::Error::from(io::ErrorKind::InvalidData));
    };
    let sink = measure_writing(rt, timed, &points, &field)?;
    measure_reading(rt, timed, sink.held())
}

pub fn run(rt: &HostRuntime, timed: bool) -> io::Result<()> {
    measure(rt, timed, 2_000)?;
    measure(rt, timed, 20_000)
}
