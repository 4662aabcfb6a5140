//! Printing a list as its text.
ghost use Rattle.std.specs.Prelude.{◌≡◌, ◌++◌, IfOk, OnOk, string_bytes};
ghost use Rattle.points.specs.Limits.{WithinLimits};
ghost use Rattle.particle_text.specs.Text.{Spells, line_text, text_of};

use crate::{Kind, Mode, Point, Points};
use io_ports::Memory;
use std::alloc::{AllocError, Global};

/// Appends the line of a point.
fn write_point(text: &mut String, p: &Point) -> Result<(), AllocError>
    ensures { OnOk result (string_bytes text.new ≡ string_bytes text.old ++ line_text p.now) }
{
    let (x, y) = (p.x, p.y);
    match p.kind {
        Kind::Charge(q) => writeln!(text, "charge {x} {y} {q}"),
        Kind::Dipole(re, im) => writeln!(text, "dipole {x} {y} {re} {im}"),
        Kind::Vortex(g) => writeln!(text, "vortex {x} {y} {g}"),
        Kind::Target => writeln!(text, "target {x} {y}"),
        Kind::Pole(re, im) => writeln!(text, "pole {x} {y} {re} {im}"),
    }
}

/// The text that `parse` reads as these points.
///
/// The list is within the limits of its version. `Memory` is want of memory.
pub fn print(alloc: Global, points: &Points) -> Result<Vec<u8>, Memory>
    requires { WithinLimits points.now }
    ensures text { IfOk result (λ bytes. bytes.items ≡ text_of points.now) }
    ensures spells { IfOk result (λ bytes. Spells bytes.items points.now) }
{
    match write_text(alloc, points) {
        Ok(text) => Ok(text.into_bytes()),
        Err(_) => Err(Memory),
    }
}

/// The text of the points.
fn write_text(alloc: Global, points: &Points) -> Result<String, AllocError>
    ensures { IfOk result (λ text. string_bytes text ≡ text_of points.now) }
{
    let version = points.version;
    let mut text = String::new(alloc);
    match points.mode {
        Mode::Field => writeln!(text, "fmm {version} field")?,
        Mode::Velocity => writeln!(text, "fmm {version} velocity")?,
    }
    for p in points.list.points() {
        write_point(&mut text, p)?;
    }
    Ok(text)
}
