//! Texts and lists of points for tests: lines, each so many times.
#![tactic(auto)]

ghost use Rattle.std.specs.Prelude.{IfOk};
ghost use Rattle.points.specs.Limits.{WithinLimits};

use particle_text::{ParseFault, parse};
use points::Points;
use std::alloc::{AllocError, Global};

/// A text of a first line and these lines, each as often as its number says.
pub fn text_of(alloc: Global, head: &str, lines: &[(u32, &str)]) -> Result<Vec<u8>, AllocError> {
    let mut text = Vec::from_slice(alloc, head.as_bytes())?;
    for (count, line) in lines {
        for _ in 0..*count {
            text.extend_from_slice(line.as_bytes())?;
        }
    }
    Ok(text)
}

/// The list of a text of a first line and these lines.
fn list_of(alloc: Global, head: &str, lines: &[(u32, &str)]) -> Result<Points, ParseFault>
    ensures { IfOk result (λ p. WithinLimits p) }
{
    match text_of(alloc, head, lines) {
        Ok(text) => parse(alloc, &text),
        Err(_) => Err(ParseFault::Memory),
    }
}

/// The list of a field text of version 1 with these lines.
pub fn points_of(alloc: Global, lines: &[(u32, &str)]) -> Result<Points, ParseFault>
    ensures { IfOk result (λ p. WithinLimits p) }
{
    list_of(alloc, "fmm 1 field\n", lines)
}

/// The list of a field text of version 2 with these lines.
pub fn wide_points_of(alloc: Global, lines: &[(u32, &str)]) -> Result<Points, ParseFault>
    ensures { IfOk result (λ p. WithinLimits p) }
{
    list_of(alloc, "fmm 2 field\n", lines)
}

/// Appends nine charges at a place, and targets so far to the east of it.
fn push_group(
    alloc: Global,
    text: &mut Vec<u8>,
    x: i32,
    y: i32,
    easts: &[u16],
) -> Result<(), AllocError> {
    let charge = format!(in alloc; "charge {x} {y} 1\n")?;
    for _ in 0..9u8 {
        text.extend_from_slice(charge.as_bytes())?;
    }
    for &east in easts {
        let target = format!(in alloc; "target {} {y}\n", i64::from(x) + i64::from(east))?;
        text.extend_from_slice(target.as_bytes())?;
    }
    Ok(())
}

/// The text of a first line and 64 times 64 such groups.
fn groups_text(alloc: Global, head: &str, easts: &[u16]) -> Result<Vec<u8>, AllocError> {
    let mut text = Vec::from_slice(alloc, head.as_bytes())?;
    for i in 0..64u8 {
        for j in 0..64u8 {
            let x = 1024 * i32::from(i) - 32_768;
            let y = 1024 * i32::from(j) - 32_768;
            push_group(alloc, &mut text, x, y, easts)?;
        }
    }
    Ok(text)
}

/// How far the targets of a group stand to the east where a group has as many as it may.
const EASTS: [u16; 7] = [512, 256, 128, 64, 32, 16, 8];

/// A text of version 1 of as many points as a list may have, in more cells than a tree may have.
pub fn full_text(alloc: Global) -> Result<Vec<u8>, AllocError> {
    groups_text(alloc, "fmm 1 field\n", &EASTS)
}

/// The same points in version 2, where their tree at capacity 8 has 75,109 cells.
pub fn wide_text(alloc: Global) -> Result<Vec<u8>, AllocError> {
    groups_text(alloc, "fmm 2 field\n", &EASTS)
}

/// A text of 53,248 points, whose tree at capacity 8 has 62,805 cells.
pub fn large_text(alloc: Global) -> Result<Vec<u8>, AllocError> {
    groups_text(alloc, "fmm 1 field\n", &[512, 256, 128, 64])
}
