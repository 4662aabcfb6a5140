//! Reading a text.
ghost use Rattle.std.specs.Prelude.{◌≡◌, ◌++◌, ◌∷◌, ◌≤◌, IfOk, IfErr, IfSome, IfNone, ℕ};
ghost use Rattle.points.specs.declared.Mode.{Mode};
ghost use Rattle.points.specs.declared.Points.{Points};
ghost use Rattle.particle_text.specs.Faults.{CanJoin, FirstFault, HasNoHead, IsFirstKind, LineFault, Reads};
ghost use Rattle.limits.specs.Limits.{IsVersion, grid_of, most_weight};
ghost use Rattle.particle_text.specs.Text.{BeginsWith, Spells, head_line};
ghost use Rattle.number_text.specs.Parts.{line_feed};

use crate::admission::admit;
use crate::line::parse_point;
use crate::{Mode, ParseFault, Point, PointList, Points, TextKind};
use number_text::cut_at;
use std::alloc::Global;

/// The version and the mode whose head line this is, without its line feed.
fn head_of(line: &[u8]) -> Option<(u8, Mode)>
    ensures version { IfSome result (λ head. IsVersion head.0) }
    ensures some { IfSome result (λ head. line.now ≡ head_line head.0 head.1) }
    ensures none { IfNone result ((version : ℕ) (mode : Mode) → IsVersion version → line.now ≡ head_line version mode → ⊥) }
{
    if line == b"fmm 1 field".as_slice() {
        Some((1, Mode::Field))
    } else if line == b"fmm 1 velocity".as_slice() {
        Some((1, Mode::Velocity))
    } else if line == b"fmm 2 field".as_slice() {
        Some((2, Mode::Field))
    } else if line == b"fmm 2 velocity".as_slice() {
        Some((2, Mode::Velocity))
    } else {
        None
    }
}

/// The version and the mode of the head line, and what stands behind the line.
fn read_head(bytes: &[u8]) -> Option<(u8, Mode, &[u8])>
    ensures version { IfSome result (λ found. IsVersion found.0) }
    ensures some { IfSome result (λ found. bytes.now ≡ head_line found.0 found.1 ++ line_feed ∷ found.2.now) }
    ensures none { IfNone result (HasNoHead bytes.now) }
{
    let (line, rest) = cut_at(b'\n', bytes)?;
    let (version, mode) = head_of(line)?;
    Some((version, mode, rest))
}

/// The point of the first line, and what stands behind the line; or what is wrong with that line.
fn next_point(
    version: u8,
    mode: Mode,
    live: u64,
    weight: u64,
    bytes: &[u8],
) -> Result<(Point, &[u8]), TextKind>
    requires version { IsVersion version }
    requires weight { weight ≤ most_weight (grid_of version) }
    ensures line { IfOk result (λ found. BeginsWith version bytes.now found.0 found.1.now) }
    ensures joins { IfOk result (λ found. CanJoin version mode live weight found.0) }
    ensures fault { IfErr result (IsFirstKind (LineFault version mode live weight bytes.now)) }
{
    let Some((line, rest)) = cut_at(b'\n', bytes) else {
        return Err(TextKind::Syntax);
    };
    let point = parse_point(version, line)?;
    match admit(version, mode, live, weight, &point) {
        Some(kind) => Err(kind),
        None => Ok((point, rest)),
    }
}

/// The points that a text spells.
///
/// A text has the head line `fmm V field` or `fmm V velocity` with the version V, 1 or 2, and then a line
/// `charge X Y Q`, `dipole X Y BX BY`, `vortex X Y G` or `target X Y` for each point, in version 2 also
/// `pole X Y RE IM`, in both modes. Each line ends with a line feed, and one space stands between two words. The list
/// has to be within the limits of the version.
///
/// `Text` names the first line at fault, counted from 1, and the first kind that holds for it. `Memory` is want of
/// memory.
pub fn parse(alloc: Global, bytes: &[u8]) -> Result<Points, ParseFault>
    ensures { Reads bytes.now result }
{
    let Some((version, mode, mut rest)) = read_head(bytes) else {
        return Err(ParseFault::Text {
            line: 1,
            what: TextKind::Syntax,
        });
    };
    let mut list = PointList::new(alloc);
    let mut weight = 0;
    while !rest.is_empty() {
        let live = list.points().len() as u64;
        let (point, more) = match next_point(version, mode, live, weight, rest) {
            Ok(found) => found,
            Err(what) => {
                return Err(ParseFault::Text {
                    line: live + 2,
                    what,
                });
            }
        };
        if list.push(point).is_err() {
            return Err(ParseFault::Memory);
        }
        weight += point.weight64();
        rest = more;
    }
    Ok(Points {
        version,
        mode,
        list,
    })
}

/// The first line at fault, counted from 1, and what is wrong with it; `None` where the bytes are a text.
///
/// So bytes are either a text or have a first fault. It takes no memory.
pub fn first_fault(bytes: &[u8]) -> Option<(u64, TextKind)>
    ensures some { IfSome result (λ found. FirstFault bytes.now found.0 found.1) }
    ensures none { IfNone result ((points : Points) × Spells bytes.now points) }
{
    let Some((version, mode, mut rest)) = read_head(bytes) else {
        return Some((1, TextKind::Syntax));
    };
    let mut live = 0;
    let mut weight = 0;
    while !rest.is_empty() {
        match next_point(version, mode, live, weight, rest) {
            Ok((point, more)) => {
                live += 1;
                weight += point.weight64();
                rest = more;
            }
            Err(what) => return Some((live + 2, what)),
        }
    }
    None
}
