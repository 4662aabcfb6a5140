//! Which points may join a list.
ghost use Rattle.std.specs.Prelude.{◌≤◌, IfSome, IfNone};
ghost use Rattle.limits.specs.Limits.{IsVersion, grid_of, most_weight};
ghost use Rattle.points.specs.Limits.{InRange};
ghost use Rattle.particle_text.specs.Faults.{CanJoin, IsFirstKind, PointFault};

use crate::TextKind;
use limits::{grid_of, most_points, most_weight};
use points::{Kind, Mode, Point};

/// Why a point can't join a list of this version and mode, with `live` points of this total weight: the first of
/// `Mixed`, `Many` and `Strength` that holds. `None` where it can.
///
/// A weight is the sum of `abs(a) + 64 abs(b)` over points, with `abs(x + iy) = abs(x) + abs(y)`, pole `a` and dipole
/// `b`. `version` is 1 or 2, the point is in its range, and the total weight is within its limit: 2^32 in version 1,
/// 2^36 in version 2.
pub fn admit(version: u8, mode: Mode, live: u64, weight: u64, p: &Point) -> Option<TextKind>
    requires version { IsVersion version }
    requires range { InRange (grid_of version) p.now }
    requires weight { weight ≤ most_weight (grid_of version) }
    ensures some { IfSome result (IsFirstKind (PointFault version mode live weight p.now)) }
    ensures none { IfNone result (CanJoin version mode live weight p.now) }
{
    let grid = grid_of(version);
    match (mode, p.kind) {
        (Mode::Velocity, Kind::Charge(_)) | (Mode::Field, Kind::Vortex(_)) => Some(TextKind::Mixed),
        _ if live >= most_points(grid) => Some(TextKind::Many),
        _ if weight + p.weight64() > most_weight(grid) => Some(TextKind::Strength),
        _ => None,
    }
}
