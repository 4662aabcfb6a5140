//! The positions of the targets of a list.
ghost use Rattle.std.specs.Prelude.{◌≡◌, ◌≤◌, length, IfOk};
ghost use Rattle.limits.specs.Limits.{most_points, widest_grid};
ghost use Rattle.field_basis.specs.Targets.{target_positions};

use points::Point;
use std::alloc::{AllocError, Global};

/// The positions of the targets in the list, ascending. Condition: there are no more points than a list of the widest grid may have.
pub(crate) fn target_positions(alloc: Global, points: &[Point]) -> Result<Vec<u32>, AllocError>
    requires length { length points.now ≤ most_points widest_grid }
    ensures { IfOk result (λ v. v.items ≡ target_positions points.now) }
{
    let mut positions = Vec::new(alloc);
    for (k, p) in points.iter().enumerate() {
        if !p.kind.is_source() {
            positions.push(k as u32)?;
        }
    }
    Ok(positions)
}
