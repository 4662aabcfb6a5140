//! What truncation can lose: the weight of a point, and the radius of a row or a target, which is the sum of what its
//! entries can lose at most, in units of 2^-40.
#![tactic(auto)]

ghost use Rattle.std.specs.Prelude.{◌≡◌, ◌≤◌, pos};
ghost use Rattle.exact_math.specs.Sizes.{weight_at};
ghost use Rattle.limits.specs.Limits.{widest_grid};
ghost use Rattle.points.specs.Limits.{InRange};
ghost use Rattle.points.specs.Points.{pole, dipole};

mod ledger;

pub use ledger::Ledger;
use points::Point;

/// The weight `abs(a) + 2 order abs(b)` of a point at an order, where `abs` of a complex number is `abs(re) + abs(im)`.
/// Conditions: the point is in range of some version, and `order` is 1 to 32.
pub fn weight(p: &Point, order: u32) -> i128
    requires range { InRange widest_grid p.now }
    requires least { 1 ≤ order }
    requires most { order ≤ 32 }
    ensures { result ≡ pos (weight_at order (pole p.now.kind) (dipole p.now.kind)) }
{
    i128::from(p.weight(order))
}
