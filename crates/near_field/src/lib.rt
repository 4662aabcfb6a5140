//! The near field: what one source contributes at a place, as a box that contains the exact term.
#![tactic(auto)]

ghost use Rattle.std.specs.Prelude.{◌≡◌, ◌+◌, ◌*◌, ◌^◌, ◌<◌, false, if◌then◌else◌};
ghost use Rattle.exact_math.specs.Ends.{BoxEndsNarrow};
ghost use Rattle.exact_math.specs.Gaussian.{gaussian};
ghost use Rattle.exact_math.specs.Units.{unit};
ghost use Rattle.complex_box.specs.Box.{box_ends, BoxWithin, BoxContains};
ghost use Rattle.limits.specs.Grid.{IsInGrid};
ghost use Rattle.limits.specs.Limits.{widest_grid};
ghost use Rattle.points.specs.Limits.{InRange, weight64};
ghost use Rattle.near_field.specs.Pair.{is_at, pair_box, term_of};

mod term;

use complex_box::{CBox, Work};
use points::Point;
use term::{contribution, enclosed};

/// Whether the point is at the place `(x, y)`.
fn stands_at(p: &Point, x: i64, y: i64) -> bool
    ensures { result ≡ is_at (gaussian x y) p.now }
{
    p.x == x && p.y == y
}

/// The term of a point at the place `(x, y)`, as a box in units of 2^-40: with `d` the place minus that of the
/// point, `a/d` for a pole `a` and `b/d^2` for a dipole `b`, each part rounded outward by one division a bound.
/// At the point's own place it is the zero box.
///
/// The pairs of `work` are raised by one exactly where the places differ. Conditions: the point is in range of some
/// version, the place is in the widest grid, and the count of pairs is below 2^63.
pub fn pair(p: &Point, x: i64, y: i64, work: &mut Work) -> CBox
    requires range { InRange widest_grid p.now }
    requires in_grid { IsInGrid widest_grid x y }
    requires room { work.old.pairs < 2 ^ 63 }
    ensures ends { box_ends result ≡ pair_box (gaussian x y) p.now }
    ensures contains { is_at (gaussian x y) p.now ≡ false → BoxContains unit result (term_of (gaussian x y) p.now) }
    ensures narrow { BoxEndsNarrow 1 (box_ends result) }
    ensures size { BoxWithin (2 ^ 40 * weight64 p.now) result }

    ensures pairs { work.new.pairs ≡ work.old.pairs + (if is_at (gaussian x y) p.now then 0 else 1) }
    ensures translations { work.new.translations ≡ work.old.translations }
{
    if stands_at(p, x, y) {
        return CBox::zero();
    }
    work.raise_pairs();
    enclosed(contribution(p, x - p.x, y - p.y))
}
