//! What all places took together.
ghost use Rattle.std.specs.Prelude.{◌≡◌, ◌^◌, ◌<◌};
ghost use Rattle.field_basis.specs.Place.{all_translations};
ghost use Rattle.field_basis.specs.Target.{all_pairs};

use crate::place::Place;
use crate::target::TargetPlace;

/// The translations of all places. Condition: together they are below 2^64.
pub fn all_translations<const P: usize>(places: &[Place<P>]) -> u64
    requires { all_translations places.now < 2 ^ 64 }
    ensures { result ≡ all_translations places.now }
{
    let mut total = 0;
    for place in places {
        total += place.translations();
    }
    total
}

/// The pairs of all places. Condition: together they are below 2^64.
pub fn all_pairs(places: &[TargetPlace]) -> u64
    requires { all_pairs places.now < 2 ^ 64 }
    ensures { result ≡ all_pairs places.now }
{
    let mut total = 0;
    for place in places {
        total += place.pairs();
    }
    total
}
