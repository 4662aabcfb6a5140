//! The pairs of a place with the sources of the U entries of a leaf.
ghost use Rattle.std.specs.Prelude.{◌≡◌, ◌^◌, ◌<◌, ◌≤◌, All, length};
ghost use Rattle.certificate_nodes.specs.AtNodes.{entry_numbers_at};
ghost use Rattle.certificate_nodes.specs.Presented.{EntriesHold, accounting_of, node_count};
ghost use Rattle.certificate_rules.specs.LineRules.{IsFit};
ghost use Rattle.certificate_targets.specs.Parts.{IsPresented, entry_of, pairs_of};
ghost use Rattle.complex_box.specs.Box.{BoxWithin, box_ends};
ghost use Rattle.exact_math.specs.Gaussian.{gaussian};
ghost use Rattle.limits.specs.Grid.{IsInGrid};
ghost use Rattle.limits.specs.Limits.{most_points, widest_grid};
ghost use Rattle.near_field.specs.Pair.{pair_box};
ghost use Rattle.points.specs.Limits.{InRange};
ghost use Rattle.soundness.specs.Computed.{total_box};

use crate::read::entry_at;
use certificate_nodes::Presented;
use complex_box::{CBox, Work};
use letters::{Entry, Letter};
use near_field::pair;
use points::Point;

/// The box of the pair of a source and a place.
fn pair_at(p: &Point, x: i64, y: i64) -> CBox
    requires range { InRange widest_grid p.now }
    requires in_grid { IsInGrid widest_grid x y }
    ensures ends { box_ends result ≡ pair_box (gaussian x y) p.now }
    ensures size { BoxWithin (2 ^ 67) result }
{
    let mut work = Work::new();
    pair(p, x, y, &mut work)
}

/// The sum of the boxes of the pairs with some sources.
fn pairs_with(sources: &[Point], x: i64, y: i64) -> CBox
    requires few { length sources.now ≤ most_points widest_grid }
    requires range { All (InRange widest_grid) sources.now }
    requires in_grid { IsInGrid widest_grid x y }
    ensures ends { box_ends result ≡ total_box (pair_box (gaussian x y)) sources.now }
    ensures size { BoxWithin (2 ^ 84) result }
{
    let mut sum = CBox::zero();
    for p in sources {
        sum = sum.add(pair_at(p, x, y));
    }
    sum
}

/// What an entry brings as pairs. Its rule holds.
fn entry_pairs(given: &Presented, entry: Entry, x: i64, y: i64) -> CBox
    requires presented { IsPresented given.now }
    requires node { entry.c < node_count given.now }
    requires fit { IsFit given.now.points given.now.certificate entry.letter entry.b entry.c }
    requires in_grid { IsInGrid widest_grid x y }
    ensures ends { box_ends result ≡ pairs_of (accounting_of given.now) (gaussian x y) entry }
    ensures size { BoxWithin (2 ^ 84) result }
{
    match entry.letter {
        Letter::U => pairs_with(given.sources(entry.c), x, y),
        Letter::V | Letter::W | Letter::X => CBox::zero(),
    }
}

/// What all entries of a node bring as pairs.
pub(crate) fn near_value(given: &Presented, n: usize, x: i64, y: i64) -> CBox
    requires presented { IsPresented given.now }
    requires node { n < node_count given.now }
    requires entries { EntriesHold given.now }
    requires in_grid { IsInGrid widest_grid x y }
    ensures ends { box_ends result ≡ total_box (λ e. pairs_of (accounting_of given.now) (gaussian x y) (entry_of given.now.certificate e)) (entry_numbers_at given.now.certificate n) }
    ensures size { BoxWithin (2 ^ 113) result }
{
    let cert = given.cert();
    let mut sum = CBox::zero();
    for e in given.entries(n) {
        let entry = entry_at(cert, *e as usize);
        sum = sum.add(entry_pairs(given, entry, x, y));
    }
    sum
}
