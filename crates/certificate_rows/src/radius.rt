//! The radius of a local row: what its parent's row and its entries can lose by truncation.
ghost use Rattle.std.specs.Int.{div_ceil};
ghost use Rattle.std.specs.Prelude.{◌≡◌, ◌+◌, ◌*◌, ◌^◌, ◌<◌, ◌≤◌, length, cond, All, sum_by, IsTrue, ◌↔◌};
ghost use Rattle.certificate_nodes.specs.Presented.{accounting_of, node_count};
ghost use Rattle.letters.specs.declared.Letter.TheVariants.{V, X};
ghost use Rattle.limits.specs.Limits.{most_entries, most_given_local, most_weight, widest_grid};
ghost use Rattle.soundness.specs.Accounts.{is_letter};
ghost use Rattle.soundness.specs.Computed.{computed_local_radius, radius_above};
ghost use Rattle.truncation.specs.Tails.{pair_loss, single_loss};
ghost use Rattle.certificate_rows.specs.Entries.{loss_at, nth_entry};

use crate::given::{certificate, entry_at, node_at, radius_at};
use certificate_nodes::Presented;
use letters::{Entry, Letter};
use tail_bounds::{pair_tail, single_tail};

/// `weight tail/side`, rounded up.
fn loss(weight: u64, tail: u128, side: u64) -> u128
    requires weight { weight ≤ most_weight widest_grid }
    requires tail { tail ≤ 2 ^ 41 }
    requires side { 1 ≤ side }
    ensures value { result ≡ div_ceil (weight * tail) side }
    ensures size { result ≤ 2 ^ 77 }
{
    (u128::from(weight) * tail).div_ceil(u128::from(side))
}

/// What an entry of a cell of this side can lose, whose sources have this weight: a V entry by the tail of pairs, an X entry by the single tail,
/// and nothing by another. The order is 1 to 32.
fn entry_loss(entry: Entry, order: u32, weight: u64, side: u64) -> u128
    requires least { 1 ≤ order }
    requires most { order ≤ 32 }
    requires weight { weight ≤ most_weight widest_grid }
    requires side { 1 ≤ side }
    ensures value { result ≡ cond (is_letter V entry.letter) (pair_loss order weight side) 0 + cond (is_letter X entry.letter) (single_loss order weight side) 0 }
    ensures size { result ≤ 2 ^ 77 }
{
    match entry.letter {
        Letter::V => loss(weight, pair_tail(order).unsigned_abs(), side),
        Letter::X => loss(weight, single_tail(order).unsigned_abs(), side),
        Letter::U | Letter::W => 0,
    }
}

/// What the entries of these numbers can lose, of a cell of this side.
fn entries_loss<const P: usize>(given: &Presented, side: u64, entries: &[u32]) -> u128
    requires order { given.now.certificate.head.order ≡ P }
    requires side { 1 ≤ side }
    requires numbers { All (λ e. e < given.now.certificate.head.entries) entries.now }
    requires few { length entries.now ≤ most_entries widest_grid }
    ensures value { result ≡ sum_by (λ e. loss_at (accounting_of given.now) P side (nth_entry given.now.certificate e)) entries.now }
    ensures size { result ≤ 2 ^ 106 }
{
    let cert = certificate(given);
    let mut sum = 0;
    for e in entries {
        let entry = entry_at(cert, *e as usize);
        sum += entry_loss(entry, cert.order(), given.weight(entry.c), side);
    }
    sum
}

/// The given radius of a node's parent, and 0 for node 0.
fn radius_above(given: &Presented, n: usize) -> u128
    requires { n < node_count given.now }
    ensures value { result ≡ radius_above given.now.certificate.head.order (accounting_of given.now) n }
    ensures size { result ≤ most_given_local }
{
    let cert = certificate(given);
    if n == 0 {
        return 0;
    }
    let (parent, _) = node_at(cert, n);
    radius_at(cert, parent)
}

/// Whether the given radius of a node is at least what the method computes.
pub(crate) fn radius_holds<const P: usize>(given: &Presented, n: usize) -> bool
    requires order { given.now.certificate.head.order ≡ P }
    requires node { n < node_count given.now }
    ensures { IsTrue result ↔ computed_local_radius P (accounting_of given.now) n ≤ (accounting_of given.now).radius n }
{
    let cert = certificate(given);
    let (_, cell) = node_at(cert, n);
    let lost = entries_loss::<P>(given, cell.side().unsigned_abs(), given.entries(n));
    radius_above(given, n) + lost <= radius_at(cert, n)
}
