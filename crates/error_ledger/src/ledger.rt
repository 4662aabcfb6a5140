//! The radius of a row or of a target.
ghost use Rattle.std.specs.Int.{div_ceil};
ghost use Rattle.std.specs.Prelude.{◌≡◌, ℕ, ◌+◌, ◌-◌, ◌*◌, ◌^◌, ◌≤◌, ◌<◌, pos, ◌≤ℤ◌, ◌<ℤ◌, unsigned_abs};
ghost use Rattle.limits.specs.Limits.{widest_grid};
ghost use Rattle.truncation.specs.Tails.{pair_tail as tail_of_pairs, single_tail as tail_of_singles, pair_loss, single_loss};
ghost use Rattle.truncation.specs.Truncation.{MakesUp};

use std::marker::Model;
use tail_bounds::{pair_tail, single_tail};

/// The sum of what entries can lose at most, in units of 2^-40. Contracts see it as that number. It stays below 2^100.
#[derive(Clone, Copy, PartialEq, Eq, Debug)]
pub struct Ledger {
    radius: u128,
}

impl Model for Ledger {
    ghost use Rattle.std.specs.Prelude.{ℕ, ◌^◌, ◌<◌};

    ghost Value = { ℕ };

    ghost view = { λ l. l.radius };

    ghost invariant = { λ l. l.radius < 2 ^ 100 };

    ghost inverse = { λ n. record { radius = n } };
}

impl Ledger {
    /// No entries yet.
    pub fn new() -> Ledger
        ensures { result ≡ 0 }
    {
        Ledger { radius: 0 }
    }

    /// The sum so far.
    pub fn radius(&self) -> i128
        ensures value { result ≡ pos self.now }
        ensures small { result <ℤ pos (2 ^ 100) }
    {
        self.radius as i128
    }

    /// Adds `ceil(weight TV/side)`, what an entry of two cells of one side can lose: `weight` is the total weight of its
    /// sources, and `TV` the tail of pairs at the order. Conditions: `weight >= 0`, `side` is at least 1 and at
    /// most that of the widest grid, `order` is 1 to 32, and the sum stays below 2^100.
    pub fn add_pair(&mut self, weight: i128, side: i64, order: u32)
        requires weight { pos 0 ≤ℤ weight }
        requires least_side { pos 1 ≤ℤ side }
        requires most_side { side ≤ℤ pos (2 ^ widest_grid) }
        requires least { 1 ≤ order }
        requires most { order ≤ 32 }
        requires room { self.old + pair_loss order (unsigned_abs weight) (unsigned_abs side) < 2 ^ 100 }
        ensures added { self.new ≡ self.old + pair_loss order (unsigned_abs weight) (unsigned_abs side) }
        ensures bounds { MakesUp (unsigned_abs weight * tail_of_pairs order) (unsigned_abs side) (self.new - self.old) }
    {
        let tail = pair_tail(order).unsigned_abs();
        self.add(weight.unsigned_abs(), tail, side.unsigned_abs());
    }

    /// Adds `ceil(weight TW/side)`, what an entry of one cell and far places can lose: `weight` is the total weight of its
    /// sources, `side` that of the cell whose row is cut off, and `TW` the single tail at the order. Conditions as in
    /// `add_pair`. An entry loses no more than that from order 2 on: a dipole needs it.
    pub fn add_single(&mut self, weight: i128, side: i64, order: u32)
        requires weight { pos 0 ≤ℤ weight }
        requires least_side { pos 1 ≤ℤ side }
        requires most_side { side ≤ℤ pos (2 ^ widest_grid) }
        requires least { 1 ≤ order }
        requires most { order ≤ 32 }
        requires room { self.old + single_loss order (unsigned_abs weight) (unsigned_abs side) < 2 ^ 100 }
        ensures added { self.new ≡ self.old + single_loss order (unsigned_abs weight) (unsigned_abs side) }
        ensures bounds { MakesUp (unsigned_abs weight * tail_of_singles order) (unsigned_abs side) (self.new - self.old) }
    {
        let tail = single_tail(order).unsigned_abs();
        self.add(weight.unsigned_abs(), tail, side.unsigned_abs());
    }

    /// Adds `ceil(weight tail/side)`.
    fn add(&mut self, weight: u128, tail: u128, side: u64)
        requires least { 1 ≤ side }
        requires most { side ≤ 2 ^ widest_grid }
        requires room { self.old + div_ceil (weight * tail) side < 2 ^ 100 }
        ensures { self.new ≡ self.old + div_ceil (weight * tail) side }
    {
        self.radius += (weight * tail).div_ceil(u128::from(side));
    }
}
