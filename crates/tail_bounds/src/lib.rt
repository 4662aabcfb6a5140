//! The two tails of the truncation bound, as whole numbers of units of 2^-40.
//!
//! What the expansions of order `P` leave of one source is, in each part, at most its weight times a tail over the side of
//! the cell. The weight of a pole `a` is `|a|` and that of a dipole `b` is `2 P |b|`, with `|re| + |im|` for the size of a
//! complex number. An offset is at most 17/36 of the distance to a far place, and at most 17/48 of that between two
//! cells, where 17/31 is 17/48 over 1 - 17/48: this project's own account.
#![tactic(auto)]

ghost use Rattle.std.specs.Prelude.{◌≡◌, ◌≤◌, pos, unsigned_abs};
ghost use Rattle.truncation.specs.Tails.{pair_tail as tail_of_pairs, single_tail as tail_of_singles};
ghost use Rattle.truncation.specs.Truncation.{PairTailHolds, SingleTailHolds};

/// The tail for two cells of one side: `2^41`, and `order` times `ceil(17 t/31)` of it. Condition: `order` is 1 to 32.
///
/// It bounds what the expansions of this order leave of a source in one cell at a target in the other, where the cells'
/// centres are at least two sides apart.
pub fn pair_tail(order: u32) -> i128
    requires least { 1 ≤ order }
    requires most { order ≤ 32 }
    ensures value { result ≡ pos (tail_of_pairs order) }
    ensures truncation { PairTailHolds order (unsigned_abs result) }
{
    let mut tail: u64 = 1 << 41;
    for step in 0..order {
        tail = (17 * tail).div_ceil(31);
    }
    i128::from(tail)
}

/// The tail for a cell and a far place: `2^40`, and `order` times `ceil(17 t/36)` of it. Condition: `order` is 1 to 32.
///
/// It bounds what the expansions of this order leave of a source, where the source or the target lies in the cell and the
/// other one at least three half sides from its centre. The bound is stated from order 2 on: a dipole needs it.
pub fn single_tail(order: u32) -> i128
    requires least { 1 ≤ order }
    requires most { order ≤ 32 }
    ensures value { result ≡ pos (tail_of_singles order) }
    ensures truncation { 2 ≤ order → SingleTailHolds order (unsigned_abs result) }
{
    let mut tail: u64 = 1 << 40;
    for step in 0..order {
        tail = (17 * tail).div_ceil(36);
    }
    i128::from(tail)
}
