//! Horner's scheme in `(2 T + q)/4` on a row of coefficients, in place.
ghost use Rattle.std.specs.Prelude.{◌≡◌, ℕ, ◌^◌, ◌<◌, ◌≤◌, pos, length};
ghost use Rattle.exact_math.specs.Ends.{zero_box, add_box, scale_box, gscale_box, quot_box};
ghost use Rattle.exact_math.specs.Orders.{IsOrder};
ghost use Rattle.complex_box.specs.Box.{box_ends, BoxWithin};
ghost use Rattle.row_recursions.specs.Rows.{row_of, RowsAdd, down_round};
ghost use Rattle.row_recursions.specs.Sizes.{RowWithin};
ghost use Rattle.row_recursions.specs.Cells.{quadrant_of};
ghost use Rattle.local_shift.specs.Rounds.{next_row};

use cell_name::Quadrant;
use complex_box::{CBox, Row};
use row_recursions::{doubled, turned};

/// Coefficient 0 after a round: a quarter of `q` times what it was, and the coefficient that is taken in.
#[inline(always)]
fn first_coefficient(taken: CBox, own: CBox, q: Quadrant) -> CBox
    requires taken { BoxWithin (2 ^ 91) taken }
    requires own { BoxWithin (2 ^ 91) own }
    ensures { box_ends result ≡ add_box (box_ends taken) (quot_box (gscale_box (box_ends own) (quadrant_of q)) (pos 4)) }
{
    taken.add(turned(own, q).quot_shift(2))
}

/// Each further coefficient after a round: a quarter of `q` times what it was and twice what the one below it was.
#[inline(always)]
fn next_coefficient(own: CBox, lower: CBox, q: Quadrant) -> CBox
    requires own { BoxWithin (2 ^ 91) own }
    requires lower { BoxWithin (2 ^ 91) lower }
    ensures { box_ends result ≡ quot_box (add_box (gscale_box (box_ends own) (quadrant_of q)) (scale_box (box_ends lower) (pos 2))) (pos 4) }
{
    turned(own, q).add(doubled(lower)).quot_shift(2)
}

/// One round on the first `n + 1` boxes, which takes a coefficient in.
#[inline]
fn take_in(moved: &mut [CBox], n: usize, taken: CBox, q: Quadrant)
    requires index { n < length moved.old }
    requires taken { BoxWithin (2 ^ 91) taken }
    requires size { RowWithin (length moved.old) (2 ^ 91) (row_of moved.old) }
    ensures len { length moved.new ≡ length moved.old }
    ensures next { (k : ℕ) → k ≤ n → row_of moved.new k ≡ next_row (box_ends taken) (quadrant_of q) (row_of moved.old) k }
    ensures others { (k : ℕ) → n < k → row_of moved.new k ≡ row_of moved.old k }
{
    let mut lower = moved[0];
    moved[0] = first_coefficient(taken, lower, q);
    for k in 1..n + 1 {
        let own = moved[k];
        moved[k] = next_coefficient(own, lower, q);
        lower = own;
    }
}

/// Makes a row of zero boxes the polynomial of the parent's row in the child's variable. After `n` rounds its degree is below `n`.
pub(crate) fn move_down<const P: usize>(parent: Row<P>, q: Quadrant, moved: &mut [CBox])
    requires order { IsOrder P }
    requires len { length moved.old ≡ P }
    requires size { RowWithin P (2 ^ 90) (row_of parent.cells.now) }
    requires empty { (k : ℕ) → k < P → row_of moved.old k ≡ zero_box }
    ensures len { length moved.new ≡ P }
    ensures moved { (k : ℕ) → k < P → row_of moved.new k ≡ down_round P (row_of parent.entry.cells.now) (quadrant_of q) P k }
{
    for n in 0..P {
        take_in(moved, n, parent.get(P - 1 - n), q);
    }
}

/// Adds half of a row to another of its length, rounded outward. Condition: all ends of the sums are at most 2^126 in size.
pub(crate) fn add_halves(into: &mut [CBox], moved: &[CBox])
    requires len { length moved.now ≡ length into.old }
    requires fits { RowWithin (length into.old) (2 ^ 126) (λ k. add_box (row_of into.old k) (quot_box (row_of moved.now k) (pos 2))) }
    ensures len { length into.new ≡ length into.old }
    ensures adds { RowsAdd (length into.old) (row_of into.old) (λ k. quot_box (row_of moved.now k) (pos 2)) (row_of into.new) }
{
    for k in 0..into.len() {
        into[k] = into[k].add(moved[k].quot_shift(1));
    }
}
