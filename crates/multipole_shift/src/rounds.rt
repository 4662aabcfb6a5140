//! The rounds of the shift up, in place.
ghost use Rattle.std.specs.Prelude.{◌≡◌, ℕ, ◌^◌, ◌<◌, ◌≤◌, pos, length};
ghost use Rattle.exact_math.specs.Ends.{add_box, scale_box, gscale_box, quot_box};
ghost use Rattle.complex_box.specs.Box.{box_ends, BoxWithin};
ghost use Rattle.row_recursions.specs.Cells.{quadrant_of};
ghost use Rattle.row_recursions.specs.Rows.{row_of, shifted_up};
ghost use Rattle.row_recursions.specs.Sizes.{RowWithin};

use cell_name::Quadrant;
use complex_box::CBox;
use row_recursions::{doubled, turned};

/// A quarter of twice the next coefficient and the quadrant times this one, rounded outward.
#[inline]
fn step(next: CBox, here: CBox, q: Quadrant) -> CBox
    requires next { BoxWithin (2 ^ 80) next }
    requires here { BoxWithin (2 ^ 80) here }
    ensures { box_ends result ≡ quot_box (add_box (scale_box (box_ends next) (pos 2)) (gscale_box (box_ends here) (quadrant_of q))) (pos 4) }
{
    doubled(next).add(turned(here, q)).quot_shift(2)
}

/// Replaces the row of a child by that row about its parent's centre.
///
/// The coefficient `i` of the round `r` stands at `r + i`: so each round takes its coefficients from the last one down, and what stands
/// below `r` is done.
pub(crate) fn shift_in_place(row: &mut [CBox], q: Quadrant)
    requires size { RowWithin (length row.old) (2 ^ 80) (row_of row.old) }
    ensures len { length row.new ≡ length row.old }
    ensures shifted { (k : ℕ) → k < length row.old → row_of row.new k ≡ shifted_up (row_of row.old) (quadrant_of q) k }
{
    let len = row.len();
    for r in 0..len {
        for i in 0..len - 1 - r {
            let at = len - 1 - i;
            row[at] = step(row[at], row[at - 1], q);
        }
    }
}
