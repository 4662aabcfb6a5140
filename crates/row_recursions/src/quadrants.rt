//! Products of boxes with a quadrant, by signs alone, and with 2.
ghost use Rattle.std.specs.Prelude.{◌≡◌, ◌^◌, pos};
ghost use Rattle.exact_math.specs.Ends.{scale_ends, scale_box, gscale_box};
ghost use Rattle.fixed_interval.specs.Interval.{ends_of};
ghost use Rattle.complex_box.specs.Box.{box_ends, BoxWithin};
ghost use Rattle.row_recursions.specs.Cells.{sign, quadrant_of};

use cell_name::Quadrant;
use complex_box::CBox;
use fixed_interval::Interval;

/// The interval or its negative.
#[inline(always)]
fn signed(x: Interval, plus: bool) -> Interval
    ensures { ends_of result ≡ scale_ends (ends_of x) (sign plus) }
{
    if plus {
        return x;
    }
    x.neg()
}

/// The product with the quadrant, 1 or -1 for its first part and the same times `i` for the second. Condition: all ends are at most
/// 2^120 in size.
#[inline]
pub fn turned(b: CBox, q: Quadrant) -> CBox
    requires { BoxWithin (2 ^ 120) b }
    ensures { box_ends result ≡ gscale_box (box_ends b) (quadrant_of q) }
{
    CBox {
        re: signed(b.re, q.right).sub(signed(b.im, q.top)),
        im: signed(b.re, q.top).add(signed(b.im, q.right)),
    }
}

/// Twice the box. Condition: all ends are at most 2^120 in size.
#[inline]
pub fn doubled(b: CBox) -> CBox
    requires { BoxWithin (2 ^ 120) b }
    ensures { box_ends result ≡ scale_box (box_ends b) (pos 2) }
{
    b.add(b)
}
