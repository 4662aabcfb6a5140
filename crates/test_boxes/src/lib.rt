//! Boxes as tests compare them.
#![tactic(auto)]

ghost use Rattle.std.specs.Prelude.{◌≡◌};

use complex_box::CBox;

/// The lower and the upper end of the real part, and those of the imaginary part.
pub type Ends = ((i128, i128), (i128, i128));

/// The ends of a box.
pub fn ends(b: CBox) -> Ends
    ensures re { (result.0.0 ≡ b.re.lo) × (result.0.1 ≡ b.re.hi) }
    ensures im { (result.1.0 ≡ b.im.lo) × (result.1.1 ≡ b.im.hi) }
{
    ((b.re.lo, b.re.hi), (b.im.lo, b.im.hi))
}
