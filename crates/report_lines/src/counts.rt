//! From ends in units of 2^-40 to counts of 10^-12.
ghost use Rattle.std.specs.Prelude.{◌≡◌, ◌*◌, ◌^◌, if◌then◌else◌, pos, neg_ℤ};
ghost use Rattle.exact_math.specs.Contains.{Contains};
ghost use Rattle.exact_math.specs.Ratio.{Ratio, neg_ratio};
ghost use Rattle.exact_math.specs.Rounding.{floor_div};
ghost use Rattle.exact_math.specs.Within.{Within};
ghost use Rattle.exact_math.specs.Units.{unit};
ghost use Rattle.complex_box.specs.Box.{BoxWithin, box_ends};
ghost use Rattle.fixed_interval.specs.Interval.{IntervalWithin};
ghost use Rattle.limits.specs.Limits.{most_printed};
ghost use Rattle.report_lines.specs.Counts.{target_counts, count_below, count_above};

use complex_box::{CBox, UNIT_BITS};
use fixed_interval::Interval;
use points::Mode;

// 2^12 divides both 10^12 and 2^40, so `10^12 n / 2^40` is `5^12 n / 2^28`, and the product stays below 2^125.
const FACTOR: i128 = 244_140_625;

const SHIFT: u32 = UNIT_BITS - 12;

/// `10^12 n / 2^40` rounded down, or rounded up where `up` is set: the count of an end `n` of a box.
///
/// `n` is at most 2^96 in size, and so is its count.
pub fn to_count(n: i128, up: bool) -> i128
    requires { Within most_printed n }
    ensures value { result ≡ (if up then count_above n else count_below n) }
    ensures size { Within most_printed result }
{
    if up {
        return count_up(n);
    }
    count_down(n)
}

fn count_down(n: i128) -> i128
    requires { Within most_printed n }
    ensures value { result ≡ count_below n }
    ensures size { Within most_printed result }
{
    shifted(n * FACTOR)
}

fn count_up(n: i128) -> i128
    requires { Within most_printed n }
    ensures value { result ≡ count_above n }
    ensures size { Within most_printed result }
{
    -shifted(-(n * FACTOR))
}

// `z / 2^28` rounded down.
fn shifted(z: i128) -> i128
    requires { Within (5 ^ 12 * most_printed) z }
    ensures value { result ≡ floor_div z (pos (2 ^ 28)) }
    ensures size { Within most_printed result }
{
    z >> SHIFT
}

/// The printed counts of the ends of an interval.
#[derive(Clone, Copy)]
pub(crate) struct CountEnds {
    pub(crate) lo: i128,
    pub(crate) hi: i128,
    ghost low_size: { Within most_printed lo },
    ghost high_size: { Within most_printed hi },
}

impl CountEnds {
    /// The count of the lower end rounded down, and that of the upper end rounded up.
    pub(crate) fn of(i: Interval) -> CountEnds
        requires { IntervalWithin most_printed i }
        ensures lo { result.lo ≡ count_below i.lo }
        ensures hi { result.hi ≡ count_above i.hi }
        ensures contains { (x : Ratio) → Contains unit i.lo i.hi x → Contains (pos (10 ^ 12)) result.lo result.hi x }
    {
        CountEnds {
            lo: count_down(i.lo),
            hi: count_up(i.hi),
        }
    }

    /// The counts of the negative.
    pub(crate) fn neg(self) -> CountEnds
        ensures lo { result.lo ≡ neg_ℤ self.hi }
        ensures hi { result.hi ≡ neg_ℤ self.lo }
        ensures contains { (x : Ratio) → Contains (pos (10 ^ 12)) self.lo self.hi x → Contains (pos (10 ^ 12)) result.lo result.hi (neg_ratio x) }
    {
        CountEnds {
            lo: -self.hi,
            hi: -self.lo,
        }
    }
}

/// The counts of the second pair of a target line: those of the imaginary part, or of its negative in a velocity line.
pub(crate) fn second_counts(mode: Mode, v: CBox) -> CountEnds
    requires { BoxWithin most_printed v }
    ensures lo { result.lo ≡ (target_counts mode (box_ends v)).second.lo }
    ensures hi { result.hi ≡ (target_counts mode (box_ends v)).second.hi }
{
    let counts = CountEnds::of(v.im);
    match mode {
        Mode::Field => counts,
        Mode::Velocity => counts.neg(),
    }
}
