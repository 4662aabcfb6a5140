//! Whether counts enclose a box, in numbers that fit.
ghost use Rattle.std.specs.Prelude.{◌↔◌, IsTrue, ◌*ℤ◌, ◌≤ℤ◌};
ghost use Rattle.complex_box.specs.Box.{box_ends, BoxWithin};
ghost use Rattle.exact_math.specs.Units.{unit};
ghost use Rattle.exact_math.specs.Within.{Within};
ghost use Rattle.fixed_interval.specs.Interval.{ends_of, IntervalWithin};
ghost use Rattle.limits.specs.Limits.{most_printed};
ghost use Rattle.soundness.specs.Counts.{count_unit, AreAround, EncloseBox};
ghost use Rattle.certificate_targets.specs.Parts.{counts_in};
ghost use Rattle.cert_text.specs.Sections.{AreOrderedEnds};

use complex_box::CBox;
use fixed_interval::Interval;

/// `2^40` over `2^12`: how many units are 1, without the factor that the counts have too.
const UNITS: i128 = 1 << 28;

/// `10^12` over `2^12`, which is `5^12`: how many counts are 1, without that factor.
const COUNTS: i128 = 244_140_625;

/// Whether a count of 10^-12 is at most an end in units of 2^-40. Condition: neither is larger in size than what is printed.
fn is_below(count: i128, end: i128) -> bool
    requires count { Within most_printed count }
    requires end { Within most_printed end }
    ensures { IsTrue result ↔ ((unit *ℤ count) ≤ℤ (count_unit *ℤ end)) }
{
    UNITS * count <= COUNTS * end
}

/// Whether an end in units of 2^-40 is at most a count of 10^-12. Condition: neither is larger in size than what is printed.
fn is_above(count: i128, end: i128) -> bool
    requires count { Within most_printed count }
    requires end { Within most_printed end }
    ensures { IsTrue result ↔ ((count_unit *ℤ end) ≤ℤ (unit *ℤ count)) }
{
    COUNTS * end <= UNITS * count
}

/// Whether two counts enclose an interval.
fn are_around(interval: Interval, lo: i128, hi: i128) -> bool
    requires interval { IntervalWithin most_printed interval }
    requires lo { Within most_printed lo }
    requires hi { Within most_printed hi }
    ensures { IsTrue result ↔ AreAround (ends_of interval) (record { lo = lo; hi = hi }) }
{
    is_below(lo, interval.lo) && is_above(hi, interval.hi)
}

/// Whether the counts, lower and upper of both parts, enclose a box.
pub(crate) fn enclose(value: CBox, counts: [i128; 4]) -> bool
    requires value { BoxWithin most_printed value }
    requires counts { AreOrderedEnds most_printed counts }
    ensures { IsTrue result ↔ EncloseBox (box_ends value) (counts_in counts 0) (counts_in counts 2) }
{
    let [a, b, c, d] = counts;
    are_around(value.re, a, b) && are_around(value.im, c, d)
}
