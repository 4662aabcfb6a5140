//! Numbers, intervals and boxes that follow from a counter.
ghost use Rattle.std.specs.Prelude.{◌^◌};
ghost use Rattle.exact_math.specs.Within.{Within};
ghost use Rattle.fixed_interval.specs.Interval.{IntervalWithin};
ghost use Rattle.complex_box.specs.Box.{BoxWithin};

use complex_box::CBox;
use fixed_interval::Interval;

#[inline(always)]
fn mixed(k: u64) -> u64 {
    k.wrapping_mul(6_364_136_223_846_793_005)
        .wrapping_add(1_442_695_040_888_963_407)
}

/// A number below 2^60 in size.
#[inline(always)]
pub fn number(k: u64) -> i128
    ensures { Within (2 ^ 60) result }
{
    i128::from(mixed(k) >> 3) - (1 << 60)
}

/// An interval of up to seven units.
#[inline(always)]
pub fn interval(k: u64) -> Interval
    ensures { IntervalWithin (2 ^ 61) result }
{
    let lo = number(k);
    Interval::new(lo, lo + i128::from(k % 8))
}

/// An interval with ends of up to 78 bits, as the numerators of a pair have.
#[inline(always)]
pub fn wide_interval(k: u64) -> Interval
    ensures { IntervalWithin (2 ^ 78) result }
{
    let lo = number(k) * 0x2_0000;
    Interval::new(lo, lo + i128::from(k % 8))
}

#[inline(always)]
fn part(k: u64) -> Interval
    ensures { IntervalWithin (2 ^ 48) result }
{
    let lo = i128::from(mixed(k) >> 16) - (1 << 47);
    Interval::new(lo, lo + i128::from(k % 8))
}

/// A box of up to seven units a part.
#[inline(always)]
pub fn boxed(k: u64) -> CBox
    ensures { BoxWithin (2 ^ 48) result }
{
    CBox {
        re: part(k),
        im: part(k.wrapping_add(1)),
    }
}
