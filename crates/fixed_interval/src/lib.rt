//! Intervals of whole ends with directed rounding.
//!
//! An interval counts units of its caller's choice. One rule holds for every call but `take`, which undoes `add`:
//! whatever fractions the arguments contain, the result contains the exact result in the same unit, and a product in
//! the product of the units. Sums and products are exact; a quotient rounds its lower end down and its upper end up.
#![tactic(auto)]

ghost use Rattle.std.specs.Prelude.{ℕ, ◌^◌, ℤ, ◌≤ℤ◌};
ghost use Rattle.exact_math.specs.Within.{Within};

mod guesses;
mod products;
mod rounding;

pub use guesses::Reciprocal;
use guesses::quotients_by;
use products::{high_product, low_product};
pub use rounding::{ceil_shift, floor_shift};
use rounding::{NARROW, ceil_near, floor_quot};

/// The whole ends `lo <= hi`, each from -2^126 to 2^126.
#[derive(Clone, Copy, PartialEq, Eq, Debug)]
pub struct Interval {
    pub lo: i128,
    pub hi: i128,
    pub ghost ordered: { lo ≤ℤ hi },
    pub ghost low_end: { Within (2 ^ 126) lo },
    pub ghost high_end: { Within (2 ^ 126) hi },
}

impl Interval {
    ghost use Rattle.std.specs.Prelude.{◌≡◌, ◌<◌, pos, neg_ℤ, ◌*ℤ◌, IsTrue, ◌↔◌};
    ghost use Rattle.exact_math.specs.Contains.{Contains};
    ghost use Rattle.exact_math.specs.Ends.{EndsWithin, EndsInside, add_ends, take_ends, neg_ends, sub_ends, scale_ends, times_ends, quot_ends, widen_ends};
    ghost use Rattle.exact_math.specs.Ratio.{Ratio, whole_ratio, add_ratio, neg_ratio, sub_ratio, mul_ratio, over_ratio};
    ghost use Rattle.fixed_interval.specs.Interval.{ends_of, IntervalContains, AreEnds};
    ghost use Rattle.fixed_interval.specs.declared.Interval.{Interval};

    /// `[n, n]`. Condition: `n` is at most 2^126 in size.
    pub fn point(n: i128) -> Interval
        requires { Within (2 ^ 126) n }
        ensures lo { result.lo ≡ n }
        ensures hi { result.hi ≡ n }
        ensures contains { IntervalContains (pos 1) result (whole_ratio n) }
    {
        Interval { lo: n, hi: n }
    }

    /// `[lo, hi]`. Conditions: `lo <= hi`, and both ends are at most 2^126 in size.
    pub fn new(lo: i128, hi: i128) -> Interval
        requires ordered { lo ≤ℤ hi }
        requires low_end { Within (2 ^ 126) lo }
        requires high_end { Within (2 ^ 126) hi }
        ensures lo { result.lo ≡ lo }
        ensures hi { result.hi ≡ hi }
        ensures contains { (u : ℤ) (x : Ratio) → Contains u lo hi x → IntervalContains u result x }
    {
        Interval { lo, hi }
    }

    /// The sum: lower end plus lower end, upper end plus upper end. Condition: both sums are at most 2^126 in size.
    #[inline]
    pub fn add(self, o: Interval) -> Interval
        requires { EndsWithin (2 ^ 126) (add_ends (ends_of self) (ends_of o)) }
        ensures ends { ends_of result ≡ add_ends (ends_of self) (ends_of o) }
        ensures contains { (u : ℤ) (x y : Ratio) → IntervalContains u self x → IntervalContains u o y → IntervalContains u result (add_ratio x y) }
    {
        Interval {
            lo: self.lo + o.lo,
            hi: self.hi + o.hi,
        }
    }

    /// Takes a part away from a sum: lower end minus lower end, upper end minus upper end. It undoes `add`.
    /// Condition: this leaves the ends of an interval.
    #[inline]
    pub fn take(self, o: Interval) -> Interval
        requires { AreEnds (take_ends (ends_of self) (ends_of o)) }
        ensures ends { ends_of result ≡ take_ends (ends_of self) (ends_of o) }
        ensures undoes { (rest : Interval) → ends_of self ≡ add_ends (ends_of rest) (ends_of o) → ends_of result ≡ ends_of rest }
    {
        Interval {
            lo: self.lo - o.lo,
            hi: self.hi - o.hi,
        }
    }

    /// The difference `[lo - o.hi, hi - o.lo]`. Condition: both ends are at most 2^126 in size.
    #[inline]
    pub fn sub(self, o: Interval) -> Interval
        requires { EndsWithin (2 ^ 126) (sub_ends (ends_of self) (ends_of o)) }
        ensures ends { ends_of result ≡ sub_ends (ends_of self) (ends_of o) }
        ensures contains { (u : ℤ) (x y : Ratio) → IntervalContains u self x → IntervalContains u o y → IntervalContains u result (sub_ratio x y) }
    {
        Interval {
            lo: self.lo - o.hi,
            hi: self.hi - o.lo,
        }
    }

    /// `[-hi, -lo]`.
    #[inline]
    pub fn neg(self) -> Interval
        ensures ends { ends_of result ≡ neg_ends (ends_of self) }
        ensures contains { (u : ℤ) (x : Ratio) → IntervalContains u self x → IntervalContains u result (neg_ratio x) }
    {
        Interval {
            lo: -self.hi,
            hi: -self.lo,
        }
    }

    /// The products of both ends with `k`, in order. Condition: both are at most 2^126 in size.
    #[inline]
    pub fn scale(self, k: i128) -> Interval
        requires { EndsWithin (2 ^ 126) (scale_ends (ends_of self) k) }
        ensures ends { ends_of result ≡ scale_ends (ends_of self) k }
        ensures contains { (u : ℤ) (x : Ratio) → IntervalContains u self x → IntervalContains u result (mul_ratio (whole_ratio k) x) }
    {
        Interval {
            lo: low_product(self.lo, self.hi, k),
            hi: high_product(self.lo, self.hi, k),
        }
    }

    /// The product: the least and the greatest of the four products of an end with an end.
    /// Condition: these two are at most 2^126 in size.
    ///
    /// Where this interval doesn't straddle zero, two of the four products are enough.
    #[inline]
    pub fn times(self, o: Interval) -> Interval
        requires { EndsWithin (2 ^ 126) (times_ends (ends_of self) (ends_of o)) }
        ensures ends { ends_of result ≡ times_ends (ends_of self) (ends_of o) }
        ensures contains { (u v : ℤ) (x y : Ratio) → IntervalContains u self x → IntervalContains v o y → IntervalContains (u *ℤ v) result (mul_ratio x y) }
    {
        if self.lo >= 0 {
            return Interval {
                lo: low_product(self.lo, self.hi, o.lo),
                hi: high_product(self.lo, self.hi, o.hi),
            };
        }
        if self.hi <= 0 {
            return Interval {
                lo: low_product(self.lo, self.hi, o.hi),
                hi: high_product(self.lo, self.hi, o.lo),
            };
        }
        let straight = self.lo * o.lo;
        let crossed = self.lo * o.hi;
        Interval {
            lo: crossed.min(self.hi * o.lo),
            hi: straight.max(self.hi * o.hi),
        }
    }

    /// The quotient `[floor(lo/n), ceil(hi/n)]`. Condition: `n >= 1`.
    #[inline(always)]
    pub fn quot(self, n: i128) -> Interval
        requires { pos 1 ≤ℤ n }
        ensures ends { ends_of result ≡ quot_ends (ends_of self) n }
        ensures contains { (u : ℤ) (x : Ratio) → IntervalContains u self x → IntervalContains u result (over_ratio x n) }
    {
        self.quot_by(n, Reciprocal::of(n))
    }

    /// The same quotient, for a caller that divides many intervals by `n` and keeps its reciprocal. Condition: `n >= 1`.
    ///
    /// The result is the same with any reciprocal; one that isn't that of `n` costs divisions.
    #[inline(always)]
    pub fn quot_by(self, n: i128, reciprocal: Reciprocal) -> Interval
        requires { pos 1 ≤ℤ n }
        ensures ends { ends_of result ≡ quot_ends (ends_of self) n }
        ensures contains { (u : ℤ) (x : Ratio) → IntervalContains u self x → IntervalContains u result (over_ratio x n) }
    {
        if n <= NARROW {
            if let Some(q) = quotients_by(self.lo, self.hi, n as i64, reciprocal) {
                return Interval { lo: q.lo, hi: q.hi };
            }
        }
        self.quot_divided(n)
    }

    /// The same quotient by divisions.
    ///
    /// One division serves both ends where the interval lies between two neighbouring multiples of `n`.
    #[cold]
    #[inline(never)]
    fn quot_divided(self, n: i128) -> Interval
        requires { pos 1 ≤ℤ n }
        ensures ends { ends_of result ≡ quot_ends (ends_of self) n }
        ensures contains { (u : ℤ) (x : Ratio) → IntervalContains u self x → IntervalContains u result (over_ratio x n) }
    {
        let lo = floor_quot(self.lo, n);
        let hi = ceil_near(self.hi, n, self.lo, lo);
        Interval { lo, hi }
    }

    /// The quotient by 2^k, `[floor(lo/2^k), ceil(hi/2^k)]`, by shifts. Condition: `k < 127`.
    #[inline]
    pub fn quot_shift(self, k: u32) -> Interval
        requires { k < 127 }
        ensures ends { ends_of result ≡ quot_ends (ends_of self) (pos (2 ^ k)) }
        ensures contains { (u : ℤ) (x : Ratio) → IntervalContains u self x → IntervalContains u result (over_ratio x (pos (2 ^ k))) }
    {
        let lo = floor_shift(self.lo, k);
        let hi = ceil_shift(self.hi, k);
        Interval { lo, hi }
    }

    /// `[lo - r, hi + r]`, which contains what differs by at most `r` from something that this interval contains.
    /// Conditions: `r >= 0`, and both ends are at most 2^126 in size.
    #[inline]
    pub fn widen(self, r: i128) -> Interval
        requires radius { pos 0 ≤ℤ r }
        requires fits { EndsWithin (2 ^ 126) (widen_ends (ends_of self) r) }
        ensures ends { ends_of result ≡ widen_ends (ends_of self) r }
        ensures contains { (u : ℤ) (x y : Ratio) → IntervalContains u self x → Contains u (neg_ℤ r) r (sub_ratio y x) → IntervalContains u result y }
    {
        Interval {
            lo: self.lo - r,
            hi: self.hi + r,
        }
    }

    /// True exactly where `outer.lo <= lo` and `hi <= outer.hi`.
    #[inline]
    pub fn inside(self, outer: Interval) -> bool
        ensures exactly { IsTrue result ↔ EndsInside (ends_of self) (ends_of outer) }
        ensures contains { IsTrue result → (u : ℤ) (x : Ratio) → IntervalContains u self x → IntervalContains u outer x }
    {
        outer.lo <= self.lo && self.hi <= outer.hi
    }
}
