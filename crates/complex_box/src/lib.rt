//! Boxes: complex intervals of whole ends, rows of them, sums of their products, and the counts of work.
//!
//! A box counts units of its caller's choice. One rule holds for every call but `take`, which undoes `add`: whatever
//! complex fractions the arguments contain, the result contains the exact result in the same unit, and a product in the
//! product of the units.
#![tactic(auto)]

ghost use Rattle.std.specs.Prelude.{◌≡◌, ℕ, ◌^◌, ◌<◌, ℤ, pos, ◌*ℤ◌, ◌≤ℤ◌, IsTrue, ◌↔◌};
ghost use Rattle.exact_math.specs.Ends.{BoxEndsWithin, BoxEndsContain, BoxEndsInside, EndsWithin, zero_box, point_box, add_box, take_box, neg_box, sub_box, scale_box, times_box, gscale_box, quot_box, gquot_box, widen_box};
ghost use Rattle.exact_math.specs.Gaussian.{gaussian};
ghost use Rattle.exact_math.specs.Ratio.{ComplexRatio, whole_complex, zero_complex, neg_complex, over_complex, ◌+ᶜ◌, ◌-ᶜ◌, ◌*ᶜ◌};
ghost use Rattle.exact_math.specs.Within.{Within};
ghost use Rattle.complex_box.specs.Box.{box_ends, number, around, BoxContains, TakeFits, TimesFits, GscaleFits};
ghost use Rattle.complex_box.specs.declared.CBox.{CBox};

mod acc;
mod row;
mod work;

pub use acc::Acc;
use fixed_interval::{Interval, Reciprocal};
pub use row::{Row, clear};
pub use work::Work;

/// The boxes of the layers above count units of `2^-UNIT_BITS`.
pub const UNIT_BITS: u32 = 40;

/// How many of these units are 1.
pub const UNIT: i128 = 1 << UNIT_BITS;

/// A Gaussian integer, `re + i im`.
#[derive(Clone, Copy, PartialEq, Eq, Debug)]
pub struct Gauss {
    pub re: i64,
    pub im: i64,
}

/// An interval for each part of a complex number.
#[derive(Clone, Copy, PartialEq, Eq, Debug)]
pub struct CBox {
    pub re: Interval,
    pub im: Interval,
}

impl CBox {
    /// The box that holds 0 alone.
    pub fn zero() -> CBox
        ensures ends { box_ends result ≡ zero_box }
        ensures contains { (u : ℤ) → BoxContains u result zero_complex }
    {
        CBox::point(0, 0)
    }

    /// The box that holds `re + i im` alone. Condition: both parts are at most 2^126 in size.
    pub fn point(re: i128, im: i128) -> CBox
        requires re { Within (2 ^ 126) re }
        requires im { Within (2 ^ 126) im }
        ensures ends { box_ends result ≡ point_box re im }
        ensures contains { BoxContains (pos 1) result (whole_complex (gaussian re im)) }
    {
        CBox {
            re: Interval::point(re),
            im: Interval::point(im),
        }
    }

    /// The sum, part by part. Condition: all ends of the sum are at most 2^126 in size.
    #[inline]
    pub fn add(self, o: CBox) -> CBox
        requires { BoxEndsWithin (2 ^ 126) (add_box (box_ends self) (box_ends o)) }
        ensures ends { box_ends result ≡ add_box (box_ends self) (box_ends o) }
        ensures contains { (u : ℤ) (z w : ComplexRatio) → BoxContains u self z → BoxContains u o w → BoxContains u result (z +ᶜ w) }
    {
        CBox {
            re: self.re.add(o.re),
            im: self.im.add(o.im),
        }
    }

    /// Takes a part away from a sum, lower end from lower end and upper end from upper end. It undoes `add`.
    /// Condition: this leaves the ends of a box.
    #[inline]
    pub fn take(self, o: CBox) -> CBox
        requires { TakeFits (box_ends self) (box_ends o) }
        ensures ends { box_ends result ≡ take_box (box_ends self) (box_ends o) }
        ensures undoes { (rest : CBox) → box_ends self ≡ add_box (box_ends rest) (box_ends o) → box_ends result ≡ box_ends rest }
    {
        CBox {
            re: self.re.take(o.re),
            im: self.im.take(o.im),
        }
    }

    /// The difference, part by part. Condition: all ends of the difference are at most 2^126 in size.
    #[inline]
    pub fn sub(self, o: CBox) -> CBox
        requires { BoxEndsWithin (2 ^ 126) (sub_box (box_ends self) (box_ends o)) }
        ensures ends { box_ends result ≡ sub_box (box_ends self) (box_ends o) }
        ensures contains { (u : ℤ) (z w : ComplexRatio) → BoxContains u self z → BoxContains u o w → BoxContains u result (z -ᶜ w) }
    {
        CBox {
            re: self.re.sub(o.re),
            im: self.im.sub(o.im),
        }
    }

    /// The negative.
    #[inline]
    pub fn neg(self) -> CBox
        ensures ends { box_ends result ≡ neg_box (box_ends self) }
        ensures contains { (u : ℤ) (z : ComplexRatio) → BoxContains u self z → BoxContains u result (neg_complex z) }
    {
        CBox {
            re: self.re.neg(),
            im: self.im.neg(),
        }
    }

    /// The product with the whole number `k`. Condition: all its ends are at most 2^126 in size.
    #[inline]
    pub fn scale(self, k: i128) -> CBox
        requires { BoxEndsWithin (2 ^ 126) (scale_box (box_ends self) k) }
        ensures ends { box_ends result ≡ scale_box (box_ends self) k }
        ensures contains { (u : ℤ) (z : ComplexRatio) → BoxContains u self z → BoxContains u result (whole_complex (gaussian k (pos 0)) *ᶜ z) }
    {
        CBox {
            re: self.re.scale(k),
            im: self.im.scale(k),
        }
    }

    /// `r` more on both sides of both parts, which contains what differs by at most `r` in each part from something
    /// that this box contains. Conditions: `r >= 0`, and all ends are at most 2^126 in size.
    #[inline]
    pub fn widen(self, r: i128) -> CBox
        requires radius { pos 0 ≤ℤ r }
        requires fits { BoxEndsWithin (2 ^ 126) (widen_box (box_ends self) r) }
        ensures ends { box_ends result ≡ widen_box (box_ends self) r }
        ensures contains { (u : ℤ) (z w : ComplexRatio) → BoxContains u self z → BoxEndsContain u (around r) (w -ᶜ z) → BoxContains u result w }
    {
        CBox {
            re: self.re.widen(r),
            im: self.im.widen(r),
        }
    }

    /// The quotient of each part by `n`, rounded outward: `[floor(lo/n), ceil(hi/n)]`. Condition: `n >= 1`.
    #[inline(always)]
    pub fn quot(self, n: i128) -> CBox
        requires { pos 1 ≤ℤ n }
        ensures ends { box_ends result ≡ quot_box (box_ends self) n }
        ensures contains { (u : ℤ) (z : ComplexRatio) → BoxContains u self z → BoxContains u result (over_complex z n) }
    {
        self.quot_by(n, Reciprocal::of(n))
    }

    /// The same quotient, for a caller that divides many boxes by `n` and keeps its reciprocal. Condition: `n >= 1`.
    #[inline(always)]
    pub fn quot_by(self, n: i128, reciprocal: Reciprocal) -> CBox
        requires { pos 1 ≤ℤ n }
        ensures ends { box_ends result ≡ quot_box (box_ends self) n }
        ensures contains { (u : ℤ) (z : ComplexRatio) → BoxContains u self z → BoxContains u result (over_complex z n) }
    {
        CBox {
            re: self.re.quot_by(n, reciprocal),
            im: self.im.quot_by(n, reciprocal),
        }
    }

    /// The quotient by 2^k, rounded outward, by shifts. Condition: `k < 127`.
    #[inline]
    pub fn quot_shift(self, k: u32) -> CBox
        requires { k < 127 }
        ensures ends { box_ends result ≡ quot_box (box_ends self) (pos (2 ^ k)) }
        ensures contains { (u : ℤ) (z : ComplexRatio) → BoxContains u self z → BoxContains u result (over_complex z (pos (2 ^ k))) }
    {
        CBox {
            re: self.re.quot_shift(k),
            im: self.im.quot_shift(k),
        }
    }

    /// The product: `re re - im im` and `re im + im re`. Condition: the four products of parts and the product
    /// itself have ends of at most 2^126 in size.
    #[inline]
    pub fn times(self, o: CBox) -> CBox
        requires { TimesFits (box_ends self) (box_ends o) }
        ensures ends { box_ends result ≡ times_box (box_ends self) (box_ends o) }
        ensures contains { (u v : ℤ) (z w : ComplexRatio) → BoxContains u self z → BoxContains v o w → BoxContains (u *ℤ v) result (z *ᶜ w) }
    {
        CBox {
            re: self.re.times(o.re).sub(self.im.times(o.im)),
            im: self.re.times(o.im).add(self.im.times(o.re)),
        }
    }

    /// The exact product with a Gaussian integer. Condition: the four products of parts and the product itself have
    /// ends of at most 2^126 in size.
    #[inline]
    pub fn gscale(self, g: Gauss) -> CBox
        requires { GscaleFits (box_ends self) (number g) }
        ensures ends { box_ends result ≡ gscale_box (box_ends self) (number g) }
        ensures contains { (u : ℤ) (z : ComplexRatio) → BoxContains u self z → BoxContains u result (whole_complex (number g) *ᶜ z) }
    {
        let re = i128::from(g.re);
        let im = i128::from(g.im);
        CBox {
            re: self.re.scale(re).sub(self.im.scale(im)),
            im: self.re.scale(im).add(self.im.scale(re)),
        }
    }

    /// The exact product with a Gaussian integer, and then its quotient by `n`, rounded once. Conditions: those of
    /// `gscale`, and `n >= 1`.
    #[inline(always)]
    pub fn gquot(self, g: Gauss, n: i128) -> CBox
        requires fits { GscaleFits (box_ends self) (number g) }
        requires divisor { pos 1 ≤ℤ n }
        ensures ends { box_ends result ≡ gquot_box (box_ends self) (number g) n }
        ensures contains { (u : ℤ) (z : ComplexRatio) → BoxContains u self z → BoxContains u result (over_complex (whole_complex (number g) *ᶜ z) n) }
    {
        self.gquot_by(g, n, Reciprocal::of(n))
    }

    /// The same, for a caller that divides many products by `n` and keeps its reciprocal. Conditions: those of `gscale`,
    /// and `n >= 1`.
    #[inline(always)]
    pub fn gquot_by(self, g: Gauss, n: i128, reciprocal: Reciprocal) -> CBox
        requires fits { GscaleFits (box_ends self) (number g) }
        requires divisor { pos 1 ≤ℤ n }
        ensures ends { box_ends result ≡ gquot_box (box_ends self) (number g) n }
        ensures contains { (u : ℤ) (z : ComplexRatio) → BoxContains u self z → BoxContains u result (over_complex (whole_complex (number g) *ᶜ z) n) }
    {
        self.gscale(g).quot_by(n, reciprocal)
    }

    /// True exactly where both parts lie inside those of `outer`.
    #[inline]
    pub fn inside(self, outer: CBox) -> bool
        ensures exactly { IsTrue result ↔ BoxEndsInside (box_ends self) (box_ends outer) }
        ensures contains { IsTrue result → (u : ℤ) (z : ComplexRatio) → BoxContains u self z → BoxContains u outer z }
    {
        self.re.inside(outer.re) && self.im.inside(outer.im)
    }
}
