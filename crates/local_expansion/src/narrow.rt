//! One coefficient of the contribution of a far cell whose row has ends that fit 63 bits, by products of 64-bit numbers.
ghost use Rattle.std.specs.Prelude.{◌≡◌, ◌+◌, ◌^◌, ◌≤◌, ◌*ℤ◌, ◌≤ℤ◌, length, IsTrue, ◌↔◌};
ghost use Rattle.std.specs.Int.{int_min, int_max};
ghost use Rattle.exact_math.specs.Ends.{EndsWithin, least, greatest, times_box, quot_box};
ghost use Rattle.exact_math.specs.Units.{unit};
ghost use Rattle.exact_math.specs.Within.{Within};
ghost use Rattle.fixed_interval.specs.Interval.{ends_of};
ghost use Rattle.complex_box.specs.Box.{box_ends, BoxWithin};
ghost use Rattle.row_recursions.specs.Rows.{row_of, sum_boxes};
ghost use Rattle.row_recursions.specs.Sizes.{RowWithin};

use complex_box::{CBox, Row, UNIT_BITS};
use fixed_interval::Interval;

/// The greatest size of a narrow end.
const LARGEST: i128 = 1 << 62;

/// An interval whose ends are at most 2^62 in size.
#[derive(Clone, Copy)]
struct Narrow {
    lo: i64,
    hi: i64,
    ghost ordered: { lo ≤ℤ hi },
    ghost low_end: { Within (2 ^ 62) lo },
    ghost high_end: { Within (2 ^ 62) hi },
}

/// The same interval.
#[inline(always)]
fn narrowed(x: Interval) -> Narrow
    requires { EndsWithin (2 ^ 62) (ends_of x) }
    ensures lo { result.lo ≡ x.lo }
    ensures hi { result.hi ≡ x.hi }
{
    Narrow {
        lo: x.lo as i64,
        hi: x.hi as i64,
    }
}

/// The product, by one instruction.
#[inline(always)]
fn product(a: i64, b: i64) -> i128
    requires left { Within (2 ^ 62) a }
    requires right { Within (2 ^ 62) b }
    ensures value { result ≡ a *ℤ b }
    ensures size { Within (2 ^ 124) result }
{
    i128::from(a) * i128::from(b)
}

/// The end whose product with the factor is the lower one.
#[inline(always)]
fn end_below(x: Narrow, factor: i64) -> i64
    ensures product { result *ℤ factor ≡ int_min (x.lo *ℤ factor) (x.hi *ℤ factor) }
    ensures size { Within (2 ^ 62) result }
{
    if factor < 0 {
        return x.hi;
    }
    x.lo
}

/// The end whose product with the factor is the upper one.
#[inline(always)]
fn end_above(x: Narrow, factor: i64) -> i64
    ensures product { result *ℤ factor ≡ int_max (x.lo *ℤ factor) (x.hi *ℤ factor) }
    ensures size { Within (2 ^ 62) result }
{
    if factor < 0 {
        return x.lo;
    }
    x.hi
}

/// The least product of an end with an end.
#[inline(always)]
fn lower_end(x: Narrow, y: Narrow) -> i128
    ensures value { result ≡ least (x.lo *ℤ y.lo) (x.lo *ℤ y.hi) (x.hi *ℤ y.lo) (x.hi *ℤ y.hi) }
    ensures size { Within (2 ^ 124) result }
{
    if x.lo >= 0 {
        return product(end_below(x, y.lo), y.lo);
    }
    if x.hi <= 0 {
        return product(end_below(x, y.hi), y.hi);
    }
    product(x.lo, y.hi).min(product(x.hi, y.lo))
}

/// The greatest product of an end with an end.
#[inline(always)]
fn upper_end(x: Narrow, y: Narrow) -> i128
    ensures value { result ≡ greatest (x.lo *ℤ y.lo) (x.lo *ℤ y.hi) (x.hi *ℤ y.lo) (x.hi *ℤ y.hi) }
    ensures size { Within (2 ^ 124) result }
{
    if x.lo >= 0 {
        return product(end_above(x, y.hi), y.hi);
    }
    if x.hi <= 0 {
        return product(end_above(x, y.lo), y.lo);
    }
    product(x.lo, y.lo).max(product(x.hi, y.hi))
}

/// The product of two intervals.
#[inline(always)]
fn times(x: Narrow, y: Narrow) -> Interval
    ensures lo { result.lo ≡ least (x.lo *ℤ y.lo) (x.lo *ℤ y.hi) (x.hi *ℤ y.lo) (x.hi *ℤ y.hi) }
    ensures hi { result.hi ≡ greatest (x.lo *ℤ y.lo) (x.lo *ℤ y.hi) (x.hi *ℤ y.lo) (x.hi *ℤ y.hi) }
    ensures size { EndsWithin (2 ^ 124) (ends_of result) }
{
    Interval {
        lo: lower_end(x, y),
        hi: upper_end(x, y),
    }
}

/// The product of two boxes whose ends are at most 2^62 in size.
#[inline(always)]
fn box_product(a: CBox, b: CBox) -> CBox
    requires left { BoxWithin (2 ^ 62) a }
    requires right { BoxWithin (2 ^ 62) b }
    ensures { box_ends result ≡ times_box (box_ends a) (box_ends b) }
{
    let re = narrowed(a.re);
    let im = narrowed(a.im);
    let x = narrowed(b.re);
    let y = narrowed(b.im);
    CBox {
        re: times(re, x).sub(times(im, y)),
        im: times(re, y).add(times(im, x)),
    }
}

/// Whether both ends are at most 2^62 in size.
#[inline(always)]
fn are_narrow(x: Interval) -> bool
    ensures { IsTrue result ↔ EndsWithin (2 ^ 62) (ends_of x) }
{
    if x.lo < -LARGEST {
        return false;
    }
    x.hi <= LARGEST
}

/// Whether all ends of the box are at most 2^62 in size.
#[inline(always)]
fn box_is_narrow(b: CBox) -> bool
    ensures { IsTrue result ↔ BoxWithin (2 ^ 62) b }
{
    if are_narrow(b.re) {
        return are_narrow(b.im);
    }
    false
}

/// Whether all ends of the row are at most 2^62 in size.
#[inline]
pub(crate) fn is_narrow<const P: usize>(row: Row<P>) -> bool
    ensures { IsTrue result ↔ RowWithin P (2 ^ 62) (row_of row.entry.cells.now) }
{
    for k in 0..P {
        if !box_is_narrow(row.get(k)) {
            return false;
        }
    }
    true
}

/// The sum of the products of a column of the kernel with a row whose ends are at most 2^62 in size, rounded once.
#[inline]
pub(crate) fn narrow_coefficient<const P: usize>(column: &[CBox], row: Row<P>) -> CBox
    requires len { length column.now ≡ P }
    requires most { P ≤ 32 }
    requires entries { RowWithin P (2 ^ 39 + 1) (row_of column.now) }
    requires size { RowWithin P (2 ^ 62) (row_of row.cells.now) }
    ensures { box_ends result ≡ quot_box (sum_boxes P (λ k. times_box (row_of column.now k) (row_of row.entry.cells.now k))) unit }
{
    let mut sum = CBox::zero();
    for k in 0..P {
        sum = sum.add(box_product(column[k], row.get(k)));
    }
    sum.quot_shift(UNIT_BITS)
}
