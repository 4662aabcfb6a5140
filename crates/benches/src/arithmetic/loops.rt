//! The loops that are measured.
ghost use Rattle.std.specs.Prelude.{◌≤◌, ◌^◌};

use super::samples::{boxed, interval, number, wide_interval};
use complex_box::Acc;
use fixed_interval::Interval;

/// What a loop calls. `Samples` makes the two arguments and calls nothing.
#[derive(Clone, Copy)]
pub enum Operation {
    Samples,
    Times,
    Scale,
    Quot,
    WideQuot,
    QuotShift,
    BoxSamples,
    AddProduct,
}

impl Operation {
    pub const ALL: [Operation; 8] = [
        Operation::Samples,
        Operation::Times,
        Operation::Scale,
        Operation::Quot,
        Operation::WideQuot,
        Operation::QuotShift,
        Operation::BoxSamples,
        Operation::AddProduct,
    ];

    pub fn name(self) -> &'static str {
        match self {
            Operation::Samples => "samples",
            Operation::Times => "times",
            Operation::Scale => "scale",
            Operation::Quot => "quot",
            Operation::WideQuot => "wide_quot",
            Operation::QuotShift => "quot_shift",
            Operation::BoxSamples => "box_samples",
            Operation::AddProduct => "add_product",
        }
    }

    /// Calls it `count` times, and folds the ends of the results into one number.
    pub fn run(self, count: u64) -> i128
        requires { count ≤ 2 ^ 24 }
    {
        match self {
            Operation::Samples => samples(count),
            Operation::Times => times(count),
            Operation::Scale => scale(count),
            Operation::Quot => quot(count),
            Operation::WideQuot => wide_quot(count),
            Operation::QuotShift => quot_shift(count),
            Operation::BoxSamples => box_samples(count),
            Operation::AddProduct => add_product(count),
        }
    }
}

#[inline(always)]
fn folded(i: Interval) -> i128 {
    i.lo ^ i.hi.wrapping_mul(3)
}

fn samples(count: u64) -> i128 {
    let mut all = 0;
    for k in 0..count {
        all ^= folded(interval(k)) ^ folded(interval(k + 1));
    }
    all
}

fn times(count: u64) -> i128 {
    let mut all = 0;
    for k in 0..count {
        all ^= folded(interval(k).times(interval(k + 1)));
    }
    all
}

fn scale(count: u64) -> i128 {
    let mut all = 0;
    for k in 0..count {
        all ^= folded(interval(k).scale(number(k + 1)));
    }
    all
}

fn quot(count: u64) -> i128 {
    let mut all = 0;
    for k in 0..count {
        all ^= folded(interval(k).quot(1_000_000_007 + i128::from(k % 1024)));
    }
    all
}

fn wide_quot(count: u64) -> i128 {
    let mut all = 0;
    for k in 0..count {
        all ^= folded(wide_interval(k).quot(1_000_000_007 + i128::from(k % 1024)));
    }
    all
}

fn quot_shift(count: u64) -> i128 {
    let mut all = 0;
    for k in 0..count {
        all ^= folded(interval(k).quot_shift((k % 32) as u32 + 1));
    }
    all
}

fn box_samples(count: u64) -> i128 {
    let mut all = 0;
    for k in 0..count {
        let one = boxed(k);
        let other = boxed(k + 1);
        all ^= folded(one.re) ^ folded(one.im) ^ folded(other.re) ^ folded(other.im);
    }
    all
}

fn add_product(count: u64) -> i128
    requires { count ≤ 2 ^ 24 }
{
    let mut acc = Acc::new();
    for k in 0..count {
        acc.add_product(boxed(k), boxed(k + 1));
    }
    let sum = acc.finish(1 << 40);
    folded(sum.re) ^ folded(sum.im)
}
