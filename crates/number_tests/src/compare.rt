//! Ends as they are expected.
use fixed_interval::Interval;
use std::process::Abort;

pub fn interval_is(rt: &impl Abort, got: Interval, lo: i128, hi: i128) {
    assert_eq!(rt; (got.lo, got.hi), (lo, hi));
}
