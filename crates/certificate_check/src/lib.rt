//! The checker: whether a certificate over a list of points meets every rule, and at which line a rule fails first.
//!
//! It stands on the certificate's text, the points and the calls for one row, and not on the tree, its lists or the solve: whatever program
//! wrote a certificate, the checker's yes alone says that its counts contain the exact sums.
#![tactic(auto)]

mod checking;
mod counts;
mod failures;
mod verdict;

pub use checking::check;
pub use verdict::Verdict;
