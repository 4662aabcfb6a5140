//! The rounded recursions on rows of boxes by which the method computes, and what their results contain.
//!
//! A multipole row has at `k` a box of the moment `sum a (u/s)^k + k (b/s) (u/s)^(k - 1)` of the sources in a cell of side `s`, with
//! their offsets `u` from its centre; its field is `1/s` times the sum of `m_k (s/w)^(k + 1)` at the offset `w`. A local row has at `l`
//! a box of the coefficient of `(v/s)^l` in `s` times a field, at the offset `v`. All boxes count units of 2^-40.
//!
//! `specs/` has the recursions as definitions on ends, the exact moments and fields, and the laws between them. The formulas are scaled by
//! the side, with a rounding after each step.
#![tactic(auto)]

mod law;
mod places;
mod quadrants;
mod sums;

pub use law::{cells_and_rows, local_rows, multipole_rows, row_sizes, row_widths};
pub use places::{FarRatio, far_ratio, offset, side_bits, units};
pub use quadrants::{doubled, turned};
pub use sums::{add_row, take_row};
