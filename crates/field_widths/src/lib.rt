//! How wide the field of a list of points can be: its rows, its boxes and the printed counts of its targets. Nothing here runs.
#![tactic(auto)]

mod law;

pub use law::{printed_counts_are_narrow, rows_are_narrow};
