//! The summary of a sample: how many points, cells, entries, translations and pairs its field has, and how wide its widest counts are.
#![tactic(auto)]

mod numbers;
mod text;
mod widths;
mod write;

pub use write::write_summary;
