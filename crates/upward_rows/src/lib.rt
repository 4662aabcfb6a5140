//! Multipole rows of all cells of a tree, from the last cell to the first.
//!
//! Cells ascend by level: so the quarters of a cell stand behind it, and its row can be made from the places behind it.
#![tactic(auto)]

mod fill;
mod run;
mod sources;

pub use fill::{fill_place, make_place};
pub use run::fill_run;
