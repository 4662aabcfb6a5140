//! Local rows and radii of a tree, each from its parent's and from the rows and weights of its entries.
//!
//! The local row of a cell below the root is its parent's brought down, plus the row of each cell of its V list converted, plus what each
//! source of each cell of its X list adds. What these entries can lose by truncation is added to the parent's radius. Parents stand before
//! their children, so a pass fills places from the first cell to the last.
#![tactic(auto)]

mod fill;
mod radius;
mod run;
mod v_entries;
mod x_entries;

pub use fill::{fill_place, make_place};
pub use run::fill_run;
