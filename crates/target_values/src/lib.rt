//! The boxes of the targets in a solve, from the finished rows of its tree: the value of the local row of a target's leaf, those of the rows
//! of the leaf's W entries and the pairs with the sources of its U entries, widened by what the entries can lose.
#![tactic(auto)]

mod run;
mod u_entries;
mod value;
mod w_entries;

pub use run::fill_run;
pub use value::target_value;
