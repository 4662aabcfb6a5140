//! Indices grouped by keys.
#![tactic(auto)]

mod chains;
mod grouping;
mod law;

pub use grouping::Groups;
pub use law::groups_have_their_keys;
