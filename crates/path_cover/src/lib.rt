//! How often sources are covered by nodes above them, kept while nodes begin and cease to cover.
#![tactic(auto)]

mod cover;
mod sizes;
mod walks;

pub use cover::Cover;
