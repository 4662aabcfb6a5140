//! The rules by which a certificate is checked over a list of points, and what they imply. Nothing here runs.
//!
//! Each rule belongs to a line and says something of what the lines give: no rule asks how a tree was made, which lists its entries are from, or
//! how narrow a box is.
#![tactic(auto)]

mod law;

pub use law::rules_imply_counts;
