//! A certificate over a list of points, with what stands at each of its nodes and under it.
#![tactic(auto)]

mod at_nodes;
mod by_node;
mod keys;
mod point_rows;
mod presented;
mod under_nodes;

pub use presented::Presented;
