//! Sums over the nodes under each node.
#![tactic(auto)]

mod law;
mod upward;

pub use law::sums_by_leaves;
pub use upward::add_up;
