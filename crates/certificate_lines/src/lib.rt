//! The rules of line 1 of a certificate and of the lines of its nodes, points and entries, each decided exactly.
#![tactic(auto)]

mod distance;
mod given;
mod head;
mod law;
mod line;
mod node;
mod pair;
mod point;
mod square;

pub use given::{entry_holds, node_holds, point_holds};
pub use head::head_holds;
pub use law::nodes_have_levels;
