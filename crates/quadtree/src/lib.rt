//! The adaptive quadtree of a list of points.
#![tactic(auto)]

mod build;
mod children;
mod divide;
mod fault;
mod nodes;
mod split;
mod tree;

pub use fault::TreeFault;
pub use tree::Tree;
