//! Solving: the field of a list of points over its adaptive tree.
//!
//! `solve` makes the tree and its lists, then all rows level by level and the box of each target, by workers, and gives them as a `Field`;
//! `solve_alone` does all on the calling thread.
#![tactic(auto)]

mod field;
mod places;
mod solving;

pub use field::Field;
pub use quadtree::TreeFault as SolveFault;
pub use row_phases::{Gate, OpenGate, Piece};
pub use solving::{solve, solve_alone};
