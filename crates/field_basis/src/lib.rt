//! What the rows of a field are made from, and what its places hold: a basis of points, tree, lists, kernel, weights and targets, which all
//! passes are lent, and the words for the rows of all cells.
#![tactic(auto)]

mod basis;
mod place;
mod target;
mod targets;
mod totals;
mod weights;

pub use basis::Basis;
pub use place::Place;
pub use target::TargetPlace;
pub use totals::{all_pairs, all_translations};
