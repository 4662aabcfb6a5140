//! The cells of the quadtree on a grid of 16 or 20 bits, by arithmetic on their level and indices.
#![tactic(auto)]

pub mod cell;
pub mod law;

pub use cell::{Cell, Quadrant};
