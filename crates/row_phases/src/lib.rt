//! The phases of a solve: the multipole rows of each level from the deepest to the root, the local rows of each level from the root to the
//! deepest, and the boxes of the targets; each on the calling thread alone, or by workers.
//!
//! A place of a phase is one cell of its level, or one target. Workers fill runs of places of equal length but the last, and only read the
//! places of levels that are finished, so the result is that of one thread whichever run is done first.
#![tactic(auto)]

mod crew;
mod down;
mod gate;
mod levels;
mod targets;
mod up;

pub use crew::Crew;
pub use down::{fill_down, fill_down_alone};
pub use gate::{Gate, OpenGate, Piece};
pub use targets::{fill_targets, fill_targets_alone};
pub use up::{fill_up, fill_up_alone};
