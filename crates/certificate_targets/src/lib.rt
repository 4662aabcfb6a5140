//! The rule of a target's line of a certificate, decided exactly: the given box has the computed one in it, and the counts enclose the given box.
#![tactic(auto)]

mod counts;
mod far;
mod near;
mod read;
mod target;

pub use target::target_holds;
