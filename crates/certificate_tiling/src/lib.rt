//! Which leaves of a certificate are tiled: the entries that reach them account for each source exactly once.
#![tactic(auto)]

mod lists;
mod order;
mod tiling;
mod walk;

pub use tiling::tilings;
