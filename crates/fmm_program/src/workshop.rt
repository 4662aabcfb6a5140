//! What a command works with.
ghost use Rattle.std.specs.Prelude.{◌≤◌};
ghost use Rattle.limits.specs.Limits.{most_workers};

use row_phases::Gate;
use std::alloc::Global;
use std::thread::Threads;

/// What a command works with: threads for its workers, what its memory comes from, and the gate that is told of each run of places.
#[derive(Drop)]
pub(crate) struct Workshop<'a, R: Threads + Sync, G: Gate> {
    pub(crate) rt: &'a R,
    pub(crate) alloc: Global,
    pub(crate) workers: u32,
    pub(crate) gate: &'a G,
    pub(crate) ghost least: { 1 ≤ workers },
    pub(crate) ghost most: { workers ≤ most_workers },
}
