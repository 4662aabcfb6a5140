//! Who fills the places of a phase.
ghost use Rattle.std.specs.Prelude.{◌≤◌};
ghost use Rattle.limits.specs.Limits.{most_workers};

use crate::gate::Gate;
use std::thread::Threads;

/// Workers: the places of a phase are cut into at most `workers` runs, 1 to `limits::MOST_WORKERS`, which threads of `rt` fill, and the gate is told of each.
#[derive(Drop)]
pub struct Crew<'a, R: Threads + Sync, G: Gate> {
    pub rt: &'a R,
    pub workers: u32,
    pub gate: &'a G,
    pub ghost least: { 1 ≤ workers },
    pub ghost most: { workers ≤ most_workers },
}
