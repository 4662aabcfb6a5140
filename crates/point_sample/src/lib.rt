//! Samples: lists of charges, dipoles and targets that a seed determines.
#![tactic(auto)]

ghost use Rattle.std.specs.Prelude.{◌≡◌, ◌≤◌, IfOk};
ghost use Rattle.limits.specs.Limits.{first_grid, most_points};
ghost use Rattle.points.specs.Limits.{WithinLimits};
ghost use Rattle.point_sample.specs.Sample.{sample};

mod generator;

use generator::Generator;
use io_ports::Memory;
use limits::{FIRST_GRID, most_points};
use points::{Mode, PointList, Points};
use std::alloc::Global;

/// The version of the text of a sample.
const VERSION: u8 = 1;

/// The greatest number of points of a sample.
pub fn most_sampled() -> u32
    ensures { result ≡ most_points first_grid }
{
    most_points(FIRST_GRID) as u32
}

/// The sample of a seed: `n` points in a field list of version 1, which is within the limits.
///
/// `n` is at most 65,536. `Memory` is want of memory.
pub fn sample_points(alloc: Global, seed: u32, n: u32) -> Result<Points, Memory>
    requires { n ≤ most_points first_grid }
    ensures sample { IfOk result (λ points. points ≡ sample seed n) }
    ensures within { IfOk result (λ points. WithinLimits points) }
{
    let mut generator = Generator::new(seed);
    let mut list = PointList::new(alloc);
    'points: for _ in 0..n {
        list.push(generator.next_point())?;
    }
    Ok(Points {
        version: VERSION,
        mode: Mode::Field,
        list,
    })
}
