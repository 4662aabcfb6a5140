//! The command `sample`.
ghost use Rattle.std.specs.Prelude.{◌≡◌, ◌≢◌, ℕ, ◌≤◌, [], ◌∷◌, codes, decimal, IfSome, IfNone};
ghost use Rattle.exact_math.specs.Orders.{IsCapacity};
ghost use Rattle.limits.specs.Limits.{first_grid, grid_of, most_points};
ghost use Rattle.points.specs.Limits.{IsOrderOf, WithinLimits};
ghost use Rattle.point_sample.specs.Sample.{sample};
ghost use Rattle.quadtree.specs.Faults.{HasTree};
ghost use Rattle.field_solve.specs.Field.{IsSolved};
ghost use Rattle.fmm_program.specs.Endings.{IsEnding, TellsFaults, flow, untold};
ghost use Rattle.fmm_program.specs.Runs.{SampleRun};
ghost use Rattle.fmm_program.specs.SampleAnswers.{SampleAnswers};
ghost use Rattle.fmm_program.specs.Samples.{IsSample};
ghost use Rattle.fmm_program.specs.Workers.{HasWorkers};

use crate::orders::at_order;
use crate::refusals::refuse_depth;
use crate::status::Status;
use crate::words::{Words, capacity_of, number_in, order_of, workers_behind};
use crate::workshop::Workshop;
use bumpalo::Bump;
use field_solve::Field;
use io_ports::Sink;
use limits::{FIRST_GRID, most_order};
use point_sample::{most_sampled, sample_points};
use points::Points;
use row_phases::Gate;
use sample_summary::write_summary;
use std::thread::Threads;

/// The command `sample SEED N ORDER CAP [WORKERS]`.
#[derive(Clone, Copy, Debug, PartialEq, Eq)]
pub(crate) struct SampleCommand {
    pub(crate) seed: u32,
    pub(crate) count: u32,
    pub(crate) order: u32,
    pub(crate) cap: u32,
    pub(crate) workers: u32,
}

/// The order of a sample whose decimal a word is.
fn sample_order_of(word: &str) -> Option<u32>
    ensures some { IfSome result (λ n. (word.now ≡ decimal n) × IsOrderOf first_grid n) }
    ensures none { IfNone result ((n : ℕ) → IsOrderOf first_grid n → word.now ≢ decimal n) }
{
    let order = order_of(word)?;
    if most_order(FIRST_GRID) < order {
        return None;
    }
    Some(order)
}

/// The sample that the words ask for; `None` where they ask for none.
pub(crate) fn asked_sample(words: &Words) -> Option<SampleCommand>
    ensures some { IfSome result (λ c. IsSample words.now c.seed c.count c.order c.cap
        × HasWorkers words.now (codes "sample" ∷ decimal c.seed ∷ decimal c.count ∷ decimal c.order ∷ decimal c.cap ∷ []) c.workers) }
    ensures none { IfNone result ((seed n order cap : ℕ) → IsSample words.now seed n order cap → ⊥) }
{
    if words.count() < 5 || words.word(0) != "sample" {
        return None;
    }
    let seed = number_in(words.word(1), 0, u32::MAX)?;
    let count = number_in(words.word(2), 1, most_sampled())?;
    let order = sample_order_of(words.word(3))?;
    let cap = capacity_of(words.word(4))?;
    let workers = workers_behind(words, 5)?;
    Some(SampleCommand {
        seed,
        count,
        order,
        cap,
        workers,
    })
}

/// Writes the summary of the points of a sample and their field.
fn summarize_field<const P: usize, O: Sink>(
    seed: u32,
    points: &Points,
    cap: u32,
    field: &Field<P>,
    out: &mut O,
) -> Status
    requires list { WithinLimits points.now }
    requires solved { IsSolved points.now.list cap P field.now }
    requires grid { field.now.basis.tree.grid ≡ first_grid }
    ensures ends { (n : ℕ) → points.now ≡ sample seed n → HasTree (grid_of points.now.version) points.now.list cap
        → IsEnding (SampleAnswers seed n P cap) result (flow (O.held out.old) (O.held out.new) (O.faults out.old) (O.faults out.new)) untold }
    ensures write { TellsFaults result (flow (O.held out.old) (O.held out.new) (O.faults out.old) (O.faults out.new)) }
    ensures read { result ≡ Status.ReadFault → ⊥ }
{
    match write_summary(seed, points, cap, field, out) {
        Ok(()) => Status::Done,
        Err(_) => Status::WriteFault,
    }
}

/// Solves the points of a sample at the order `P`, and writes the summary of their field or the line that refuses them.
fn summarize<const P: usize, R: Threads + Sync, G: Gate, O: Sink>(
    shop: &Workshop<'_, R, G>,
    seed: u32,
    points: &Points,
    cap: u32,
    out: &mut O,
) -> Status
    requires list { WithinLimits points.now }
    requires version { points.now.version ≡ 1 }
    requires order { IsOrderOf first_grid P }
    requires capacity { IsCapacity cap }
    ensures ends { (n : ℕ) → points.now ≡ sample seed n
        → IsEnding (SampleAnswers seed n P cap) result (flow (O.held out.old) (O.held out.new) (O.faults out.old) (O.faults out.new)) untold }
    ensures write { TellsFaults result (flow (O.held out.old) (O.held out.new) (O.faults out.old) (O.faults out.new)) }
    ensures read { result ≡ Status.ReadFault → ⊥ }
{
    let arena = Bump::new(shop.alloc);
    match field_solve::solve::<P, R, G>(
        shop.rt,
        shop.alloc,
        points,
        cap,
        shop.workers,
        shop.gate,
        &arena,
    ) {
        Ok(field) => summarize_field(seed, points, cap, &field, out),
        Err(fault) => refuse_depth(fault, out),
    }
}

/// Makes the points of a sample, and writes the summary of their field or the line that refuses them. It reads nothing.
///
/// The sink gets all that goes out with the answer; after a write fault it took a prefix of that, and after want of
/// memory nothing.
pub(crate) fn sample<R: Threads + Sync, G: Gate, O: Sink>(
    shop: &Workshop<'_, R, G>,
    command: SampleCommand,
    out: &mut O,
) -> Status
    requires most { command.count ≤ most_points first_grid }
    requires order { IsOrderOf first_grid command.order }
    requires capacity { IsCapacity command.cap }
    ensures run { SampleRun command.seed command.count command.order command.cap result
        (flow (O.held out.old) (O.held out.new) (O.faults out.old) (O.faults out.new)) untold }
    ensures write { TellsFaults result (flow (O.held out.old) (O.held out.new) (O.faults out.old) (O.faults out.new)) }
{
    let seed = command.seed;
    let cap = command.cap;
    let Ok(points) = sample_points(shop.alloc, seed, command.count) else {
        return Status::Memory;
    };
    at_order!(
        command.order,
        summarize,
        (R, G, O),
        shop,
        seed,
        &points,
        cap,
        out
    )
}
