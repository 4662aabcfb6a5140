//! Writing a summary.
ghost use Rattle.std.specs.Prelude.{◌≡◌};
ghost use Rattle.io_ports.specs.Bytes.{Writes};
ghost use Rattle.io_ports.specs.Faults.{HasCause};
ghost use Rattle.limits.specs.Limits.{first_grid};
ghost use Rattle.sample_summary.specs.Summary.{summary_text};
ghost use Rattle.field_solve.specs.Field.{IsSolved};
ghost use Rattle.tree_field.specs.Lists.{OfTreeLists};

use crate::text::summary_text;
use field_solve::Field;
use io_ports::{Sink, WriteFault, put};
use points::Points;

/// Appends the summary of a sample, the points that a seed gave and their field with a leaf capacity: its seven lines count points, cells,
/// entries and work, and name the greatest widths of the printed counts over all targets, in units of 10^-12.
///
/// The field is that of the points with the leaf capacity `cap`, on the grid of version 1, as a sample is of that version.
///
/// # Errors
///
/// `WriteFault` where a write failed. What was appended then is a prefix of the lines.
pub fn write_summary<const P: usize, S: Sink>(
    seed: u32,
    points: &Points,
    cap: u32,
    field: &Field<P>,
    sink: &mut S,
) -> Result<(), WriteFault>
    requires solved { IsSolved points.now.list cap P field.now }
    requires grid { field.now.basis.tree.grid ≡ first_grid }
    ensures bytes { OfTreeLists first_grid points.now.list cap (λ lists.
        Writes result (S.held sink.old) (S.held sink.new) (summary_text seed points.now.list P cap lists)) }
    ensures cause { HasCause (S.faults sink.old) (S.faults sink.new) result }
{
    let text = summary_text(seed, points.list.points(), cap, field);
    put(sink, text.as_bytes())
}
