//! The report of a field.
ghost use Rattle.std.specs.Prelude.{◌≡◌, All};
ghost use Rattle.field_report.specs.FieldText.{field_text, target_text};
ghost use Rattle.io_ports.specs.Bytes.{Writes};
ghost use Rattle.io_ports.specs.Faults.{HasCause};
ghost use Rattle.limits.specs.Limits.{grid_of};
ghost use Rattle.points.specs.Limits.{InRange, WithinLimits};
ghost use Rattle.field_solve.specs.Field.{IsSolved};
ghost use Rattle.tree_field.specs.Lists.{OfTreeLists};

use field_solve::Field;
use io_ports::{Sink, WriteFault};
use points::{Mode, Point, Points};
use report_lines::{write_end, write_head, write_target};

// Appends the lines of all targets, in the order of the list, whose points are in range of the field's grid.
fn write_targets<const P: usize, S: Sink>(
    mode: Mode,
    points: &[Point],
    field: &Field<P>,
    sink: &mut S,
) -> Result<(), WriteFault>
    requires range { All (InRange field.now.basis.tree.grid) points.now }
    requires solved { IsSolved points.now field.now.basis.cap P field.now }
    ensures bytes { OfTreeLists field.now.basis.tree.grid points.now field.now.basis.cap (λ lists.
        Writes result (S.held sink.old) (S.held sink.new) (target_text mode points.now field.now.basis.cap P lists points.now)) }
    ensures cause { HasCause (S.faults sink.old) (S.faults sink.new) result }
{
    let mut k = 0;
    for p in points {
        if !p.kind.is_source() {
            write_target(mode, p.x, p.y, field.value(k), sink)?;
            k += 1;
        }
    }
    Ok(())
}

/// Appends the report of a field: its first line, the line of each target in the order of the list, the counts of work, and `end`.
///
/// Conditions: the points are within their limits, and the field is theirs with the leaf capacity `cap`, on the grid of their version. No
/// memory is taken.
///
/// # Errors
///
/// `WriteFault` where a write failed. What was appended then is a prefix of the report.
pub fn write_report<const P: usize, S: Sink>(
    points: &Points,
    cap: u32,
    field: &Field<P>,
    sink: &mut S,
) -> Result<(), WriteFault>
    requires list { WithinLimits points.now }
    requires solved { IsSolved points.now.list cap P field.now }
    requires grid { field.now.basis.tree.grid ≡ grid_of points.now.version }
    ensures bytes { OfTreeLists (grid_of points.now.version) points.now.list cap (λ lists.
        Writes result (S.held sink.old) (S.held sink.new) (field_text points.now P cap lists)) }
    ensures cause { HasCause (S.faults sink.old) (S.faults sink.new) result }
{
    write_head(points.mode, P as u32, cap, sink)?;
    write_targets(points.mode, points.list.points(), field, sink)?;
    write_end(field.translations(), field.pairs(), sink)
}
