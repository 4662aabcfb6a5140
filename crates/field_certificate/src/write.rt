//! The certificate of a field.
ghost use Rattle.std.specs.Prelude.{◌≡◌};
ghost use Rattle.cert_text.specs.Certificate.{certificate_text};
ghost use Rattle.field_certificate.specs.FieldCertificate.{field_certificate};
ghost use Rattle.field_certificate.specs.ProgramLines.{entries_of, FewEntries};
ghost use Rattle.field_solve.specs.Field.{IsSolved};
ghost use Rattle.io_ports.specs.Bytes.{Writes};
ghost use Rattle.io_ports.specs.Faults.{HasCause};
ghost use Rattle.limits.specs.Limits.{grid_of};
ghost use Rattle.points.specs.Limits.{WithinLimits};
ghost use Rattle.tree_field.specs.Lists.{OfTreeLists};

use crate::lines::{Header, put_end, put_head};
use crate::sections::{
    write_ats, write_entries, write_locals, write_multipoles, write_nodes, write_targets,
};
use field_solve::Field;
use io_ports::{Sink, WriteFault};
use letters::Letter;
use points::Points;

// How many entries there are, of all letters.
fn all_entries<const P: usize>(field: &Field<P>) -> u64
    requires few { FewEntries field.now.basis.lists }
    ensures { result ≡ entries_of field.now.basis.lists }
{
    let lists = field.lists();
    lists.total(Letter::U)
        + lists.total(Letter::V)
        + lists.total(Letter::W)
        + lists.total(Letter::X)
}

/// Appends the certificate of a field: line 1, the cells, the leaf of each point, the multipole rows, the entries, the local rows with their radii,
/// the boxes of the targets with their counts, and `end`.
///
/// Conditions: the points are within their limits, and the field is theirs on the grid of their version. No memory is taken.
///
/// # Errors
///
/// `WriteFault` where a write failed. What was appended then is a prefix of the certificate.
pub fn write_cert<const P: usize, S: Sink>(
    points: &Points,
    field: &Field<P>,
    sink: &mut S,
) -> Result<(), WriteFault>
    requires list { WithinLimits points.now }
    requires solved { IsSolved points.now.list field.now.basis.cap P field.now }
    requires grid { field.now.basis.tree.grid ≡ grid_of points.now.version }
    ensures bytes { OfTreeLists (grid_of points.now.version) points.now.list field.now.basis.cap (λ lists.
        Writes result (S.held sink.old) (S.held sink.new) (certificate_text (field_certificate points.now field.now.basis.cap P lists))) }
    ensures cause { HasCause (S.faults sink.old) (S.faults sink.new) result }
{
    let list = points.list.points();
    let tree = field.tree();
    let head = Header {
        version: points.version,
        order: P as u32,
        points: list.len(),
        targets: field.targets(),
        cells: tree.cells().len(),
        entries: all_entries(field),
    };
    put_head(head, sink)?;
    write_nodes(tree, sink)?;
    write_ats(tree, list.len(), sink)?;
    write_multipoles(field, sink)?;
    write_entries(field, sink)?;
    write_locals(field, sink)?;
    write_targets(field, sink)?;
    put_end(sink)
}
