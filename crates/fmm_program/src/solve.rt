//! The command `solve`.
ghost use Rattle.std.specs.Prelude.{◌≡◌, ℕ, ◌+◌, ◌≤◌, List, [], IfSome, Some, length};
ghost use Rattle.std.specs.Io.KnownBytes.{Consumes};
ghost use Rattle.exact_math.specs.Orders.{IsCapacity, IsOrder};
ghost use Rattle.cert_text.specs.Certificate.{certificate_text};
ghost use Rattle.field_certificate.specs.FieldCertificate.{field_certificate};
ghost use Rattle.io_ports.specs.Bytes.{Writes, read_size};
ghost use Rattle.io_ports.specs.Faults.{HasCause, Rose};
ghost use Rattle.limits.specs.Limits.{grid_of};
ghost use Rattle.points.specs.Limits.{IsOrderOf, WithinLimits};
ghost use Rattle.quadtree.specs.Faults.{HasTree};
ghost use Rattle.field_solve.specs.Field.{IsSolved};
ghost use Rattle.tree_field.specs.Lists.{OfTreeLists};
ghost use Rattle.fmm_program.specs.Answers.{IsRead, SolveAnswers, most_input};
ghost use Rattle.fmm_program.specs.Endings.{IsEnding, TellBothFaults, flow};
ghost use Rattle.fmm_program.specs.Runs.{SolveRun};

use crate::inputs::MOST_INPUT;
use crate::orders::at_order;
use crate::refusals::{refuse, refuse_depth, refuse_text};
use crate::status::Status;
use crate::workshop::Workshop;
use bumpalo::Bump;
use field_certificate::write_cert;
use field_report::write_report;
use field_solve::Field;
use io_ports::{InFault, Sink, Source, WriteFault, read_all};
use limits::{grid_of, most_order};
use particle_text::{ParseFault, parse};
use points::Points;
use row_phases::Gate;
use std::thread::Threads;

/// Writes the certificate of the points and their field, and flushes it.
fn write_whole<const P: usize, C: Sink>(
    points: &Points,
    field: &Field<P>,
    cert_out: &mut C,
) -> Result<(), WriteFault>
    requires list { WithinLimits points.now }
    requires solved { IsSolved points.now.list field.now.basis.cap P field.now }
    requires grid { field.now.basis.tree.grid ≡ grid_of points.now.version }
    ensures bytes { OfTreeLists (grid_of points.now.version) points.now.list field.now.basis.cap (λ lists.
        Writes result (C.held cert_out.old) (C.held cert_out.new) (certificate_text (field_certificate points.now field.now.basis.cap P lists))) }
    ensures cause { HasCause (C.faults cert_out.old) (C.faults cert_out.new) result }
{
    match write_cert(points, field, cert_out) {
        Ok(()) => match cert_out.flush() {
            Ok(()) => Ok(()),
            Err(_) => Err(WriteFault),
        },
        Err(fault) => Err(fault),
    }
}

/// Writes the certificate of the points and their field, and then the report.
fn answer_field<const P: usize, O: Sink, C: Sink>(
    points: &Points,
    cap: u32,
    field: &Field<P>,
    out: &mut O,
    cert_out: &mut C,
) -> Status
    requires list { WithinLimits points.now }
    requires order { IsOrderOf (grid_of points.now.version) P }
    requires solved { IsSolved points.now.list cap P field.now }
    requires grid { field.now.basis.tree.grid ≡ grid_of points.now.version }
    ensures ends { (input : List ℕ) → IsRead input points.now → HasTree (grid_of points.now.version) points.now.list cap
        → IsEnding (SolveAnswers P cap input) result (flow (O.held out.old) (O.held out.new) (O.faults out.old) (O.faults out.new))
        (flow (C.held cert_out.old) (C.held cert_out.new) (C.faults cert_out.old) (C.faults cert_out.new)) }
    ensures write { TellBothFaults result (flow (O.held out.old) (O.held out.new) (O.faults out.old) (O.faults out.new))
        (flow (C.held cert_out.old) (C.held cert_out.new) (C.faults cert_out.old) (C.faults cert_out.new)) }
    ensures read { result ≡ Status.ReadFault → ⊥ }
{
    match write_whole(points, field, cert_out) {
        Ok(()) => match write_report(points, cap, field, out) {
            Ok(()) => Status::Done,
            Err(_) => Status::WriteFault,
        },
        Err(_) => Status::WriteFault,
    }
}

/// Solves the points at the order `P`, and writes the report of their field or the line that refuses them.
fn answer_points<const P: usize, R: Threads + Sync, G: Gate, O: Sink, C: Sink>(
    shop: &Workshop<'_, R, G>,
    points: &Points,
    cap: u32,
    out: &mut O,
    cert_out: &mut C,
) -> Status
    requires list { WithinLimits points.now }
    requires order { IsOrderOf (grid_of points.now.version) P }
    requires capacity { IsCapacity cap }
    ensures ends { (input : List ℕ) → IsRead input points.now
        → IsEnding (SolveAnswers P cap input) result (flow (O.held out.old) (O.held out.new) (O.faults out.old) (O.faults out.new))
        (flow (C.held cert_out.old) (C.held cert_out.new) (C.faults cert_out.old) (C.faults cert_out.new)) }
    ensures write { TellBothFaults result (flow (O.held out.old) (O.held out.new) (O.faults out.old) (O.faults out.new))
        (flow (C.held cert_out.old) (C.held cert_out.new) (C.faults cert_out.old) (C.faults cert_out.new)) }
    ensures read { result ≡ Status.ReadFault → ⊥ }
{
    let arena = Bump::new(shop.alloc);
    match field_solve::solve::<P, R, G>(
        shop.rt,
        shop.alloc,
        points,
        cap,
        shop.workers,
        shop.gate,
        &arena,
    ) {
        Ok(field) => answer_field(points, cap, &field, out, cert_out),
        Err(fault) => refuse_depth(fault, out),
    }
}

/// Answers the points of a text: their version may not have the order.
fn answer_list<R: Threads + Sync, G: Gate, O: Sink, C: Sink>(
    shop: &Workshop<'_, R, G>,
    order: u32,
    cap: u32,
    points: &Points,
    out: &mut O,
    cert_out: &mut C,
) -> Status
    requires list { WithinLimits points.now }
    requires order { IsOrder order }
    requires capacity { IsCapacity cap }
    ensures ends { (input : List ℕ) → IsRead input points.now
        → IsEnding (SolveAnswers order cap input) result (flow (O.held out.old) (O.held out.new) (O.faults out.old) (O.faults out.new))
        (flow (C.held cert_out.old) (C.held cert_out.new) (C.faults cert_out.old) (C.faults cert_out.new)) }
    ensures write { TellBothFaults result (flow (O.held out.old) (O.held out.new) (O.faults out.old) (O.faults out.new))
        (flow (C.held cert_out.old) (C.held cert_out.new) (C.faults cert_out.old) (C.faults cert_out.new)) }
    ensures read { result ≡ Status.ReadFault → ⊥ }
{
    if most_order(grid_of(points.version)) < order {
        return refuse(b"refused order\n", out);
    }
    at_order!(
        order,
        answer_points,
        (R, G, O, C),
        shop,
        points,
        cap,
        out,
        cert_out
    )
}

/// Answers an input that was read whole.
fn answer_text<R: Threads + Sync, G: Gate, O: Sink, C: Sink>(
    shop: &Workshop<'_, R, G>,
    order: u32,
    cap: u32,
    bytes: &[u8],
    out: &mut O,
    cert_out: &mut C,
) -> Status
    requires order { IsOrder order }
    requires capacity { IsCapacity cap }
    requires length { length bytes.now ≤ most_input }
    ensures ends { IsEnding (SolveAnswers order cap bytes.now) result (flow (O.held out.old) (O.held out.new) (O.faults out.old) (O.faults out.new))
        (flow (C.held cert_out.old) (C.held cert_out.new) (C.faults cert_out.old) (C.faults cert_out.new)) }
    ensures write { TellBothFaults result (flow (O.held out.old) (O.held out.new) (O.faults out.old) (O.faults out.new))
        (flow (C.held cert_out.old) (C.held cert_out.new) (C.faults cert_out.old) (C.faults cert_out.new)) }
    ensures read { result ≡ Status.ReadFault → ⊥ }
{
    let points = match parse(shop.alloc, bytes) {
        Ok(points) => points,
        Err(ParseFault::Memory) => return Status::Memory,
        Err(ParseFault::Text { line, what }) => return refuse_text(line, what, out),
    };
    answer_list(shop, order, cap, &points, out, cert_out)
}

/// Reads the points to their end, and writes the certificate and then the report of their field, or the line that refuses them.
///
/// The sinks get all that goes out with the answer; after a write fault they took a prefix of that, `out` nothing before
/// `cert_out` had all, and after a read fault or want of memory nothing.
pub(crate) fn solve<R: Threads + Sync, G: Gate, A: Source, O: Sink, C: Sink>(
    shop: &Workshop<'_, R, G>,
    order: u32,
    cap: u32,
    points: &mut A,
    out: &mut O,
    cert_out: &mut C,
) -> Status
    requires order { IsOrder order }
    requires capacity { IsCapacity cap }
    ensures run { SolveRun order cap result
        (flow (A.left points.old) (A.left points.new) (A.faults points.old) (A.faults points.new))
        (flow (O.held out.old) (O.held out.new) (O.faults out.old) (O.faults out.new))
        (flow (C.held cert_out.old) (C.held cert_out.new) (C.faults cert_out.old) (C.faults cert_out.new)) }
    ensures read { result ≡ Status.ReadFault → Rose (A.faults points.old) (A.faults points.new) }
    ensures write { TellBothFaults result (flow (O.held out.old) (O.held out.new) (O.faults out.old) (O.faults out.new))
        (flow (C.held cert_out.old) (C.held cert_out.new) (C.faults cert_out.old) (C.faults cert_out.new)) }

    // What was read: all of it where the command was carried out, never more than 4096 bytes past the limit, and nothing past it before a read fault.
    ensures whole { result ≡ Status.Done → IfSome (A.left points.old) (λ _. A.left points.new ≡ Some []) }
    ensures taken { (bytes : List ℕ) × Consumes (A.left points.old) (A.left points.new) bytes × (length bytes ≤ most_input + read_size)
        × (result ≡ Status.ReadFault → length bytes ≤ most_input) }
{
    match read_all(shop.alloc, points, MOST_INPUT) {
        Ok(bytes) => answer_text(shop, order, cap, &bytes, out, cert_out),
        Err(InFault::Long) => refuse(b"refused long\n", out),
        Err(InFault::ReadFault) => Status::ReadFault,
        Err(InFault::Memory) => Status::Memory,
    }
}
