//! The lines in place of a report, and those of a check.
ghost use Rattle.std.specs.Prelude.{◌≡◌, ℕ, ◌≤◌, ◌⊎◌, length};
ghost use Rattle.cell_name.specs.Cell.{square};
ghost use Rattle.limits.specs.Limits.{grid_of};
ghost use Rattle.points.specs.declared.Points.{Points};
ghost use Rattle.quadtree.specs.Faults.{IsFaultOf};
ghost use Rattle.fmm_program.specs.Answers.{DepthAnswers, crowded_line, fault_line, kind_word, usage_line};
ghost use Rattle.fmm_program.specs.CheckAnswers.{accepted_line, cert_kind_word, fault_rejected_line, rule_rejected_line};
ghost use Rattle.fmm_program.specs.Endings.{IsEnding, OneLine, TellsFaults, flow, untold};

use crate::status::Status;
use cell_name::Cell;
use cert_text::CertKind;
use field_solve::SolveFault;
use io_ports::{Sink, put};
use line_text::FrontText;
use particle_text::TextKind;

// A line grows from its end to its front, in at most this many bytes.
const LINE: usize = 128;

const USAGE: &[u8] =
    b"usage: fmm solve ORDER CAP FILE [WORKERS] | check FILE | session ORDER CAP | sample SEED N ORDER CAP [WORKERS]\n";

/// Writes a line of refusal.
pub(crate) fn refuse<O: Sink>(line: &[u8], out: &mut O) -> Status
    ensures ends { IsEnding (OneLine Status.Refused line.now) result
        (flow (O.held out.old) (O.held out.new) (O.faults out.old) (O.faults out.new)) untold }
    ensures only { (result ≡ Status.Refused) ⊎ (result ≡ Status.WriteFault) }
    ensures write { TellsFaults result (flow (O.held out.old) (O.held out.new) (O.faults out.old) (O.faults out.new)) }
{
    match put(out, line) {
        Ok(()) => Status::Refused,
        Err(_) => Status::WriteFault,
    }
}

/// Writes the line of the first fault of a text.
pub(crate) fn refuse_text<O: Sink>(line: u64, kind: TextKind, out: &mut O) -> Status
    ensures ends { IsEnding (OneLine Status.Refused (fault_line line kind)) result
        (flow (O.held out.old) (O.held out.new) (O.faults out.old) (O.faults out.new)) untold }
    ensures only { (result ≡ Status.Refused) ⊎ (result ≡ Status.WriteFault) }
    ensures write { TellsFaults result (flow (O.held out.old) (O.held out.new) (O.faults out.old) (O.faults out.new)) }
{
    refuse(fault_text(line, kind).as_bytes(), out)
}

/// Writes the usage line.
pub(crate) fn refuse_words<O: Sink>(out: &mut O) -> Status
    ensures ends { IsEnding (OneLine Status.Usage usage_line) result (flow (O.held out.old) (O.held out.new) (O.faults out.old) (O.faults out.new)) untold }
    ensures only { (result ≡ Status.Usage) ⊎ (result ≡ Status.WriteFault) }
    ensures write { TellsFaults result (flow (O.held out.old) (O.held out.new) (O.faults out.old) (O.faults out.new)) }
{
    match put(out, USAGE) {
        Ok(()) => Status::Usage,
        Err(_) => Status::WriteFault,
    }
}

/// Writes the line of a list that has no field; there is none for want of memory.
pub(crate) fn refuse_depth<O: Sink>(fault: SolveFault, out: &mut O) -> Status
    ensures ends { (points : Points) (cap : ℕ) → IsFaultOf (grid_of points.version) points.list cap fault
        → IsEnding (DepthAnswers points cap) result (flow (O.held out.old) (O.held out.new) (O.faults out.old) (O.faults out.new)) untold }
    ensures read { result ≡ Status.ReadFault → ⊥ }
    ensures write { TellsFaults result (flow (O.held out.old) (O.held out.new) (O.faults out.old) (O.faults out.new)) }
{
    match fault {
        SolveFault::Crowded { cell, count } => refuse(crowded_text(cell, count).as_bytes(), out),
        SolveFault::Cells => refuse(b"refused depth cells\n", out),
        SolveFault::Memory => Status::Memory,
    }
}

// The word of a kind.
fn kind_label(kind: TextKind) -> &'static [u8]
    ensures word { result.now ≡ kind_word kind }
    ensures length { length result.now ≤ 8 }
{
    match kind {
        TextKind::Syntax => b"syntax",
        TextKind::Range => b"range",
        TextKind::Mixed => b"mixed",
        TextKind::Many => b"many",
        TextKind::Strength => b"strength",
    }
}

// The line of the first fault of a text.
fn fault_text(line: u64, kind: TextKind) -> FrontText<LINE>
    ensures { result ≡ fault_line line kind }
{
    let mut text = FrontText::new();
    text.prepend(b'\n');
    text.prepend_word(kind_label(kind));
    text.prepend(b' ');
    text.prepend_decimal(line);
    text.prepend_word(b"refused line ");
    text
}

// The line of the first crowded place.
fn crowded_text(cell: Cell, count: u64) -> FrontText<LINE>
    ensures { result ≡ crowded_line (square cell) count }
{
    let mut text = FrontText::new();
    text.prepend(b'\n');
    text.prepend_decimal(count);
    text.prepend_word(b" points ");
    text.prepend_decimal(u64::from(cell.j));
    text.prepend(b' ');
    text.prepend_decimal(u64::from(cell.i));
    text.prepend(b' ');
    text.prepend_decimal(u64::from(cell.level));
    text.prepend_word(b"refused depth crowded cell ");
    text
}

/// Writes the line of a certificate that is accepted.
pub(crate) fn accept<O: Sink>(targets: u64, out: &mut O) -> Status
    ensures ends { IsEnding (OneLine Status.Done (accepted_line targets)) result
        (flow (O.held out.old) (O.held out.new) (O.faults out.old) (O.faults out.new)) untold }
    ensures only { (result ≡ Status.Done) ⊎ (result ≡ Status.WriteFault) }
    ensures write { TellsFaults result (flow (O.held out.old) (O.held out.new) (O.faults out.old) (O.faults out.new)) }
{
    match put(out, accepted_text(targets).as_bytes()) {
        Ok(()) => Status::Done,
        Err(_) => Status::WriteFault,
    }
}

/// Writes a line that rejects a certificate.
fn reject<O: Sink>(line: &[u8], out: &mut O) -> Status
    ensures ends { IsEnding (OneLine Status.Rejected line.now) result
        (flow (O.held out.old) (O.held out.new) (O.faults out.old) (O.faults out.new)) untold }
    ensures only { (result ≡ Status.Rejected) ⊎ (result ≡ Status.WriteFault) }
    ensures write { TellsFaults result (flow (O.held out.old) (O.held out.new) (O.faults out.old) (O.faults out.new)) }
{
    match put(out, line) {
        Ok(()) => Status::Rejected,
        Err(_) => Status::WriteFault,
    }
}

/// Writes the line of the first fault of a certificate's text.
pub(crate) fn reject_text<O: Sink>(line: u64, kind: CertKind, out: &mut O) -> Status
    ensures ends { IsEnding (OneLine Status.Rejected (fault_rejected_line kind line)) result
        (flow (O.held out.old) (O.held out.new) (O.faults out.old) (O.faults out.new)) untold }
    ensures only { (result ≡ Status.Rejected) ⊎ (result ≡ Status.WriteFault) }
    ensures write { TellsFaults result (flow (O.held out.old) (O.held out.new) (O.faults out.old) (O.faults out.new)) }
{
    reject(fault_rejected_text(line, kind).as_bytes(), out)
}

/// Writes the line of the first rule that fails of a certificate.
pub(crate) fn reject_rule<O: Sink>(rule: u8, line: u64, out: &mut O) -> Status
    ensures ends { IsEnding (OneLine Status.Rejected (rule_rejected_line rule line)) result
        (flow (O.held out.old) (O.held out.new) (O.faults out.old) (O.faults out.new)) untold }
    ensures only { (result ≡ Status.Rejected) ⊎ (result ≡ Status.WriteFault) }
    ensures write { TellsFaults result (flow (O.held out.old) (O.held out.new) (O.faults out.old) (O.faults out.new)) }
{
    reject(rule_rejected_text(rule, line).as_bytes(), out)
}

// The line of a certificate that is accepted.
fn accepted_text(targets: u64) -> FrontText<LINE>
    ensures { result ≡ accepted_line targets }
{
    let mut text = FrontText::new();
    text.prepend(b'\n');
    text.prepend_decimal(targets);
    text.prepend_word(b"accepted targets ");
    text
}

// The word of a kind of fault of a certificate.
fn cert_kind_label(kind: CertKind) -> &'static [u8]
    ensures word { result.now ≡ cert_kind_word kind }
    ensures length { length result.now ≤ 8 }
{
    match kind {
        CertKind::Syntax => b"syntax",
        CertKind::Range => b"range",
    }
}

// The line of the first fault of a certificate's text.
fn fault_rejected_text(line: u64, kind: CertKind) -> FrontText<LINE>
    ensures { result ≡ fault_rejected_line kind line }
{
    let mut text = FrontText::new();
    text.prepend(b'\n');
    text.prepend_decimal(line);
    text.prepend_word(b" line ");
    text.prepend_word(cert_kind_label(kind));
    text.prepend_word(b"rejected ");
    text
}

// The line of the first rule that fails of a certificate.
fn rule_rejected_text(rule: u8, line: u64) -> FrontText<LINE>
    ensures { result ≡ rule_rejected_line rule line }
{
    let mut text = FrontText::new();
    text.prepend(b'\n');
    text.prepend_decimal(line);
    text.prepend_word(b" line ");
    text.prepend_decimal(u64::from(rule));
    text.prepend_word(b"rejected c");
    text
}
