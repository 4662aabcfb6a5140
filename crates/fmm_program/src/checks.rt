//! The command `check`.
ghost use Rattle.std.specs.Prelude.{◌≡◌, ℕ, ◌+◌, ◌≤◌, ◌⊎◌, List, [], IfSome, Some, length};
ghost use Rattle.std.specs.Io.KnownBytes.{Consumes};
ghost use Rattle.cert_text.specs.Certificate.{SpellsCert};
ghost use Rattle.certificate_check.specs.Answers.{IsVerdict};
ghost use Rattle.io_ports.specs.Bytes.{read_size};
ghost use Rattle.io_ports.specs.Faults.{Rose};
ghost use Rattle.limits.specs.Limits.{grid_of, most_certificate, widest_grid};
ghost use Rattle.points.specs.Limits.{WithinLimits};
ghost use Rattle.fmm_program.specs.Answers.{IsRead, most_input};
ghost use Rattle.fmm_program.specs.CheckAnswers.{AreRead, CheckAnswers};
ghost use Rattle.fmm_program.specs.CheckRuns.{AnswersBoth, AnswersSecond, HasNoPoints};
ghost use Rattle.fmm_program.specs.Endings.{IsEnding, TellsFaults, flow, untold};

use crate::inputs::MOST_INPUT;
use crate::refusals::{accept, refuse, refuse_text, reject_rule, reject_text};
use crate::status::Status;
use cert_text::{Cert, CertFault, read_cert};
use certificate_check::{Verdict, check};
use io_ports::{InFault, Sink, Source, read_all};
use limits::{grid_of, most_certificate};
use particle_text::{ParseFault, parse};
use points::Points;
use std::alloc::Global;

/// Writes the line of the verdict on a certificate over points.
fn answer_verdict<O: Sink>(points: &Points, cert: &Cert, verdict: Verdict, out: &mut O) -> Status
    requires verdict { IsVerdict points.now cert.now verdict }
    ensures ends { (input text : List ℕ) → AreRead input text points.now → SpellsCert text cert.now
        → IsEnding (CheckAnswers input text) result (flow (O.held out.old) (O.held out.new) (O.faults out.old) (O.faults out.new)) untold }
    ensures write { TellsFaults result (flow (O.held out.old) (O.held out.new) (O.faults out.old) (O.faults out.new)) }
    ensures read { result ≡ Status.ReadFault → ⊥ }
{
    match verdict {
        Verdict::Yes => accept(cert.targets(), out),
        Verdict::No { rule, line } => reject_rule(rule, line, out),
    }
}

/// Checks a certificate that was read whole.
fn answer_text<O: Sink>(alloc: Global, points: &Points, text: &[u8], out: &mut O) -> Status
    requires list { WithinLimits points.now }
    ensures ends { (input : List ℕ) → AreRead input text.now points.now
        → IsEnding (CheckAnswers input text.now) result (flow (O.held out.old) (O.held out.new) (O.faults out.old) (O.faults out.new)) untold }
    ensures write { TellsFaults result (flow (O.held out.old) (O.held out.new) (O.faults out.old) (O.faults out.new)) }
    ensures read { result ≡ Status.ReadFault → ⊥ }
{
    let cert = match read_cert(alloc, text) {
        Ok(cert) => cert,
        Err(CertFault::Memory) => return Status::Memory,
        Err(CertFault::Text { line, what }) => return reject_text(line, what, out),
    };
    match check(alloc, points, &cert) {
        Ok(verdict) => answer_verdict(points, &cert, verdict, out),
        Err(_) => Status::Memory,
    }
}

/// Reads the certificate to its end, and checks it over the points.
fn answer_points<B: Source, O: Sink>(
    alloc: Global,
    points: &Points,
    cert_in: &mut B,
    out: &mut O,
) -> Status
    requires list { WithinLimits points.now }
    ensures run { (input : List ℕ) → IsRead input points.now → AnswersSecond input result
        (flow (B.left cert_in.old) (B.left cert_in.new) (B.faults cert_in.old) (B.faults cert_in.new))
        (flow (O.held out.old) (O.held out.new) (O.faults out.old) (O.faults out.new)) }
    ensures read { result ≡ Status.ReadFault → Rose (B.faults cert_in.old) (B.faults cert_in.new) }
    ensures write { TellsFaults result (flow (O.held out.old) (O.held out.new) (O.faults out.old) (O.faults out.new)) }
    ensures whole { result ≡ Status.Done → IfSome (B.left cert_in.old) (λ _. B.left cert_in.new ≡ Some []) }
    ensures taken { (text : List ℕ) × Consumes (B.left cert_in.old) (B.left cert_in.new) text × (length text ≤ most_certificate widest_grid + read_size)
        × (result ≡ Status.ReadFault → length text ≤ most_certificate widest_grid) }
{
    match read_all(alloc, cert_in, most_certificate(grid_of(points.version))) {
        Ok(text) => answer_text(alloc, points, &text, out),
        Err(InFault::Long) => refuse(b"refused long\n", out),
        Err(InFault::ReadFault) => Status::ReadFault,
        Err(InFault::Memory) => Status::Memory,
    }
}

/// Answers points that were read whole, and the certificate.
fn answer_input<B: Source, O: Sink>(
    alloc: Global,
    bytes: &[u8],
    cert_in: &mut B,
    out: &mut O,
) -> Status
    requires length { length bytes.now ≤ most_input }
    ensures in_turn { HasNoPoints bytes.now → cert_in.new ≡ cert_in.old }
    ensures run { AnswersSecond bytes.now result
        (flow (B.left cert_in.old) (B.left cert_in.new) (B.faults cert_in.old) (B.faults cert_in.new))
        (flow (O.held out.old) (O.held out.new) (O.faults out.old) (O.faults out.new)) }
    ensures read { result ≡ Status.ReadFault → Rose (B.faults cert_in.old) (B.faults cert_in.new) }
    ensures write { TellsFaults result (flow (O.held out.old) (O.held out.new) (O.faults out.old) (O.faults out.new)) }
    ensures whole { result ≡ Status.Done → IfSome (B.left cert_in.old) (λ _. B.left cert_in.new ≡ Some []) }
    ensures taken { (text : List ℕ) × Consumes (B.left cert_in.old) (B.left cert_in.new) text × (length text ≤ most_certificate widest_grid + read_size)
        × (result ≡ Status.ReadFault → length text ≤ most_certificate widest_grid) }
{
    let points = match parse(alloc, bytes) {
        Ok(points) => points,
        Err(ParseFault::Memory) => return Status::Memory,
        Err(ParseFault::Text { line, what }) => return refuse_text(line, what, out),
    };
    answer_points(alloc, &points, cert_in, out)
}

/// Reads the points to their end and then the certificate to its end, and writes one line: that all rules hold, or where the certificate fails, or why an
/// input is refused.
///
/// After a write fault the sink took a prefix of the line, and after a read fault or want of memory nothing.
pub(crate) fn check_file<A: Source, B: Source, O: Sink>(
    alloc: Global,
    points: &mut A,
    cert_in: &mut B,
    out: &mut O,
) -> Status
    ensures in_turn { (input : List ℕ) → A.left points.old ≡ Some input → HasNoPoints input → cert_in.new ≡ cert_in.old }
    ensures run { AnswersBoth result
        (flow (A.left points.old) (A.left points.new) (A.faults points.old) (A.faults points.new))
        (flow (B.left cert_in.old) (B.left cert_in.new) (B.faults cert_in.old) (B.faults cert_in.new))
        (flow (O.held out.old) (O.held out.new) (O.faults out.old) (O.faults out.new)) untold }
    ensures read { result ≡ Status.ReadFault → Rose (A.faults points.old) (A.faults points.new) ⊎ Rose (B.faults cert_in.old) (B.faults cert_in.new) }
    ensures write { TellsFaults result (flow (O.held out.old) (O.held out.new) (O.faults out.old) (O.faults out.new)) }

    // What was read: all of both where the certificate is accepted, never more than 4096 bytes past a limit, and nothing past it before a read fault.
    ensures whole_points { result ≡ Status.Done → IfSome (A.left points.old) (λ _. A.left points.new ≡ Some []) }
    ensures whole_cert { result ≡ Status.Done → IfSome (B.left cert_in.old) (λ _. B.left cert_in.new ≡ Some []) }
    ensures taken { (bytes : List ℕ) × Consumes (A.left points.old) (A.left points.new) bytes × (length bytes ≤ most_input + read_size)
        × (result ≡ Status.ReadFault → length bytes ≤ most_input) }
    ensures cert_taken { (text : List ℕ) × Consumes (B.left cert_in.old) (B.left cert_in.new) text × (length text ≤ most_certificate widest_grid + read_size)
        × (result ≡ Status.ReadFault → length text ≤ most_certificate widest_grid) }
{
    match read_all(alloc, points, MOST_INPUT) {
        Ok(bytes) => answer_input(alloc, &bytes, cert_in, out),
        Err(InFault::Long) => refuse(b"refused long\n", out),
        Err(InFault::ReadFault) => Status::ReadFault,
        Err(InFault::Memory) => Status::Memory,
    }
}
