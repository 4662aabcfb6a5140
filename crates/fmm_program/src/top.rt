//! The top call.
ghost use Rattle.std.specs.Prelude.{◌≡◌, ℕ, ◌+◌, ◌≤◌, ◌⊎◌, List, Some, length};
ghost use Rattle.std.specs.Io.KnownBytes.{Consumes, Keeps};
ghost use Rattle.io_ports.specs.Bytes.{read_size};
ghost use Rattle.io_ports.specs.Faults.{Rose};
ghost use Rattle.limits.specs.Limits.{most_certificate, widest_grid};
ghost use Rattle.fmm_program.specs.Answers.{most_input};
ghost use Rattle.fmm_program.specs.CheckRuns.{CheckRun, CheckedRun, HasNoPoints};
ghost use Rattle.fmm_program.specs.Endings.{IsQuiet, TellBothFaults, flow};
ghost use Rattle.fmm_program.specs.Forms.{IsCheck, IsNoCheck, IsNoSolve, IsSolve, IsNoForm};
ghost use Rattle.fmm_program.specs.Runs.{CertifiedRun, SampleRun, SolveRun, UsageRun};
ghost use Rattle.fmm_program.specs.Samples.{IsSample};

use crate::checks::check_file;
use crate::commands::{Command, asked};
use crate::refusals::refuse_words;
use crate::samples::sample;
use crate::solve::solve;
use crate::status::Status;
use crate::words::Words;
use crate::workshop::Workshop;
use io_ports::{Sink, Source};
use row_phases::Gate;
use std::alloc::Global;
use std::thread::Threads;

// Flushes the sink after a command that ended so, where something went out with it.
fn flushed<O: Sink>(status: Status, out: &mut O) -> Status
    ensures stays { (result ≡ status) ⊎ (result ≡ Status.WriteFault) }
    ensures silent { IsQuiet status → (result ≡ status) × (out.new ≡ out.old) }
    ensures kept { Keeps (O.held out.old) (O.held out.new) }
    ensures later { O.faults out.old ≤ O.faults out.new }
    ensures failed { result ≡ Status.WriteFault → (status ≡ Status.WriteFault) ⊎ Rose (O.faults out.old) (O.faults out.new) }
    ensures passed { (result ≡ Status.WriteFault → ⊥) → O.faults out.new ≡ O.faults out.old }
{
    match status {
        Status::Done | Status::Refused | Status::Usage | Status::Rejected => match out.flush() {
            Ok(()) => status,
            Err(_) => Status::WriteFault,
        },
        _ => status,
    }
}

/// Does all that the program does: carries out the command that the words ask for.
///
/// `solve ORDER CAP FILE [WORKERS]` reads `points` to its end, and writes the certificate to `cert_out`, whole, and then
/// the report to `out`. `sample SEED N ORDER CAP
/// [WORKERS]` makes its points, reads nothing, and writes the summary of their field to `out`. Both solve by so many
/// workers, of which `gate` is told, and by one where no number is given. `check FILE` reads `points` to its end and then
/// `cert_in` to its end, and writes one line to `out`: `accepted targets T` where all rules hold of the certificate over the
/// points, so that the counts of each target contain the exact direct sum, and else the first line at which one fails. Words
/// of no form get the usage line, and nothing is read. `out` is flushed at the end, and `cert_out` before the report.
pub fn run<R: Threads + Sync, A: Source, B: Source, O: Sink, C: Sink, G: Gate>(
    rt: &R,
    alloc: Global,
    words: &Words,
    points: &mut A,
    cert_in: &mut B,
    out: &mut O,
    cert_out: &mut C,
    gate: &G,
) -> Status
    // The facts of a run, by the form of the words.
    ensures certified { (order cap : ℕ) (file : List ℕ) → IsSolve words.now order cap file → result ≡ Status.Done
        → CertifiedRun order cap
        (flow (A.left points.old) (A.left points.new) (A.faults points.old) (A.faults points.new))
        (flow (O.held out.old) (O.held out.new) (O.faults out.old) (O.faults out.new))
        (flow (C.held cert_out.old) (C.held cert_out.new) (C.faults cert_out.old) (C.faults cert_out.new)) }
    ensures solve { (order cap : ℕ) (file : List ℕ) → IsSolve words.now order cap file
        → SolveRun order cap result
        (flow (A.left points.old) (A.left points.new) (A.faults points.old) (A.faults points.new))
        (flow (O.held out.old) (O.held out.new) (O.faults out.old) (O.faults out.new))
        (flow (C.held cert_out.old) (C.held cert_out.new) (C.faults cert_out.old) (C.faults cert_out.new)) }
    ensures checked { (file : List ℕ) → IsCheck words.now file → result ≡ Status.Done
        → CheckedRun
        (flow (A.left points.old) (A.left points.new) (A.faults points.old) (A.faults points.new))
        (flow (B.left cert_in.old) (B.left cert_in.new) (B.faults cert_in.old) (B.faults cert_in.new)) }
    ensures check { (file : List ℕ) → IsCheck words.now file
        → CheckRun result
        (flow (A.left points.old) (A.left points.new) (A.faults points.old) (A.faults points.new))
        (flow (B.left cert_in.old) (B.left cert_in.new) (B.faults cert_in.old) (B.faults cert_in.new))
        (flow (O.held out.old) (O.held out.new) (O.faults out.old) (O.faults out.new))
        (flow (C.held cert_out.old) (C.held cert_out.new) (C.faults cert_out.old) (C.faults cert_out.new)) }
    ensures sample { (seed n order cap : ℕ) → IsSample words.now seed n order cap
        → SampleRun seed n order cap result
        (flow (O.held out.old) (O.held out.new) (O.faults out.old) (O.faults out.new))
        (flow (C.held cert_out.old) (C.held cert_out.new) (C.faults cert_out.old) (C.faults cert_out.new)) }
    ensures usage { IsNoForm words.now
        → UsageRun result
        (flow (O.held out.old) (O.held out.new) (O.faults out.old) (O.faults out.new))
        (flow (C.held cert_out.old) (C.held cert_out.new) (C.faults cert_out.old) (C.faults cert_out.new)) }
    ensures usage_only { result ≡ Status.Usage → IsNoForm words.now }
    ensures rejected { IsNoCheck words.now → result ≡ Status.Rejected → ⊥ }

    // A fault is answered only where its port's count rose, and one of a write always is.
    ensures read { result ≡ Status.ReadFault → Rose (A.faults points.old) (A.faults points.new) ⊎ Rose (B.faults cert_in.old) (B.faults cert_in.new) }
    ensures write { TellBothFaults result (flow (O.held out.old) (O.held out.new) (O.faults out.old) (O.faults out.new))
        (flow (C.held cert_out.old) (C.held cert_out.new) (C.faults cert_out.old) (C.faults cert_out.new)) }

    // What was read, and what stays.
    ensures unread { IsNoSolve words.now → IsNoCheck words.now → points.new ≡ points.old }
    ensures taken { (bytes : List ℕ) × Consumes (A.left points.old) (A.left points.new) bytes × (length bytes ≤ most_input + read_size)
        × (result ≡ Status.ReadFault → length bytes ≤ most_input) }
    ensures cert { IsNoCheck words.now → cert_in.new ≡ cert_in.old }
    ensures in_turn { (input : List ℕ) → A.left points.old ≡ Some input → HasNoPoints input → cert_in.new ≡ cert_in.old }
    ensures cert_taken { (text : List ℕ) × Consumes (B.left cert_in.old) (B.left cert_in.new) text × (length text ≤ most_certificate widest_grid + read_size)
        × (result ≡ Status.ReadFault → length text ≤ most_certificate widest_grid) }
    ensures uncertified { IsNoSolve words.now → cert_out.new ≡ cert_out.old }
{
    match asked(words) {
        Some(Command::Solve(command)) => {
            let shop = Workshop {
                rt,
                alloc,
                workers: command.workers,
                gate,
            };
            let status = solve(&shop, command.order, command.cap, points, out, cert_out);
            flushed(status, out)
        }
        Some(Command::Check(_)) => flushed(check_file(alloc, points, cert_in, out), out),
        Some(Command::Sample(command)) => {
            let shop = Workshop {
                rt,
                alloc,
                workers: command.workers,
                gate,
            };
            flushed(sample(&shop, command, out), out)
        }
        None => flushed(refuse_words(out), out),
    }
}
