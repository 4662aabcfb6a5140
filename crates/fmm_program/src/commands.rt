//! The command that the words ask for, and what it needs open.
ghost use Rattle.std.specs.Prelude.{IfSome, IfNone};
ghost use Rattle.fmm_program.specs.Forms.{Asks, IsNoForm, Opens};

use crate::samples::{SampleCommand, asked_sample};
use crate::words::{CheckCommand, SolveCommand, Words, asked_check, asked_solve};

/// A command of the program.
#[derive(Clone, Copy, Debug, PartialEq, Eq)]
pub(crate) enum Command<'a> {
    Solve(SolveCommand<'a>),
    Check(CheckCommand<'a>),
    Sample(SampleCommand),
}

/// What is to be opened before the run.
#[derive(Clone, Copy, Debug, PartialEq, Eq)]
pub enum Opening<'a> {
    /// No file: the words are of no form, or ask for a sample.
    Nothing,
    /// The points come from standard input.
    SolveInput,
    /// The points come from this file.
    SolveFile { file: &'a str },
    /// The points come from this file, and the certificate from the file of its name and `.cert`.
    CheckFile { file: &'a str },
}

/// The command that the words ask for; `None` where they are of no form.
pub(crate) fn asked(words: &Words) -> Option<Command<'_>>
    ensures some { IfSome result (Asks words.now) }
    ensures none { IfNone result (IsNoForm words.now) }
{
    if let Some(command) = asked_solve(words) {
        return Some(Command::Solve(command));
    }
    if let Some(command) = asked_check(words) {
        return Some(Command::Check(command));
    }
    let command = asked_sample(words)?;
    Some(Command::Sample(command))
}

/// What is to be opened for these words. It takes no memory.
///
/// `Nothing` exactly where they are of no form or ask for a sample; a FILE `-` is standard input.
pub fn plan(words: &Words) -> Opening<'_>
    ensures { Opens words.now result }
{
    match asked(words) {
        Some(Command::Solve(command)) => {
            if command.file == "-" {
                Opening::SolveInput
            } else {
                Opening::SolveFile { file: command.file }
            }
        }
        Some(Command::Check(command)) => Opening::CheckFile { file: command.file },
        _ => Opening::Nothing,
    }
}
