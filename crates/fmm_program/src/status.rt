//! How a run ends.
ghost use Rattle.std.specs.Prelude.{◌≡◌};

/// The answer of a run.
#[derive(Clone, Copy, Debug, PartialEq, Eq)]
pub enum Status {
    /// The command was carried out and its input was read to its end.
    Done,
    /// The input was refused; one line says why.
    Refused,
    /// The words are of no form.
    Usage,
    /// Want of memory.
    Memory,
    /// A read failed.
    ReadFault,
    /// A write failed.
    WriteFault,
    /// A certificate was rejected.
    Rejected,
}

impl Status {
    ghost use Rattle.fmm_program.specs.Endings.{code};

    /// The exit status: 0 to 6, in the order of the answers.
    pub fn code(self) -> u8
        ensures { result ≡ code self }
    {
        match self {
            Status::Done => 0,
            Status::Refused => 1,
            Status::Usage => 2,
            Status::Memory => 3,
            Status::ReadFault => 4,
            Status::WriteFault => 5,
            Status::Rejected => 6,
        }
    }
}
