//! The answers other than Ok.
ghost use Rattle.std.specs.Prelude.{◌≡◌, ◌≤◌};
ghost use Rattle.io_ports.specs.Faults.{next_count};

use thiserror::Error;

/// A call of the outside failed.
#[derive(Clone, Copy, Debug, PartialEq, Eq, Error)]
#[error("a read or a write failed")]
pub struct Failed;

impl Failed {
    // Raises a port's count, up to its last value, and gives the answer that goes with it.
    pub(crate) fn counted(faults: &mut u64) -> Failed
        ensures raised { faults.new ≡ next_count faults.old }
        ensures later { faults.old ≤ faults.new }
    {
        *faults = faults.saturating_add(1);
        Failed
    }
}

/// Memory ran out.
#[derive(Clone, Copy, Debug, PartialEq, Eq, Error)]
#[error("out of memory")]
pub struct Memory;

/// Why an input wasn't read whole.
#[derive(Clone, Copy, Debug, PartialEq, Eq, Error)]
pub enum InFault {
    /// A read failed.
    #[error("a read failed")]
    ReadFault,
    /// The input has more bytes than its limit.
    #[error("the input is too long")]
    Long,
    /// Memory ran out.
    #[error("out of memory")]
    Memory,
}

/// A write failed.
#[derive(Clone, Copy, Debug, PartialEq, Eq, Error)]
#[error("a write failed")]
pub struct WriteFault;
