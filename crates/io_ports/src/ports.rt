//! The two traits.
ghost use Rattle.std.specs.Prelude.{ℕ, List};
ghost use Rattle.std.specs.declared.option.Option.{Option};
ghost use Rattle.std.specs.Io.{ReadsAtMost};
ghost use Rattle.std.specs.Io.KnownBytes.{Keeps, ReadConsumes, WriteAppends};
ghost use Rattle.io_ports.specs.Bytes.{TakesSome};
ghost use Rattle.io_ports.specs.Faults.{HasCause};

use crate::answers::Failed;

/// Where bytes come from.
pub trait Source {
    /// The bytes still to come, told by some implementations.
    ghost left: { Self → Option (List ℕ) };

    /// The count of failed reads. It never falls, and stops at its last value, 2^64 - 1. A read
    /// that passes leaves it.
    ghost faults: { Self → ℕ };

    /// `Ok(n)`: the first `n` bytes of `into` are the next bytes. `Ok(0)` for an `into` that
    /// isn't empty means that the input has ended.
    ///
    /// # Errors
    ///
    /// `Failed` only where the count of faults rose, or stands at its last value. What is left
    /// is then as before.
    fn read(&mut self, into: &mut [u8]) -> Result<usize, Failed>
        ensures bound { ReadsAtMost result into.new }
        ensures bytes { ReadConsumes (left self.old) (left self.new) result into.new }
        ensures cause { HasCause (faults self.old) (faults self.new) result };
}

/// Where bytes go to.
pub trait Sink {
    /// The bytes taken so far, told by some implementations.
    ghost held: { Self → Option (List ℕ) };

    /// The count of failed writes and flushes. It never falls, and stops at its last value,
    /// 2^64 - 1. One that passes leaves it.
    ghost faults: { Self → ℕ };

    /// `Ok(n)`: the first `n` bytes of `piece` were taken, at least one of a piece that isn't
    /// empty.
    ///
    /// # Errors
    ///
    /// `Failed` only where the count of faults rose, or stands at its last value. What is held
    /// is then as before.
    fn write(&mut self, piece: &[u8]) -> Result<usize, Failed>
        ensures bound { TakesSome result piece.now }
        ensures bytes { WriteAppends (held self.old) (held self.new) result piece.now }
        ensures cause { HasCause (faults self.old) (faults self.new) result };

    /// Hands on what is still kept back. What is held stays as it is.
    ///
    /// # Errors
    ///
    /// `Failed` only where the count of faults rose, or stands at its last value.
    fn flush(&mut self) -> Result<(), Failed>
        ensures kept { Keeps (held self.old) (held self.new) }
        ensures cause { HasCause (faults self.old) (faults self.new) result };
}
