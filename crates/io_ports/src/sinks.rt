//! Sinks: one in memory, with short and failing writes where a test wants them, one that keeps
//! nothing, and one that fails always.
ghost use Rattle.std.specs.Prelude.{◌≡◌, ◌+◌, ◌≤◌, ◌<◌, ◌↔◌, ◌⊎◌, ℕ, [], None, Some, Ok, Err, length, Contains, IfOk, OnOk, OnErr, IsErr, vec_len, vec_capacity};
ghost use Rattle.std.specs.Io.KnownBytes.{Keeps, WriteAppends};
ghost use Rattle.io_ports.specs.Bytes.{TakesSome};
ghost use Rattle.io_ports.specs.Faults.{HasCause, next_count};
ghost use Rattle.io_ports.specs.Memory.{Store, taken_count, after_flush, after_write, after_failed_write};

use crate::answers::{Failed, Memory};
use crate::ports::Sink;
use std::alloc::Global;
use std::marker::Model;

/// Takes bytes in short writes while it has room, and fails at the writes that it is told to
/// fail at. A clause sees it as a `Store`.
#[derive(Drop)]
pub struct MemSink {
    bytes: Vec<u8>,
    room: usize,
    step: usize,
    failing: Vec<u64>,
    writes: u64,
    faults: u64,
}

impl Model for MemSink {
    ghost Value = { Store };

    ghost view = { λ s. record { bytes = s.bytes.items; room = s.room; step = s.step; failing = s.failing.items; writes = s.writes; faults = s.faults } };

    ghost invariant = { λ s. (vec_len s.bytes + s.room ≤ vec_capacity s.bytes) × (1 ≤ s.step) };
}

impl MemSink {
    /// An empty sink for `room` bytes, whose memory is taken here. A write takes at most `step`
    /// bytes and at most the room that is left. The k-th write, counted from 1, fails exactly
    /// where `failing` holds k, or where no room is left and the piece isn't empty. A flush
    /// counts as a write, of no piece.
    ///
    /// # Errors
    ///
    /// `Memory` for want of memory.
    pub fn with_room(
        alloc: Global,
        room: usize,
        step: usize,
        failing: Vec<u64>,
    ) -> Result<MemSink, Memory>
        requires { 1 ≤ step }
        ensures { IfOk result (λ sink. sink ≡ record { bytes = []; room = room; step = step; failing = failing.items; writes = 0; faults = 0 }) }
    {
        let bytes = Vec::with_capacity(alloc, room).map_err(|_| Memory)?;
        Ok(MemSink {
            bytes,
            room,
            step,
            failing,
            writes: 0,
            faults: 0,
        })
    }

    /// The bytes taken so far.
    pub fn held(&self) -> &[u8]
        ensures { result.now ≡ self.now.bytes }
    {
        &self.bytes
    }
}

impl Sink for MemSink {
    ghost held = { λ store. Some store.bytes };

    ghost faults = { λ store. store.faults };

    fn write(&mut self, piece: &[u8]) -> Result<usize, Failed>
        // Which writes fail, and what each leaves.
        ensures fails { IsErr result ↔ (Contains self.old.failing (next_count self.old.writes) ⊎ ((self.old.room ≡ 0) × (0 < length piece.now))) }
        ensures failed { OnErr result (self.new ≡ after_failed_write self.old) }
        ensures count { IfOk result (λ n. n ≡ taken_count self.old (length piece.now)) }
        ensures after { IfOk result (λ n. self.new ≡ after_write self.old piece.now n) }

        // The clauses of the trait.
        ensures bound { TakesSome result piece.now }
        ensures bytes { WriteAppends (Some self.old.bytes) (Some self.new.bytes) result piece.now }
        ensures cause { HasCause self.old.faults self.new.faults result }
    {
        self.writes = self.writes.saturating_add(1);
        let is_full = self.room == 0 && !piece.is_empty();
        if is_full || self.failing.contains(&self.writes) {
            return Err(Failed::counted(&mut self.faults));
        }
        let count = self.step.min(piece.len()).min(self.room);
        self.bytes.extend_from_slice(&piece[..count]).unwrap();
        self.room -= count;
        Ok(count)
    }

    fn flush(&mut self) -> Result<(), Failed>
        // Which flushes fail, and what each leaves.
        ensures fails { IsErr result ↔ Contains self.old.failing (next_count self.old.writes) }
        ensures failed { OnErr result (self.new ≡ after_failed_write self.old) }
        ensures after { OnOk result (self.new ≡ after_flush self.old) }

        // The clauses of the trait.
        ensures kept { Keeps (Some self.old.bytes) (Some self.new.bytes) }
        ensures cause { HasCause self.old.faults self.new.faults result }
    {
        self.writes = self.writes.saturating_add(1);
        if self.failing.contains(&self.writes) {
            return Err(Failed::counted(&mut self.faults));
        }
        Ok(())
    }
}

/// Takes every piece whole, tells nothing and never fails.
#[derive(Clone, Copy)]
pub struct DropSink;

impl Sink for DropSink {
    ghost held = { λ _. None };

    ghost faults = { λ _. 0 };

    fn write(&mut self, piece: &[u8]) -> Result<usize, Failed>
        ensures whole { result ≡ Ok (length piece.now) }
        ensures bound { TakesSome result piece.now }
        ensures cause { HasCause 0 0 result }
    {
        Ok(piece.len())
    }

    fn flush(&mut self) -> Result<(), Failed>
        ensures passes { result ≡ Ok tt }
        ensures cause { HasCause 0 0 result }
    {
        Ok(())
    }
}

/// Fails every write and every flush. It stands for an output that can't be opened; a clause sees the count of
/// its faults.
#[derive(Drop)]
pub struct BrokenSink {
    faults: u64,
}

impl Model for BrokenSink {
    ghost Value = { ℕ };

    ghost view = { λ s. s.faults };
}

impl BrokenSink {
    pub fn new() -> BrokenSink
        ensures { result ≡ 0 }
    {
        BrokenSink { faults: 0 }
    }
}

impl Sink for BrokenSink {
    ghost held = { λ _. None };

    ghost faults = { λ count. count };

    fn write(&mut self, piece: &[u8]) -> Result<usize, Failed>
        ensures fails { result ≡ Err (record {}) }
        ensures counted { self.new ≡ next_count self.old }
        ensures bound { TakesSome result piece.now }
        ensures cause { HasCause self.old self.new result }
    {
        Err(Failed::counted(&mut self.faults))
    }

    fn flush(&mut self) -> Result<(), Failed>
        ensures fails { result ≡ Err (record {}) }
        ensures counted { self.new ≡ next_count self.old }
        ensures cause { HasCause self.old self.new result }
    {
        Err(Failed::counted(&mut self.faults))
    }
}
