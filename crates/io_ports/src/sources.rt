//! Sources in memory, with short and failing reads where a test wants them, and one that fails
//! always.
ghost use Rattle.std.specs.Prelude.{◌≡◌, ◌≤◌, ◌↔◌, ℕ, List, None, Some, Ok, Err, length, take, drop, min, Contains, IfOk, OnErr, IsErr, vec_len};
ghost use Rattle.std.specs.Io.{ReadsAtMost};
ghost use Rattle.std.specs.Io.KnownBytes.{ReadConsumes};
ghost use Rattle.io_ports.specs.Faults.{HasCause, next_count};
ghost use Rattle.io_ports.specs.Memory.{Feed, given_count, after_read, after_failed_read};

use crate::answers::Failed;
use crate::ports::Source;
use std::marker::Model;

// Copies the next bytes, at most that many, and says how many they are.
fn copy_next(bytes: &[u8], into: &mut [u8], most: usize) -> usize
    ensures count { result ≡ min (min most (length into.old)) (length bytes.now) }
    ensures bound { result ≤ length into.new }
    ensures copied { take result into.new ≡ take result bytes.now }
{
    let count = most.min(into.len()).min(bytes.len());
    into[..count].copy_from_slice(&bytes[..count]);
    count
}

/// Gives its bytes in short reads, and fails at the reads that it is told to fail at. A clause
/// sees it as a `Feed`.
#[derive(Drop)]
pub struct MemSource {
    bytes: Vec<u8>,
    at: usize,
    step: usize,
    failing: Vec<u64>,
    reads: u64,
    faults: u64,
}

impl Model for MemSource {
    ghost Value = { Feed };

    ghost view = { λ s. record { left = drop s.at s.bytes.items; step = s.step; failing = s.failing.items; reads = s.reads; faults = s.faults } };

    ghost invariant = { λ s. (s.at ≤ vec_len s.bytes) × (1 ≤ s.step) };
}

impl MemSource {
    /// A source of these bytes. Each read gives at most `step` bytes, and the k-th read, counted
    /// from 1, fails exactly where `failing` holds k.
    pub fn new(bytes: Vec<u8>, step: usize, failing: Vec<u64>) -> MemSource
        requires { 1 ≤ step }
        ensures { result ≡ record { left = bytes.items; step = step; failing = failing.items; reads = 0; faults = 0 } }
    {
        MemSource {
            bytes,
            at: 0,
            step,
            failing,
            reads: 0,
            faults: 0,
        }
    }
}

impl Source for MemSource {
    ghost left = { λ feed. Some feed.left };

    ghost faults = { λ feed. feed.faults };

    fn read(&mut self, into: &mut [u8]) -> Result<usize, Failed>
        // Which reads fail, and what each leaves.
        ensures fails { IsErr result ↔ Contains self.old.failing (next_count self.old.reads) }
        ensures failed { OnErr result (self.new ≡ after_failed_read self.old) }
        ensures count { IfOk result (λ n. n ≡ given_count self.old (length into.old)) }
        ensures given { IfOk result (λ n. take n into.new ≡ take n self.old.left) }
        ensures after { IfOk result (λ n. self.new ≡ after_read self.old n) }

        // The clauses of the trait.
        ensures bound { ReadsAtMost result into.new }
        ensures bytes { ReadConsumes (Some self.old.left) (Some self.new.left) result into.new }
        ensures cause { HasCause self.old.faults self.new.faults result }
    {
        self.reads = self.reads.saturating_add(1);
        if self.failing.contains(&self.reads) {
            return Err(Failed::counted(&mut self.faults));
        }
        let count = copy_next(&self.bytes[self.at..], into, self.step);
        self.at += count;
        Ok(count)
    }
}

/// Gives its bytes as fast as they are asked for, and never fails. A clause sees the bytes that
/// are left.
#[derive(Drop)]
pub struct SureSource {
    bytes: Vec<u8>,
    at: usize,
}

impl Model for SureSource {
    ghost Value = { List ℕ };

    ghost view = { λ s. drop s.at s.bytes.items };

    ghost invariant = { λ s. s.at ≤ vec_len s.bytes };
}

impl SureSource {
    pub fn new(bytes: Vec<u8>) -> SureSource
        ensures { result ≡ bytes.items }
    {
        SureSource { bytes, at: 0 }
    }
}

impl Source for SureSource {
    ghost left = { λ rest. Some rest };

    ghost faults = { λ _. 0 };

    fn read(&mut self, into: &mut [u8]) -> Result<usize, Failed>
        ensures count { result ≡ Ok (min (length into.old) (length self.old)) }
        ensures given { IfOk result (λ n. take n into.new ≡ take n self.old) }
        ensures after { IfOk result (λ n. self.new ≡ drop n self.old) }

        // The clauses of the trait.
        ensures bound { ReadsAtMost result into.new }
        ensures bytes { ReadConsumes (Some self.old) (Some self.new) result into.new }
        ensures cause { HasCause 0 0 result }
    {
        let count = copy_next(&self.bytes[self.at..], into, into.len());
        self.at += count;
        Ok(count)
    }
}

/// Fails every read. It stands for an input that can't be opened; a clause sees the count of
/// its faults.
#[derive(Drop)]
pub struct BrokenSource {
    faults: u64,
}

impl Model for BrokenSource {
    ghost Value = { ℕ };

    ghost view = { λ s. s.faults };
}

impl BrokenSource {
    pub fn new() -> BrokenSource
        ensures { result ≡ 0 }
    {
        BrokenSource { faults: 0 }
    }
}

impl Source for BrokenSource {
    ghost left = { λ _. None };

    ghost faults = { λ count. count };

    fn read(&mut self, into: &mut [u8]) -> Result<usize, Failed>
        ensures fails { result ≡ Err (record {}) }
        ensures counted { self.new ≡ next_count self.old }
        ensures bound { ReadsAtMost result into.new }
        ensures cause { HasCause self.old self.new result }
    {
        Err(Failed::counted(&mut self.faults))
    }
}
