//! A whole input, and a whole piece of output.
ghost use Rattle.std.specs.Prelude.{◌≡◌, ◌+◌, ◌≤◌, ◌<◌, ◌↔◌, List, ℕ, length, Err, IfOk, vec_len};
ghost use Rattle.std.specs.Io.KnownBytes.{Consumes};
ghost use Rattle.io_ports.specs.Bytes.{GivesAll, Writes, read_size};
ghost use Rattle.io_ports.specs.Faults.{HasCause, Rose};

use crate::answers::{InFault, WriteFault};
use crate::ports::{Sink, Source};
use std::alloc::Global;

// How many bytes one read of `read_all` asks for.
const READ_SIZE: usize = 4096;

/// Reads a source to its end, where it has at most `limit` bytes.
///
/// # Errors
///
/// - `ReadFault` where a read failed.
/// - `Long` exactly where more than `limit` bytes came. At most `limit` + 4096 bytes were taken
///   then.
/// - `Memory` for want of memory.
///
/// What was taken before a fault is lost.
pub fn read_all<S: Source>(alloc: Global, source: &mut S, limit: u64) -> Result<Vec<u8>, InFault>
    ensures whole { IfOk result (λ bytes. GivesAll (S.left source.old) (S.left source.new) bytes.items) }
    ensures within { IfOk result (λ bytes. vec_len bytes ≤ limit) }
    ensures came { (bytes : List ℕ) × Consumes (S.left source.old) (S.left source.new) bytes
        × (length bytes ≤ limit + read_size) × ((result ≡ Err InFault.Long) ↔ (limit < length bytes)) }
    ensures cause { result ≡ Err InFault.ReadFault → Rose (S.faults source.old) (S.faults source.new) }
    ensures later { S.faults source.old ≤ S.faults source.new }
{
    let mut bytes = Vec::new(alloc);
    let mut chunk = [0; READ_SIZE];
    loop {
        let Ok(count) = source.read(&mut chunk) else {
            return Err(InFault::ReadFault);
        };
        if count == 0 {
            return Ok(bytes);
        }
        let room = limit - bytes.len() as u64;
        if count as u64 > room {
            return Err(InFault::Long);
        }
        if bytes.extend_from_slice(&chunk[..count]).is_err() {
            return Err(InFault::Memory);
        }
    }
}

/// Appends all the bytes.
///
/// # Errors
///
/// `WriteFault` where a write failed. What was appended then is a prefix of the bytes.
pub fn put<S: Sink>(sink: &mut S, bytes: &[u8]) -> Result<(), WriteFault>
    ensures bytes { Writes result (S.held sink.old) (S.held sink.new) bytes.now }
    ensures cause { HasCause (S.faults sink.old) (S.faults sink.new) result }
{
    let mut done = 0;
    while done < bytes.len() {
        match sink.write(&bytes[done..]) {
            Ok(count) => done += count,
            Err(_) => return Err(WriteFault),
        }
    }
    Ok(())
}
