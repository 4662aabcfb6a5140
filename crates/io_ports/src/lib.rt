//! Where bytes come from and go to: the traits `Source` and `Sink`, ports in memory for tests,
//! ports over std's readers and writers, and the two helpers `read_all` and `put`.
//!
//! Every answer of a fault shows in a count that its port keeps: a call fails only where the
//! count rose in that call, or stands at its last value, and one that passes leaves the count.
#![tactic(auto)]

mod answers;
mod ports;
mod sinks;
mod sources;
mod std_ports;
mod transfer;

pub use answers::{Failed, InFault, Memory, WriteFault};
pub use ports::{Sink, Source};
pub use sinks::{BrokenSink, DropSink, MemSink};
pub use sources::{BrokenSource, MemSource, SureSource};
pub use std_ports::{ReadSource, WriteSink};
pub use transfer::{put, read_all};
