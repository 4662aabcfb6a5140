//! The rules of the multipole rows and of the local rows of a certificate, decided exactly.
//!
//! A row holds where what the method computes from the rows, the sources and the entries that are given lies in it, box by box. All sums are
//! exact, so the answer is that of the definitions whatever the certificate gives: its rows may be forged, and their sums stay below 2^126.
#![tactic(auto)]

mod children;
mod given;
mod inside;
mod locals;
mod multipoles;
mod radius;
mod sources;
mod v_entries;
mod x_entries;

pub use locals::local_holds;
pub use multipoles::multipole_holds;
