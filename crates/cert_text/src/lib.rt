//! Certificates as texts and as data: the lines and their forms, which line is the first at fault, and reading.
#![tactic(auto)]

mod cert;
mod fault;
mod form;
mod head;
mod law;
mod local_rows;
mod range;
mod read;
mod rows;
mod section;
mod stored;
mod zero_row;

pub use cert::Cert;
pub use fault::{CertFault, CertKind};
pub use law::one_reading;
pub use letters::{Entry, Letter};
pub use read::read_cert;
pub use section::Section;
