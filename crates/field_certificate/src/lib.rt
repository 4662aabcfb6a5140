//! The certificate of a field as bytes.
#![tactic(auto)]

mod law;
mod lines;
mod sections;
mod write;

pub use law::field_certificate_is_one;
pub use write::write_cert;
