//! The certificate of an accounting, and the accounting of a certificate. Nothing here runs.
#![tactic(auto)]

mod law;

pub use law::written_is_given;
