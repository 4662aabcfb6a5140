//! The certificate of a field meets each rule by which a certificate is checked. Nothing here runs.
#![tactic(auto)]

mod law;

pub use law::field_is_accepted;
