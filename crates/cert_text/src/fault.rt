//! Why bytes are no certificate.
use thiserror::Error;

/// What is wrong with a line of a certificate. Syntax comes first.
#[derive(Clone, Copy, PartialEq, Eq, Debug)]
pub enum CertKind {
    /// It isn't of the form that is due at its place, its line feed is missing, or it stands behind the last line.
    Syntax,
    /// A lower end is greater than its upper end, or a number is outside its range.
    Range,
}

/// Why bytes give no certificate.
#[derive(Clone, Copy, PartialEq, Eq, Debug, Error)]
pub enum CertFault {
    /// The first line at fault, counted from 1, and what is wrong with it.
    #[error("line {line} of the certificate is at fault")]
    Text { line: u64, what: CertKind },
    #[error("out of memory")]
    Memory,
}
