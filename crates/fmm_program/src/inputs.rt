//! The limit of an input.

/// The greatest number of bytes of an input.
pub(crate) const MOST_INPUT: u64 = 16_777_216;
