//! The verdict.

/// What a check answers.
#[derive(Clone, Copy, Debug, PartialEq, Eq)]
pub enum Verdict {
    /// All rules hold, so the counts of each target contain the exact direct sum.
    Yes,
    /// A rule fails: `line` is the first line at which one does, and `rule` the least that fails there.
    No { rule: u8, line: u64 },
}
