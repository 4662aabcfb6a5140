//! The letters of the four lists and their entries.
#![tactic(auto)]

/// The list that an entry stands in.
#[derive(Clone, Copy, PartialEq, Eq, PartialOrd, Ord, Debug)]
pub enum Letter {
    /// Two leaves that touch: their pairs are summed one by one.
    U,
    /// Two cells of one level that don't touch while their parents do: the moments of the second become a local row of the first.
    V,
    /// A leaf and a smaller cell apart from it: the moments of the second are evaluated at the targets of the first.
    W,
    /// A cell and a larger leaf apart from it: the sources of the second enter the local row of the first.
    X,
}

/// An entry of the lists: the cell `b` of the targets and the cell `c` of the sources, by their numbers.
#[derive(Clone, Copy, PartialEq, Eq, Debug)]
pub struct Entry {
    pub letter: Letter,
    pub b: usize,
    pub c: usize,
}
