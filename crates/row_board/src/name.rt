//! The names of the places of a board.

/// A place of a board. Cells are named by their numbers in the tree.
#[derive(Clone, Copy, PartialEq, Eq, Debug)]
pub enum Name {
    /// The multipole row of a cell that has a source.
    Up(usize),
    /// The local row and the radius of a cell that has a target.
    Local(usize),
    /// The box of the k-th target, counted from 0 in the order of the list.
    Value(usize),
}

/// A row that is needed has not been filled.
#[derive(Clone, Copy, PartialEq, Eq, Debug)]
pub struct NotReady {
    /// The first such row.
    pub missing: Name,
}
