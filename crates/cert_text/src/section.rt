//! The sections of a certificate.

/// What the lines of a section say. The sections stand in this order.
#[derive(Clone, Copy, PartialEq, Eq, Debug)]
pub enum Section {
    /// The parent and the cell of a node.
    Node,
    /// The node that a point is in.
    At,
    /// The multipole row of a node.
    Multipole,
    /// An entry of the lists.
    Entry,
    /// The radius and the local row of a node.
    Local,
    /// The box and the counts of a target.
    Target,
    /// Nothing follows.
    End,
}
