//! What is told when a run of places begins and ends.

/// A run of places of one phase: the level whose cells it fills, with `down` for local rows; that of the targets is one more than the deepest
/// level, with `down`. `part` counts the runs of the phase from 0.
#[derive(Clone, Copy, Debug, PartialEq, Eq)]
pub struct Piece {
    pub level: u8,
    pub down: bool,
    pub part: u32,
}

/// What is told of each run, by the thread that fills it: before its first place, and after its last. No result depends on it.
pub trait Gate: Sync {
    /// The run begins.
    fn enter(&self, piece: Piece);

    /// The run has ended.
    fn leave(&self, piece: Piece);
}

/// The gate that does nothing.
#[derive(Clone, Copy, Debug, PartialEq, Eq)]
pub struct OpenGate;

impl Gate for OpenGate {
    fn enter(&self, _piece: Piece) {}

    fn leave(&self, _piece: Piece) {}
}
