//! Why a list has no tree.

ghost use Rattle.std.specs.Prelude.{◌≡◌};

use cell_name::Cell;
use std::alloc::AllocError;
use thiserror::Error;

/// Why a list has no tree.
#[derive(Clone, Copy, PartialEq, Eq, Debug, Error)]
pub enum TreeFault {
    /// More than 4,096 points stand at one place: the first such place by column and row, and how many.
    #[error("{count} points at one place")]
    Crowded { cell: Cell, count: u64 },
    /// No place is crowded, and the tree has more cells than its grid allows.
    #[error("too many cells")]
    Cells,
    #[error("out of memory")]
    Memory,
}

impl From<AllocError> for TreeFault {
    ghost use Rattle.quadtree.specs.declared.fault.TreeFault.TheVariants.{Memory};

    ghost from_gives = { λ _ e. e ≡ Memory };

    fn from(_e: AllocError) -> TreeFault {
        TreeFault::Memory
    }
}
