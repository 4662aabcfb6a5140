//! The law of a full board and a solve. Nothing here runs: it is the contract of a function with an empty body.
ghost use Rattle.solve_phase.specs.Laws.{FullBoardIsSolved};

/// Where every place of a board is filled, in whatever order, it holds what a solve of the same points gives with the same capacity, order and
/// grid: cell by cell the same multipole rows, local rows and radii, and the same boxes of the targets.
pub fn full_board_is_solved()
    ensures { FullBoardIsSolved }
{}
