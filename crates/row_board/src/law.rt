//! The laws of a board. Nothing here runs: each law is the contract of a function with an empty body.
ghost use Rattle.row_board.specs.Laws.{FullBoard, FullWork, NeedsAreNames, NeedsComeBefore};

/// Where every place of a board is filled, all rows and radii and the boxes of the targets are those of the field, in whatever order the places
/// were filled. What the places take together, each once, are the translations and the pairs of the field.
pub fn full_board()
    ensures field { FullBoard }
    ensures work { FullWork }
{}

/// What a place needs is a place of the board, and it comes before that place in one order of all places: multipole rows from the last cell to
/// the first, then local rows from the first cell to the last, then boxes. In this order each place is ready to be filled.
pub fn needs_are_places()
    ensures named { NeedsAreNames }
    ensures before { NeedsComeBefore }
{}
