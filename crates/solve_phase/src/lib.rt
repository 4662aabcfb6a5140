//! Solving, at once or row by row: `solve` gives the field of a list of points as a `Field`, by workers who tell a `Gate` of each `Piece`,
//! `solve_alone` the same on the calling thread, and a `Board` holds the same rows, filled one at a time in any order that keeps to what each
//! row needs.
#![tactic(auto)]

mod law;

pub use field_solve::{Field, Gate, OpenGate, Piece, SolveFault, solve, solve_alone};
pub use law::full_board_is_solved;
pub use row_board::{Board, Name, NotReady};
