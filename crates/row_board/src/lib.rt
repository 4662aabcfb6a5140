//! A board with one place for each row of a field, which is filled one row at a time.
//!
//! A row can be filled once the rows that it needs are. Every order that keeps to this gives the same board.
#![tactic(auto)]

mod board;
mod filling;
mod law;
mod making;
mod name;
mod search;

pub use board::Board;
pub use law::{full_board, needs_are_places};
pub use name::{Name, NotReady};
