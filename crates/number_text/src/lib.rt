//! Whole numbers as text, and texts cut into parts.
#![tactic(auto)]

mod law;
mod list;
mod number;
mod part;
mod wide;

pub use law::one_spelling;
pub use list::{next_int, read_four, read_three, read_two};
pub use number::{read_int, read_uint};
pub use part::cut_at;
pub use wide::read_numbers;
