//! The lines of reports: the printed counts of boxes, their decimals, the line of a target, and the first and last lines.
#![tactic(auto)]

mod counts;
mod decimal;
mod ends;
mod line;

pub use counts::to_count;
pub use decimal::Decimal;
pub use ends::{write_end, write_head};
pub use line::write_target;
pub use line_text::FrontText;
