//! The report of a field: its lines stand in `report_lines`, and are offered here too.
#![tactic(auto)]

mod report;

pub use report::write_report;
pub use report_lines::{Decimal, FrontText, to_count, write_end, write_head, write_target};
