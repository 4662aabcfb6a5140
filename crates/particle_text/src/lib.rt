//! Particles, lists of them, and their text.
#![tactic(auto)]

mod admission;
mod law;
mod line;
mod printer;
mod reader;

pub use admission::admit;
pub use law::{one_reading, one_text};
pub use limits::in_grid;
pub use line::parse_point;
pub use points::{Kind, Mode, Point, PointList, Points};
pub use printer::print;
pub use reader::{first_fault, parse};
use thiserror::Error;

/// What is wrong with a line of a text. Of several, the first in this order counts.
#[derive(Clone, Copy, PartialEq, Eq, Debug)]
pub enum TextKind {
    /// It is of no form of the version, or its line feed is missing.
    Syntax,
    /// A coordinate or a strength component is outside the limit of the version.
    Range,
    /// A charge in a velocity text, or a vortex in a field text.
    Mixed,
    /// As many points as a list may have stand before it.
    Many,
    /// With it the total weight is above its limit.
    Strength,
}

/// Why a text gives no list.
#[derive(Clone, Copy, PartialEq, Eq, Debug, Error)]
pub enum ParseFault {
    /// The first line at fault, counted from 1, and what is wrong with it.
    #[error("line {line} is at fault")]
    Text { line: u64, what: TextKind },
    #[error("out of memory")]
    Memory,
}
