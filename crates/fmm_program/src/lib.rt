//! The program: its words, and the top call that does all that it does.
#![tactic(auto)]

mod checks;
mod commands;
mod inputs;
mod orders;
mod refusals;
mod samples;
mod solve;
mod status;
mod top;
mod words;
mod workshop;

pub use commands::{Opening, plan};
pub use point_sample::sample_points;
pub use status::Status;
pub use top::run;
pub use words::Words;
