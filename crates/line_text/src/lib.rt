//! Lines of text that are made from their end to their front, with whole numbers and decimals.
#![tactic(auto)]

mod front;

pub use front::FrontText;
