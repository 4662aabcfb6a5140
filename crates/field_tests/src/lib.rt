//! Tests of the rows over a tree, of boards and of whole fields.
#![tactic(auto)]

#[cfg(test)]
mod bases;
#[cfg(test)]
mod boards;
#[cfg(test)]
mod compare;
#[cfg(test)]
mod fields;
#[cfg(test)]
mod gates;
#[cfg(test)]
mod rows;
#[cfg(test)]
mod runs;
#[cfg(test)]
mod wide;
