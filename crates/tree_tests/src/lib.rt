//! Tests of cells, trees and their lists.
#![tactic(auto)]

#[cfg(test)]
mod cells;
#[cfg(test)]
mod entries;
#[cfg(test)]
mod known;
#[cfg(test)]
mod trees;
#[cfg(test)]
mod wide;
