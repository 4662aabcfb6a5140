//! Tests of the numbers: intervals, boxes, the table of the kernel and the two tails.
#![tactic(auto)]

#[cfg(test)]
mod boxes;
#[cfg(test)]
mod compare;
#[cfg(test)]
mod intervals;
#[cfg(test)]
mod kernels;
#[cfg(test)]
mod tails;
