//! Tests of the calls on one row: pairs, moments, shifts, far cells and far sources, values and radii.
#![tactic(auto)]

#[cfg(test)]
mod compare;
#[cfg(test)]
mod known;
#[cfg(test)]
mod locals;
#[cfg(test)]
mod moments;
#[cfg(test)]
mod order_32;
#[cfg(test)]
mod pairs;
#[cfg(test)]
mod radii;
#[cfg(test)]
mod shifts_down;
#[cfg(test)]
mod shifts_up;
