//! Tests of the ports, of numbers, particles and certificates as text, and of samples.
#![tactic(auto)]

#[cfg(test)]
mod cert_lines;
#[cfg(test)]
mod certificates;
#[cfg(test)]
mod numbers;
#[cfg(test)]
mod particles;
#[cfg(test)]
mod ports;
#[cfg(test)]
mod samples;
#[cfg(test)]
mod versions;
