//! Tests of the report's lines and the certificate, and of the program through its top call.
#![tactic(auto)]

#[cfg(test)]
mod certificates;
#[cfg(test)]
mod checks;
#[cfg(test)]
mod gates;
#[cfg(test)]
mod lines;
#[cfg(test)]
mod ports;
#[cfg(test)]
mod readback;
#[cfg(test)]
mod reports;
#[cfg(test)]
mod runs;
#[cfg(test)]
mod samples;
#[cfg(test)]
mod texts;
#[cfg(test)]
mod trees;
#[cfg(test)]
mod versions;
#[cfg(test)]
mod wide;
#[cfg(test)]
mod widths;
