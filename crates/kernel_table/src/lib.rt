//! The kernel that turns a multipole row into a local row, as a table of boxes.
//!
//! For two cells of one side whose centres are `e` sides apart, the kernel is `K_(k,l) = (-1)^l C(k + l, k)/e^(k + l + 1)`:
//! the multipole to local formula of the method's papers of 1987 and 1988, in sides. Boxes count units of 2^-40.
//!
//! The powers `2^(60 + n)/e^(n + 1)` come from one another by one rounded step each, and an entry from its power by one
//! product and one shift. So an entry is at most 2 wide, and contains the exact kernel.
#![tactic(auto)]

ghost use Rattle.kernel_table.specs.Kernel.{KernelEntries};

mod binomials;
mod distances;
mod powers;
mod table;

pub use binomials::binomial;
pub use table::Kernel;

/// Each entry of the rounded kernel, at each of the 40 distances and for `k + l <= 62`, contains the exact one, is at most 2 wide
/// and at most 2^39 + 1 in size, in units of 2^-40. Nothing here runs.
pub fn kernel_entries()
    ensures { KernelEntries }
{}
