//! The table of the kernel's entries.
ghost use Rattle.std.specs.Prelude.{◌≡◌, ◌+◌, ◌*◌, ◌^◌, ◌≤◌, ◌<◌, length, vec_len, IfOk, OnOk};
ghost use Rattle.exact_math.specs.Ends.{BoxEndsNarrow};
ghost use Rattle.exact_math.specs.Orders.{IsOrder};
ghost use Rattle.exact_math.specs.Units.{unit};
ghost use Rattle.complex_box.specs.Box.{box_ends, number, BoxWithin, BoxContains};
ghost use Rattle.kernel_table.specs.Kernel.{IsKernelDistance, kernel_entry, kernel_fraction, IsKernelColumn};
ghost use Rattle.kernel_table.specs.Table.{AreWays, IsKernelTable};

use crate::binomials::binomial;
use crate::distances::{DISTANCES, distance, distance_index};
use crate::powers::{entry_of, first_powers};
use complex_box::{CBox, Gauss};
use io_ports::Memory;
use std::alloc::{AllocError, Global};

/// The kernel at all 40 distances, for the order `P`. It is made once for a solve.
///
/// The entries of one distance lie together, and in them the entries of one `l`, with `k` ascending.
#[derive(Drop)]
pub struct Kernel<const P: usize> {
    entries: Vec<CBox>,
    ghost order: { P ≤ 32 },
    ghost len: { vec_len entries ≡ 40 * (P * P) },
    ghost table: { IsKernelTable P entries.items },
}

impl<const P: usize> Kernel<P> {
    /// The table of this order, whose entries `entry` and `column` give. The only error is memory. Condition: `P` is one of the
    /// orders.
    pub fn new(alloc: Global) -> Result<Kernel<P>, Memory>
        requires { IsOrder P }
    {
        match all_entries::<P>(alloc) {
            Ok(entries) => Ok(Kernel { entries }),
            Err(_) => Err(Memory),
        }
    }

    /// The entry `(k, l)` at the distance `e`, in units of 2^-40. Conditions: the greater of `|e.re|` and `|e.im|` is 2
    /// or 3, and `k, l < P`.
    pub fn entry(&self, e: Gauss, k: usize, l: usize) -> CBox
        requires distance { IsKernelDistance (number e) }
        requires first { k < P }
        requires second { l < P }
        ensures ends { box_ends result ≡ kernel_entry (number e) k l }
        ensures contains { BoxContains unit result (kernel_fraction (number e) k l) }
        ensures narrow { BoxEndsNarrow 2 (box_ends result) }
        ensures size { BoxWithin (2 ^ 39 + 1) result }
    {
        self.entries[(distance_index(e) * P + l) * P + k]
    }

    /// The entries of one `l` at the distance `e`, with `k` from 0 to `P - 1`. Conditions as for `entry`.
    pub fn column(&self, e: Gauss, l: usize) -> &[CBox]
        requires distance { IsKernelDistance (number e) }
        requires index { l < P }
        ensures { IsKernelColumn P (number e) l result.now }
    {
        let start = (distance_index(e) * P + l) * P;
        &self.entries[start..start + P]
    }
}

/// `C(k + l, k)` at the index `l P + k`.
fn all_ways<const P: usize>(alloc: Global) -> Result<Vec<i128>, AllocError>
    requires { IsOrder P }
    ensures len { IfOk result (λ ways. vec_len ways ≡ P * P) }
    ensures ways { IfOk result (λ ways. AreWays P ways.items) }
{
    let mut ways = Vec::with_capacity(alloc, P * P)?;
    for i in 0..P * P {
        let k = (i % P) as u32;
        let l = (i / P) as u32;
        ways.push(binomial(k + l, k) as i128)?;
    }
    Ok(ways)
}

/// Appends the entries of one distance to those of the distances before it.
fn push_distance<const P: usize>(
    alloc: Global,
    entries: &mut Vec<CBox>,
    ways: &[i128],
    index: usize,
) -> Result<(), AllocError>
    requires order { IsOrder P }
    requires index { index < 40 }
    requires counts { length ways.now ≡ P * P }
    requires ways { AreWays P ways.now }
    requires before { vec_len entries.old ≡ index * (P * P) }
    requires table { IsKernelTable P entries.old.items }
    ensures len { OnOk result (vec_len entries.new ≡ (index + 1) * (P * P)) }
    ensures table { OnOk result (IsKernelTable P entries.new.items) }
{
    let powers = first_powers(alloc, distance(index), 2 * P - 1)?;
    for i in 0..P * P {
        let k = i % P;
        let l = i / P;
        entries.push(entry_of(powers[k + l], ways[i], k, l))?;
    }
    Ok(())
}

/// The entries at all distances.
fn all_entries<const P: usize>(alloc: Global) -> Result<Vec<CBox>, AllocError>
    requires { IsOrder P }
    ensures len { IfOk result (λ entries. vec_len entries ≡ 40 * (P * P)) }
    ensures table { IfOk result (λ entries. IsKernelTable P entries.items) }
{
    let ways = all_ways::<P>(alloc)?;
    let mut entries = Vec::with_capacity(alloc, DISTANCES * (P * P))?;
    for index in 0..DISTANCES {
        push_distance::<P>(alloc, &mut entries, &ways, index)?;
    }
    Ok(entries)
}
