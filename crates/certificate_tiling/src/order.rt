//! The nodes in an order in which each node is followed by all nodes under it.
ghost use Rattle.std.specs.Prelude.{◌≡◌, ◌<◌, ◌^◌, length, IfOk, IsPermutation};
ghost use Rattle.std.specs.List.{range_with_len};
ghost use Rattle.node_sums.specs.Sums.{AreParents};
ghost use Rattle.certificate_tiling.specs.Order.{nodes_of};

use node_sums::add_up;
use std::alloc::{AllocError, Global};

/// A node with its place in the order.
#[derive(Clone, Copy, PartialEq, Eq, PartialOrd, Ord)]
pub(crate) struct Visit {
    pub(crate) place: u64,
    pub(crate) node: u32,
}

/// How many nodes there are in each node and under it.
fn sizes(alloc: Global, parents: &[u32]) -> Result<Vec<u64>, AllocError>
    requires parents { AreParents parents.now }
    requires few { length parents.now < 2 ^ 32 }
    ensures { IfOk result (λ v. length v.items ≡ length parents.now) }
{
    let mut sizes = vec![in alloc; 1u64; parents.len()]?;
    add_up(parents, &mut sizes);
    Ok(sizes)
}

/// A place for each node, behind its parent: the nodes under a node have those that follow its own.
fn places(alloc: Global, parents: &[u32]) -> Result<Vec<Visit>, AllocError>
    requires parents { AreParents parents.now }
    requires few { length parents.now < 2 ^ 32 }
    ensures { IfOk result (λ v. nodes_of v.items ≡ range_with_len 0 (length parents.now)) }
{
    let sizes = sizes(alloc, parents)?;
    let mut next = vec![in alloc; 0u64; parents.len()]?;
    let mut visits = Vec::with_capacity(alloc, parents.len())?;
    for n in 0..parents.len() {
        let parent = parents[n] as usize;
        let place = next[parent];
        next[parent] = place.wrapping_add(sizes[n]);
        next[n] = place.wrapping_add(1);
        visits.push(Visit {
            place,
            node: n as u32,
        })?;
    }
    Ok(visits)
}

/// All nodes by their places. That each node is visited is proved; the order serves speed alone.
pub(crate) fn visits(alloc: Global, parents: &[u32]) -> Result<Vec<Visit>, AllocError>
    requires parents { AreParents parents.now }
    requires few { length parents.now < 2 ^ 32 }
    ensures { IfOk result (λ v. IsPermutation (range_with_len 0 (length parents.now)) (nodes_of v.items)) }
{
    let mut visits = places(alloc, parents)?;
    visits.sort_unstable();
    Ok(visits)
}
