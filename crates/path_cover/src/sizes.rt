//! How many sources each node has.
ghost use Rattle.std.specs.Prelude.{◌≡◌, ℕ, ◌^◌, ◌<◌, ◌==◌, length, sum, count_by, All, IfOk};
ghost use Rattle.node_sums.specs.Sums.{AreParents, value_at};
ghost use Rattle.path_cover.specs.Kept.{sources_under};

use node_sums::add_up;
use std::alloc::{AllocError, Global};

/// How many sources stand in each node.
fn sources_in(alloc: Global, leaves: &[u32], nodes: usize) -> Result<Vec<u64>, AllocError>
    requires leaves { All (λ leaf. leaf < nodes) leaves.now }
    requires few { length leaves.now < 2 ^ 32 }
    ensures len { IfOk result (λ counts. length counts.items ≡ nodes) }
    ensures counts { IfOk result (λ counts. (k : ℕ) → k < nodes → value_at counts.items k ≡ count_by (λ leaf. leaf == k) leaves.now) }
    ensures all { IfOk result (λ counts. sum counts.items ≡ length leaves.now) }
{
    let mut counts = vec![in alloc; 0u64; nodes]?;
    for leaf in leaves {
        counts[*leaf as usize] += 1;
    }
    Ok(counts)
}

/// How many sources stand in each node and under it.
pub(crate) fn sizes_of(
    alloc: Global,
    parents: &[u32],
    leaves: &[u32],
) -> Result<Vec<u64>, AllocError>
    requires parents { AreParents parents.now }
    requires leaves { All (λ leaf. leaf < length parents.now) leaves.now }
    requires few { length leaves.now < 2 ^ 32 }
    ensures len { IfOk result (λ sizes. length sizes.items ≡ length parents.now) }
    ensures sizes { IfOk result (λ sizes. (n : ℕ) → n < length parents.now → value_at sizes.items n ≡ sources_under parents.now leaves.now n) }
{
    let mut sizes = sources_in(alloc, leaves, parents.len())?;
    add_up(parents, &mut sizes);
    Ok(sizes)
}
