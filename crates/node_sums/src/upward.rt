//! Upward sums.
ghost use Rattle.std.specs.Prelude.{◌≡◌, ℕ, ◌<◌, ◌^◌, length, sum};
ghost use Rattle.node_sums.specs.Sums.{AreParents, sum_under, value_at};

/// Adds to the value of each node those of all nodes under it, from the last node to the first: one sum a node.
///
/// Conditions: there is a parent for each node, 0 for node 0 and a smaller number for another, and all values add up to less than 2^64.
pub fn add_up(parents: &[u32], values: &mut [u64])
    requires parents { AreParents parents.now }
    requires len { length parents.now ≡ length values.old }
    requires room { sum values.old < 2 ^ 64 }
    ensures len { length values.new ≡ length values.old }
    ensures sums { (n : ℕ) → n < length values.old → value_at values.new n ≡ sum_under parents.now values.old n }
{
    for n in (1..values.len()).rev() {
        values[parents[n] as usize] += values[n];
    }
}
