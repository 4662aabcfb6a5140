//! Walks from a node up to node 0.
ghost use Rattle.std.specs.Prelude.{◌≡◌, ℕ, ◌+◌, ◌*◌, ◌^◌, ◌<◌, ◌≤◌, cond, length, sum};
ghost use Rattle.node_sums.specs.Sums.{AreParents, value_at};
ghost use Rattle.path_cover.specs.Covers.{times_above};
ghost use Rattle.path_cover.specs.Kept.{strictly_under};

/// How often a node and its ancestors cover.
pub(crate) fn covers_above(parents: &[u32], covers: &[u32], c: usize) -> u64
    requires parents { AreParents parents.now }
    requires len { length covers.now ≡ length parents.now }
    requires node { c < length parents.now }
    requires room { sum covers.now ≤ 2 ^ 31 }
    ensures value { result ≡ times_above parents.now (value_at covers.now) (length covers.now) c }
    ensures within { result ≤ 2 ^ 31 }
{
    let mut n = c;
    let mut times = u64::from(covers[0]);
    while n > 0 {
        times += u64::from(covers[n]);
        n = parents[n] as usize;
    }
    times
}

/// Adds a number at each ancestor of a node.
pub(crate) fn raise_ancestors(parents: &[u32], below: &mut [u64], c: usize, by: u64)
    requires parents { AreParents parents.now }
    requires len { length below.old ≡ length parents.now }
    requires node { c < length parents.now }
    requires room { (n : ℕ) → n < length below.old → value_at below.old n + by < 2 ^ 64 }
    ensures { (n : ℕ) → n < length below.old → value_at below.new n ≡ value_at below.old n + cond (strictly_under parents.now c n) by 0 }
{
    let mut n = c;
    while n > 0 {
        n = parents[n] as usize;
        below[n] += by;
    }
}

/// Subtracts a number at each ancestor of a node.
pub(crate) fn lower_ancestors(parents: &[u32], below: &mut [u64], c: usize, by: u64)
    requires parents { AreParents parents.now }
    requires len { length below.old ≡ length parents.now }
    requires node { c < length parents.now }
    requires enough { (n : ℕ) → n < length below.old → cond (strictly_under parents.now c n) by 0 ≤ value_at below.old n }
    ensures { (n : ℕ) → n < length below.old → value_at below.old n ≡ value_at below.new n + cond (strictly_under parents.now c n) by 0 }
{
    let mut n = c;
    while n > 0 {
        n = parents[n] as usize;
        below[n] -= by;
    }
}
