//! The cover.
ghost use Rattle.std.specs.Prelude.{◌≡◌, ◌+◌, ◌*◌, ◌<◌, ◌≤◌, ◌↔◌, ◌^◌, IsTrue, length, sum, All, IfOk, ℕ};
ghost use Rattle.node_sums.specs.Sums.{AreParents, value_at};
ghost use Rattle.path_cover.specs.Covers.{IsCoveredOnce, covered_more, no_covers, times_above};
ghost use Rattle.path_cover.specs.Kept.{sources_under};

use crate::sizes::sizes_of;
use crate::walks::{covers_above, lower_ancestors, raise_ancestors};
use std::alloc::{AllocError, Global};
use std::marker::Model;

/// Which nodes cover, and how often.
///
/// Two sums tell whether each source is covered exactly once: with `t` the times that a source is covered, the sum of `t` over all sources and that of
/// `t^2` are both the number of sources exactly where each `t` is 1, since the sum of `(t - 1)^2` is 0 then.
#[derive(Drop)]
pub struct Cover {
    parents: Vec<u32>,
    leaves: Vec<u32>,
    covers: Vec<u32>,
    sizes: Vec<u64>,
    below: Vec<u64>,
    total: u128,
    squares: u128,
}

impl Model for Cover {
    ghost use Rattle.path_cover.specs.Covers.{CoverModel};
    ghost use Rattle.path_cover.specs.Kept.{IsKept};

    ghost Value = { CoverModel };

    ghost view = { λ a. record { parents = a.parents.items; leaves = a.leaves.items; covers = a.covers.items } };

    ghost invariant = { λ a. IsKept (record { parents = a.parents.items; leaves = a.leaves.items; covers = a.covers.items }) a.sizes.items a.below.items a.total a.squares };
}

/// How often all sources under a node are covered together, by the nodes above it and by those under it.
fn meeting(parents: &[u32], covers: &[u32], c: usize, size: u64, below: u64) -> u128
    requires parents { AreParents parents.now }
    requires len { length covers.now ≡ length parents.now }
    requires node { c < length parents.now }
    requires room { sum covers.now ≤ 2 ^ 31 }
    ensures value { result ≡ size * times_above parents.now (value_at covers.now) (length covers.now) c + below }
    ensures within { result < 2 ^ 96 }
{
    u128::from(size) * u128::from(covers_above(parents, covers, c)) + u128::from(below)
}

impl Cover {
    /// No node covers, where the number of sources under each node is known.
    fn with_sizes(
        alloc: Global,
        parents: &[u32],
        leaves: &[u32],
        sizes: Vec<u64>,
    ) -> Result<Cover, AllocError>
        requires parents { AreParents parents.now }
        requires few { length leaves.now < 2 ^ 32 }
        requires len { length sizes.items ≡ length parents.now }
        requires sizes { (n : ℕ) → n < length parents.now → value_at sizes.items n ≡ sources_under parents.now leaves.now n }
        ensures { IfOk result (λ cover. cover ≡ no_covers parents.now leaves.now) }
    {
        let own_parents = Vec::from_slice(alloc, parents)?;
        let own_leaves = Vec::from_slice(alloc, leaves)?;
        let covers = vec![in alloc; 0u32; parents.len()]?;
        let below = vec![in alloc; 0u64; parents.len()]?;
        Ok(Cover {
            parents: own_parents,
            leaves: own_leaves,
            covers,
            sizes,
            below,
            total: 0,
            squares: 0,
        })
    }

    /// No node covers. Conditions: parents as for `add_up`, each source stands in one of the nodes, and there are less than 2^32 sources.
    pub fn none(alloc: Global, parents: &[u32], leaves: &[u32]) -> Result<Cover, AllocError>
        requires parents { AreParents parents.now }
        requires leaves { All (λ leaf. leaf < length parents.now) leaves.now }
        requires few { length leaves.now < 2 ^ 32 }
        ensures { IfOk result (λ cover. cover ≡ no_covers parents.now leaves.now) }
    {
        let sizes = sizes_of(alloc, parents, leaves)?;
        Cover::with_sizes(alloc, parents, leaves, sizes)
    }

    /// A node covers once more, in as many steps as it has ancestors. Condition: all nodes together cover less than 2^31 times before.
    pub fn add(&mut self, c: usize)
        requires node { c < length self.old.parents }
        requires room { sum self.old.covers < 2 ^ 31 }
        ensures { self.new ≡ covered_more self.old c }
    {
        let size = self.sizes[c];
        let meet = meeting(&self.parents, &self.covers, c, size, self.below[c]);
        raise_ancestors(&self.parents, &mut self.below, c, size);
        self.covers[c] += 1;
        self.total += u128::from(size);
        self.squares += 2 * meet + u128::from(size);
    }

    /// A node covers once less, in as many steps as it has ancestors. Condition: it covers.
    pub fn take(&mut self, c: usize)
        requires { 0 < value_at self.old.covers c }
        ensures { self.old ≡ covered_more self.new c }
    {
        self.covers[c] -= 1;
        let size = self.sizes[c];
        let meet = meeting(&self.parents, &self.covers, c, size, self.below[c]);
        lower_ancestors(&self.parents, &mut self.below, c, size);
        self.total -= u128::from(size);
        self.squares -= 2 * meet + u128::from(size);
    }

    /// Whether each source is covered exactly once.
    pub fn is_once(&self) -> bool
        ensures { IsTrue result ↔ IsCoveredOnce self.now }
    {
        let sources = self.leaves.len() as u128;
        self.total == sources && self.squares == sources
    }
}
