//! The law of sums by leaves. Nothing here runs.
ghost use Rattle.node_sums.specs.ByLeaves.{SumsByLeaves};

/// Where the value of each node is the sum of the weights of the items in it, and each item's leaf is one of the nodes, the sum under a node is that of
/// the weights of the items whose leaf is under it.
pub fn sums_by_leaves<X>()
    ensures { SumsByLeaves X }
{}
