//! The soundness of the method, apart from any tree or lists: whatever somebody presents as nodes, sources, entries, rows, radii and boxes,
//! where the rules hold between them each target's box contains the exact direct sum. Nothing here runs: the law is the contract of a
//! function with an empty body.
//!
//! The rules are inclusions. Each given multipole row, each local row and radius of a node with a target under it, and each box includes what
//! the method computes from the other given ones. The cells, targets or sources of each V, W and X entry are far enough apart, and each source
//! is accounted for by exactly one entry in each target's leaf. How a tree was made, how many points its leaves may have, and which cells
//! touch, no rule says.
#![tactic(auto)]

ghost use Rattle.soundness.specs.Soundness.{RulesImplyContainment, RulesImplyCounts};

/// Where the rules hold, the box of each target contains the direct sum of all sources at its place, at every order from 2 on, and so do
/// counts of 10^-12 that enclose the box.
///
/// Multipole rows contain the moments of the sources under their nodes, from the leaves up. Local rows contain the fields of the cut terms of
/// the V and X entries on the path from the root, and the radii bound what those terms lose. At a leaf come the W entries, whose
/// rows are evaluated, and the U entries, whose pairs are summed; together the entries have each source once.
pub fn rules_imply_containment()
    ensures sound { RulesImplyContainment }
    ensures counts { RulesImplyCounts }
{}
