//! The parents of the nodes, and the nodes of the sources.
ghost use Rattle.std.specs.Prelude.{◌≡◌, ◌<◌, ◌≤◌, IfOk};
ghost use Rattle.certificate_nodes.specs.Presented.{accounting_of, node_count};
ghost use Rattle.certificate_rules.specs.LineRules.{HeadHolds};
ghost use Rattle.certificate_tiling.specs.Walk.{parents_of, leaves_of};
ghost use Rattle.cert_text.specs.Certificate.{IsCertificate};
ghost use Rattle.limits.specs.Limits.{most_cells, widest_grid};

use certificate_nodes::Presented;
use std::alloc::{AllocError, Global};

/// How many nodes there are.
pub(crate) fn node_count(given: &Presented) -> u32
    ensures count { result ≡ node_count given.now }
    ensures few { node_count given.now ≤ most_cells widest_grid }
    ensures certificate { IsCertificate given.now.certificate }
    ensures head { HeadHolds given.now.points given.now.certificate }
{
    given.cert().cells() as u32
}

/// The parent of a node.
pub(crate) fn parent(given: &Presented, n: usize) -> usize
    requires { n < node_count given.now }
    ensures { result ≡ (accounting_of given.now).parent n }
{
    given.cert().node(n).0
}

/// The parents of all nodes.
pub(crate) fn parents(alloc: Global, given: &Presented) -> Result<Vec<u32>, AllocError>
    ensures { IfOk result (λ v. v.items ≡ parents_of (accounting_of given.now)) }
{
    let count = node_count(given) as usize;
    let mut parents = Vec::with_capacity(alloc, count)?;
    for n in 0..count {
        parents.push(parent(given, n) as u32)?;
    }
    Ok(parents)
}

/// The nodes of all sources.
pub(crate) fn leaves(alloc: Global, given: &Presented) -> Result<Vec<u32>, AllocError>
    ensures { IfOk result (λ v. v.items ≡ leaves_of (accounting_of given.now)) }
{
    let _count = node_count(given);
    let cert = given.cert();
    let points = given.points().list.points();
    let mut leaves = Vec::with_capacity(alloc, points.len())?;
    for (k, p) in points.iter().enumerate() {
        if p.kind.is_source() {
            leaves.push(cert.at(k) as u32)?;
        }
    }
    Ok(leaves)
}
