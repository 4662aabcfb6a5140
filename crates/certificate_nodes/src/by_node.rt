//! The children, the entries and the points of each node.
ghost use Rattle.std.specs.Prelude.{◌≡◌, ◌+◌, IfOk};
ghost use Rattle.certificate_nodes.specs.Keys.{child_keys, entry_keys, point_keys};
ghost use Rattle.certificate_rules.specs.LineRules.{HeadHolds};
ghost use Rattle.groups.specs.GroupsByKey.{groups_by};

use crate::keys::{cell_count, child_keys, entry_keys, point_keys};
use cert_text::Cert;
use groups::Groups;
use points::Points;
use std::alloc::{AllocError, Global};

/// The nodes by their parents. Node 0 stands in a group behind those of all nodes.
pub(crate) fn children(alloc: Global, cert: &Cert) -> Result<Groups, AllocError>
    ensures { IfOk result (λ groups. groups ≡ groups_by (child_keys cert.now) (cert.now.head.cells + 1)) }
{
    let count = cell_count(cert) as usize;
    let keys = child_keys(alloc, cert)?;
    Groups::of(alloc, &keys, count + 1)
}

/// The entries by their b.
pub(crate) fn entries(alloc: Global, cert: &Cert) -> Result<Groups, AllocError>
    ensures { IfOk result (λ groups. groups ≡ groups_by (entry_keys cert.now) cert.now.head.cells) }
{
    let count = cell_count(cert) as usize;
    let keys = entry_keys(alloc, cert)?;
    Groups::of(alloc, &keys, count)
}

/// The sources or the targets by their nodes. The other points stand in a group behind those of all nodes. Condition: line 1 counts the points.
pub(crate) fn points_by_node(
    alloc: Global,
    points: &Points,
    cert: &Cert,
    sources: bool,
) -> Result<Groups, AllocError>
    requires { HeadHolds points.now cert.now }
    ensures { IfOk result (λ groups. groups ≡ groups_by (point_keys cert.now sources points.now.list) (cert.now.head.cells + 1)) }
{
    let count = cell_count(cert) as usize;
    let keys = point_keys(alloc, points.list.points(), cert, sources)?;
    Groups::of(alloc, &keys, count + 1)
}
