//! What stands at each node.
ghost use Rattle.std.specs.Prelude.{◌≡◌, true, false, IfOk};
ghost use Rattle.certificate_nodes.specs.Gathered.{AreAtNodes, point_rows, other_points};
ghost use Rattle.certificate_rules.specs.LineRules.{HeadHolds};

use crate::by_node::{children, entries, points_by_node};
use crate::keys::cell_count;
use crate::point_rows::PointRows;
use cert_text::Cert;
use groups::Groups;
use points::Points;
use std::alloc::{AllocError, Global};

/// The children, the entries and the points of each node, and the positions of the targets in the list.
#[derive(Drop)]
pub(crate) struct AtNodes {
    pub(crate) children: Groups,
    pub(crate) entries: Groups,
    pub(crate) sources: PointRows,
    pub(crate) targets: PointRows,
    pub(crate) positions: Vec<u32>,
}

/// The targets by their nodes.
fn target_rows(alloc: Global, points: &Points, cert: &Cert) -> Result<PointRows, AllocError>
    requires { HeadHolds points.now cert.now }
    ensures { IfOk result (λ rows. rows ≡ point_rows points.now.list cert.now false) }
{
    let groups = points_by_node(alloc, points, cert, false)?;
    PointRows::of(
        alloc,
        points.list.points(),
        &groups,
        cell_count(cert) as usize,
    )
}

/// The sources by their nodes, and the positions of the other points.
fn source_rows(
    alloc: Global,
    points: &Points,
    cert: &Cert,
) -> Result<(PointRows, Vec<u32>), AllocError>
    requires { HeadHolds points.now cert.now }
    ensures rows { IfOk result (λ found. found.0 ≡ point_rows points.now.list cert.now true) }
    ensures positions { IfOk result (λ found. found.1.items ≡ other_points points.now.list cert.now true) }
{
    let count = cell_count(cert) as usize;
    let groups = points_by_node(alloc, points, cert, true)?;
    let rows = PointRows::of(alloc, points.list.points(), &groups, count)?;
    let positions = Vec::from_slice(alloc, groups.group(count))?;
    Ok((rows, positions))
}

impl AtNodes {
    /// What stands at each node. Condition: line 1 counts the points and the targets.
    pub(crate) fn of(alloc: Global, points: &Points, cert: &Cert) -> Result<AtNodes, AllocError>
        requires { HeadHolds points.now cert.now }
        ensures { IfOk result (λ at. AreAtNodes points.now cert.now at) }
    {
        let children = children(alloc, cert)?;
        let entries = entries(alloc, cert)?;
        let (sources, positions) = source_rows(alloc, points, cert)?;
        let targets = target_rows(alloc, points, cert)?;
        Ok(AtNodes {
            children,
            entries,
            sources,
            targets,
            positions,
        })
    }
}
