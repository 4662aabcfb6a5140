//! How many points there are under each node, and how heavy they are.
ghost use Rattle.std.specs.Prelude.{◌≡◌, ◌<◌, ◌≤◌, ◌^◌, length, IfOk};
ghost use Rattle.certificate_nodes.specs.Gathered.{AreAtNodes, AreUnderNodes};
ghost use Rattle.certificate_nodes.specs.UnderNodes.{AddUp, AreLight, AreLightRows, own_counts, own_weights, points_weight, sums_under};
ghost use Rattle.certificate_rules.specs.LineRules.{HeadHolds};
ghost use Rattle.limits.specs.Limits.{most_weight, widest_grid};
ghost use Rattle.points.specs.Limits.{WithinLimits};

use crate::at_nodes::AtNodes;
use crate::keys::parents;
use crate::point_rows::PointRows;
use cert_text::Cert;
use node_sums::add_up;
use points::{Point, Points};
use std::alloc::{AllocError, Global};

/// How many sources there are in each node and under it, how heavy they are, and how many targets there are.
#[derive(Drop)]
pub(crate) struct UnderNodes {
    pub(crate) source_counts: Vec<u64>,
    pub(crate) weights: Vec<u64>,
    pub(crate) target_counts: Vec<u64>,
}

/// How many points each row has.
fn own_counts(alloc: Global, rows: &PointRows, count: usize) -> Result<Vec<u64>, AllocError>
    requires { count ≡ length rows.now }
    ensures { IfOk result (λ v. v.items ≡ own_counts rows.now) }
{
    let mut counts = Vec::with_capacity(alloc, count)?;
    for n in 0..count {
        counts.push(rows.row(n).len() as u64)?;
    }
    Ok(counts)
}

/// How heavy some points are.
fn points_weight(points: &[Point], order: u32) -> u64
    requires points { AreLight points.now }
    requires least { 1 ≤ order }
    requires most { order ≤ 32 }
    ensures { result ≡ points_weight order points.now }
{
    let mut total = 0;
    for p in points {
        total += p.weight(order);
    }
    total
}

/// How heavy each row is.
fn own_weights(
    alloc: Global,
    rows: &PointRows,
    count: usize,
    order: u32,
) -> Result<Vec<u64>, AllocError>
    requires count { count ≡ length rows.now }
    requires light { AreLightRows rows.now }
    requires least { 1 ≤ order }
    requires most { order ≤ 32 }
    ensures { IfOk result (λ v. v.items ≡ own_weights order rows.now) }
{
    let mut weights = Vec::with_capacity(alloc, count)?;
    for n in 0..count {
        weights.push(points_weight(rows.row(n), order))?;
    }
    Ok(weights)
}

/// How many points of the rows there are in each node and under it.
fn counts_under(alloc: Global, parents: &[u32], rows: &PointRows) -> Result<Vec<u64>, AllocError>
    requires len { length parents.now ≡ length rows.now }
    requires sums { AddUp parents.now (own_counts rows.now) }
    ensures { IfOk result (λ v. v.items ≡ sums_under parents.now (own_counts rows.now)) }
{
    let mut counts = own_counts(alloc, rows, parents.len())?;
    add_up(parents, &mut counts);
    Ok(counts)
}

/// How heavy the points of the rows are in each node and under it.
fn weights_under(
    alloc: Global,
    parents: &[u32],
    rows: &PointRows,
    order: u32,
) -> Result<Vec<u64>, AllocError>
    requires len { length parents.now ≡ length rows.now }
    requires light { AreLightRows rows.now }
    requires least { 1 ≤ order }
    requires most { order ≤ 32 }
    requires sums { AddUp parents.now (own_weights order rows.now) }
    ensures { IfOk result (λ v. v.items ≡ sums_under parents.now (own_weights order rows.now)) }
{
    let mut weights = own_weights(alloc, rows, parents.len(), order)?;
    add_up(parents, &mut weights);
    Ok(weights)
}

impl UnderNodes {
    /// The sums under each node, of what stands at each.
    pub(crate) fn of(
        alloc: Global,
        points: &Points,
        cert: &Cert,
        at: &AtNodes,
    ) -> Result<UnderNodes, AllocError>
        requires within { WithinLimits points.now }
        requires head { HeadHolds points.now cert.now }
        requires at { AreAtNodes points.now cert.now at.now }
        ensures { IfOk result (λ sums. AreUnderNodes points.now cert.now sums) }
    {
        let order = cert.order();
        let parents = parents(alloc, cert)?;
        let source_counts = counts_under(alloc, &parents, &at.sources)?;
        let weights = weights_under(alloc, &parents, &at.sources, order)?;
        let target_counts = counts_under(alloc, &parents, &at.targets)?;
        Ok(UnderNodes {
            source_counts,
            weights,
            target_counts,
        })
    }
}
