//! What is presented.
ghost use Rattle.std.specs.Prelude.{◌≡◌, ◌<◌, ◌≤◌, length, map, All, IfOk};
ghost use Rattle.cert_text.specs.Certificate.{IsCertificate};
ghost use Rattle.certificate_nodes.specs.AtNodes.{sources_at, places_at, entry_numbers_at};
ghost use Rattle.certificate_nodes.specs.Presented.{IsTargetAt, accounting_of, node_count};
ghost use Rattle.certificate_rules.specs.LineRules.{HeadHolds};
ghost use Rattle.limits.specs.Limits.{grid_of, most_points, most_weight};
ghost use Rattle.points.specs.Limits.{InRange, WithinLimits};
ghost use Rattle.points.specs.Points.{place};
ghost use Rattle.soundness.specs.Accounts.{children, has_target_under, is_leaf, sources_under};
ghost use Rattle.soundness.specs.Computed.{weight_under};

use crate::at_nodes::AtNodes;
use crate::keys::cell_count;
use crate::under_nodes::UnderNodes;
use cert_text::Cert;
use io_ports::Memory;
use points::{Point, Points};
use std::alloc::{AllocError, Global};
use std::marker::Model;

/// A certificate over a list of points, and what stands at each of its nodes and under it, gathered once.
///
/// Nothing is asked of the certificate but that line 1 counts these points and their targets.
#[derive(Drop)]
pub struct Presented<'a> {
    points: &'a Points,
    cert: &'a Cert,
    at_nodes: AtNodes,
    under_nodes: UnderNodes,
}

impl<'a> Model for Presented<'a> {
    ghost use Rattle.certificate_nodes.specs.Presented.{PresentedModel};

    ghost Value = { PresentedModel };

    ghost use Rattle.certificate_nodes.specs.Inside.{presented_seen, IsGathered};

    ghost view = { presented_seen };

    ghost invariant = { IsGathered };
}

impl<'a> Presented<'a> {
    /// What stands at each node and under it.
    fn gathered(
        alloc: Global,
        points: &'a Points,
        cert: &'a Cert,
    ) -> Result<Presented<'a>, AllocError>
        requires within { WithinLimits points.now }
        requires head { HeadHolds points.now cert.now }
        ensures points { IfOk result (λ given. given.points ≡ points.now) }
        ensures certificate { IfOk result (λ given. given.certificate ≡ cert.now) }
    {
        let _count = cell_count(cert);
        let at_nodes = AtNodes::of(alloc, points, cert)?;
        let under_nodes = UnderNodes::of(alloc, points, cert, &at_nodes)?;
        Ok(Presented {
            points,
            cert,
            at_nodes,
            under_nodes,
        })
    }

    /// Gathers what stands at each node. Conditions: the list is within the limits, and the rule of line 1 holds.
    ///
    /// # Errors
    ///
    /// `Memory` if an allocation fails.
    pub fn of(alloc: Global, points: &'a Points, cert: &'a Cert) -> Result<Presented<'a>, Memory>
        requires within { WithinLimits points.now }
        requires head { HeadHolds points.now cert.now }
        ensures points { IfOk result (λ given. given.points ≡ points.now) }
        ensures certificate { IfOk result (λ given. given.certificate ≡ cert.now) }
    {
        match Presented::gathered(alloc, points, cert) {
            Ok(given) => Ok(given),
            Err(_) => Err(Memory),
        }
    }

    /// The list of points, which is within the limits.
    pub fn points(&self) -> &Points
        ensures points { result.now ≡ self.now.points }
        ensures within { WithinLimits result.now }
    {
        self.points
    }

    /// The certificate, whose line 1 counts the points and the targets.
    pub fn cert(&self) -> &Cert
        ensures certificate { result.now ≡ self.now.certificate }
        ensures head { HeadHolds self.now.points self.now.certificate }
        ensures lines { IsCertificate self.now.certificate }
    {
        self.cert
    }

    /// The nodes that name it as their parent. Condition for this and all below: the node is one of the cells.
    pub fn children(&self, n: usize) -> &[u32]
        requires { n < node_count self.now }
        ensures { result.now ≡ children (accounting_of self.now) n }
    {
        self.at_nodes.children.group(n)
    }

    /// Whether no node names it as its parent.
    pub fn is_leaf(&self, n: usize) -> bool
        requires { n < node_count self.now }
        ensures { result ≡ is_leaf (accounting_of self.now) n }
    {
        self.children(n).is_empty()
    }

    /// The sources in the node.
    pub fn sources(&self, n: usize) -> &[Point]
        requires { n < node_count self.now }
        ensures sources { result.now ≡ sources_at (accounting_of self.now) n }
        ensures range { All (InRange (grid_of self.now.points.version)) result.now }
    {
        self.at_nodes.sources.row(n)
    }

    /// The targets in the node.
    pub fn targets(&self, n: usize) -> &[Point]
        requires { n < node_count self.now }
        ensures places { map place result.now ≡ places_at (accounting_of self.now) n }
        ensures range { All (InRange (grid_of self.now.points.version)) result.now }
    {
        self.at_nodes.targets.row(n)
    }

    /// The numbers of the entries whose B is the node.
    pub fn entries(&self, n: usize) -> &[u32]
        requires { n < node_count self.now }
        ensures numbers { result.now ≡ entry_numbers_at self.now.certificate n }
        ensures range { All (λ e. e < self.now.certificate.head.entries) result.now }
    {
        self.at_nodes.entries.group(n)
    }

    /// The position of the k-th target in the list. Condition: it is one of the targets.
    pub fn position(&self, k: usize) -> usize
        requires { k < self.now.certificate.head.targets }
        ensures { IsTargetAt self.now k result }
    {
        self.at_nodes.positions[k] as usize
    }

    /// How many sources there are in the node and under it.
    pub fn source_count(&self, n: usize) -> u64
        requires { n < node_count self.now }
        ensures count { result ≡ length (sources_under (accounting_of self.now) n) }
        ensures few { result ≤ most_points (grid_of self.now.points.version) }
    {
        self.under_nodes.source_counts[n]
    }

    /// How heavy they are, at the certificate's order.
    pub fn weight(&self, n: usize) -> u64
        requires { n < node_count self.now }
        ensures weight { result ≡ weight_under self.now.certificate.head.order (accounting_of self.now) n }
        ensures light { result ≤ most_weight (grid_of self.now.points.version) }
    {
        self.under_nodes.weights[n]
    }

    /// Whether a target is in the node or under it.
    pub fn has_target(&self, n: usize) -> bool
        requires { n < node_count self.now }
        ensures { result ≡ has_target_under (accounting_of self.now) n }
    {
        self.under_nodes.target_counts[n] > 0
    }
}
