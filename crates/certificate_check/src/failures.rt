//! The first line of a section at which a rule fails.
ghost use Rattle.std.specs.Prelude.{◌≡◌, ℕ, ◌<◌, ◌^◌, ◌↔◌, IfSome, IfNone, length, true, false, slice_index_or};
ghost use Rattle.certificate_check.specs.Failures.{FailsFirst, HasTilings, LocalLineFails, LocalLineHolds, LocalsHold, MultipoleLineHolds};
ghost use Rattle.certificate_nodes.specs.Presented.{EntriesHold, MultipolesHold, NodesHold, PointsHold, node_count};
ghost use Rattle.certificate_rules.specs.LineRules.{EntryHolds, NodeHolds, PointHolds, TargetHolds};

use crate::counts::line_counts;
use certificate_lines::{entry_holds, node_holds, point_holds};
use certificate_nodes::Presented;
use certificate_rows::{local_holds, multipole_holds};
use certificate_targets::target_holds;
use kernel_table::Kernel;

/// The first node whose line fails.
pub(crate) fn failing_node(given: &Presented) -> Option<usize>
    ensures some { IfSome result (FailsFirst (NodeHolds given.now.points given.now.certificate) given.now.certificate.head.cells) }
    ensures few { IfSome result (λ n. n < 2 ^ 32) }
    ensures none { IfNone result (NodesHold given.now) }
{
    for n in 0..line_counts(given.cert()).cells as usize {
        if !node_holds(given, n) {
            return Some(n);
        }
    }
    None
}

/// The first point whose line fails.
pub(crate) fn failing_point(given: &Presented) -> Option<usize>
    ensures some { IfSome result (FailsFirst (PointHolds given.now.points given.now.certificate) given.now.certificate.head.points) }
    ensures few { IfSome result (λ k. k < 2 ^ 32) }
    ensures none { IfNone result (PointsHold given.now) }
{
    for k in 0..line_counts(given.cert()).points as usize {
        if !point_holds(given, k) {
            return Some(k);
        }
    }
    None
}

/// The first node whose multipole row fails.
pub(crate) fn failing_multipole<const P: usize>(given: &Presented) -> Option<usize>
    requires order { P ≡ given.now.certificate.head.order }
    requires nodes { NodesHold given.now }
    requires points { PointsHold given.now }
    ensures some { IfSome result (FailsFirst (MultipoleLineHolds given.now) given.now.certificate.head.cells) }
    ensures few { IfSome result (λ n. n < 2 ^ 32) }
    ensures none { IfNone result (MultipolesHold given.now) }
{
    for n in 0..line_counts(given.cert()).cells as usize {
        if !multipole_holds::<P>(given, n) {
            return Some(n);
        }
    }
    None
}

/// The first entry whose line fails.
pub(crate) fn failing_entry(given: &Presented) -> Option<usize>
    ensures some { IfSome result (FailsFirst (EntryHolds given.now.points given.now.certificate) given.now.certificate.head.entries) }
    ensures few { IfSome result (λ e. e < 2 ^ 32) }
    ensures none { IfNone result (EntriesHold given.now) }
{
    for e in 0..line_counts(given.cert()).entries as usize {
        if !entry_holds(given, e) {
            return Some(e);
        }
    }
    None
}

/// The least rule that fails at the line of a node's local row.
fn failing_local_rule<const P: usize>(
    given: &Presented,
    kernel: &Kernel<P>,
    tiled: &[bool],
    n: usize,
) -> Option<u8>
    requires node { n < node_count given.now }
    requires order { P ≡ given.now.certificate.head.order }
    requires nodes { NodesHold given.now }
    requires points { PointsHold given.now }
    requires entries { EntriesHold given.now }
    requires tiled { HasTilings given.now tiled.now }
    ensures some { IfSome result (LocalLineFails given.now n) }
    ensures none { IfNone result (LocalLineHolds given.now n) }
{
    if !local_holds(given, kernel, n) {
        return Some(4);
    }
    if given.is_leaf(n) && given.has_target(n) && !tiled[n] {
        return Some(6);
    }
    None
}

/// A rule that fails, and the number of its line in the section.
#[derive(Clone, Copy)]
pub(crate) struct Failure {
    pub(crate) rule: u8,
    pub(crate) number: usize,
}

/// The first node at the line of whose local row a rule fails, and the least that does.
pub(crate) fn failing_local<const P: usize>(
    given: &Presented,
    kernel: &Kernel<P>,
    tiled: &[bool],
) -> Option<Failure>
    requires order { P ≡ given.now.certificate.head.order }
    requires nodes { NodesHold given.now }
    requires points { PointsHold given.now }
    requires entries { EntriesHold given.now }
    requires tiled { HasTilings given.now tiled.now }
    ensures first { IfSome result (λ f. FailsFirst (LocalLineHolds given.now) given.now.certificate.head.cells f.number) }
    ensures rule { IfSome result (λ f. LocalLineFails given.now f.number f.rule) }
    ensures few { IfSome result (λ f. f.number < 2 ^ 32) }
    ensures none { IfNone result (LocalsHold given.now) }
{
    for number in 0..line_counts(given.cert()).cells as usize {
        match failing_local_rule(given, kernel, tiled, number) {
            Some(rule) => return Some(Failure { rule, number }),
            None => {}
        }
    }
    None
}

/// The first target whose line fails.
pub(crate) fn failing_target<const P: usize>(given: &Presented) -> Option<usize>
    requires order { P ≡ given.now.certificate.head.order }
    requires nodes { NodesHold given.now }
    requires points { PointsHold given.now }
    requires entries { EntriesHold given.now }
    ensures some { IfSome result (FailsFirst (TargetHolds given.now.points given.now.certificate) given.now.certificate.head.targets) }
    ensures few { IfSome result (λ k. k < 2 ^ 32) }
    ensures none { IfNone result ((k : ℕ) → k < given.now.certificate.head.targets → TargetHolds given.now.points given.now.certificate k) }
{
    for k in 0..line_counts(given.cert()).targets as usize {
        if !target_holds::<P>(given, k) {
            return Some(k);
        }
    }
    None
}
