//! The check.
ghost use Rattle.std.specs.Prelude.{◌≡◌, ◌+◌, ◌<◌, ◌^◌, IfOk, IfSome, IfNone, Ok};
ghost use Rattle.cert_text.specs.Lines.{Head};
ghost use Rattle.exact_math.specs.Orders.{IsOrder};
ghost use Rattle.certificate_check.specs.Answers.{CountsContain, IsVerdict};
ghost use Rattle.certificate_check.specs.Failures.{AreCountsOf, HasTilings, LocalsHold};
ghost use Rattle.certificate_nodes.specs.Presented.{EntriesHold, MultipolesHold, NodesHold, PointsHold};
ghost use Rattle.certificate_rules.specs.Verdicts.{line_number};
ghost use Rattle.points.specs.Limits.{WithinLimits};

use crate::counts::{LineCounts, line_counts};
use crate::failures::{
    failing_entry, failing_local, failing_multipole, failing_node, failing_point, failing_target,
};
use crate::verdict::Verdict;
use cert_text::{Cert, Section};
use certificate_lines::head_holds;
use certificate_nodes::Presented;
use certificate_tiling::tilings;
use io_ports::Memory;
use kernel_table::Kernel;
use points::Points;
use std::alloc::Global;

/// How many lines stand behind line 1 before those of a section.
fn lines_before(counts: LineCounts, section: Section) -> u64
    requires points { counts.points < 2 ^ 32 }
    requires targets { counts.targets < 2 ^ 32 }
    requires cells { counts.cells < 2 ^ 32 }
    requires entries { counts.entries < 2 ^ 32 }
    ensures number { (h : Head) → AreCountsOf h counts → 2 + result ≡ line_number h section 0 }
    ensures few { result < 2 ^ 36 }
{
    match section {
        Section::Node => 0,
        Section::At => counts.cells,
        Section::Multipole => counts.cells + counts.points,
        Section::Entry => 2 * counts.cells + counts.points,
        Section::Local => 2 * counts.cells + counts.points + counts.entries,
        Section::Target => 3 * counts.cells + counts.points + counts.entries,
        Section::End => 3 * counts.cells + counts.points + counts.entries + counts.targets,
    }
}

/// No, at the n-th line of a section.
fn no_at(cert: &Cert, section: Section, n: usize, rule: u8) -> Verdict
    requires { n < 2 ^ 32 }
    ensures { result ≡ Verdict.No rule (line_number cert.now.head section n) }
{
    Verdict::No {
        rule,
        line: 2 + lines_before(line_counts(cert), section) + n as u64,
    }
}

/// The verdict on the nodes.
fn check_nodes(given: &Presented) -> Option<Verdict>
    ensures some { IfSome result (IsVerdict given.now.points given.now.certificate) }
    ensures none { IfNone result (NodesHold given.now) }
{
    let n = failing_node(given)?;
    Some(no_at(given.cert(), Section::Node, n, 1))
}

/// The verdict on the points.
fn check_points(given: &Presented) -> Option<Verdict>
    requires nodes { NodesHold given.now }
    ensures some { IfSome result (IsVerdict given.now.points given.now.certificate) }
    ensures none { IfNone result (PointsHold given.now) }
{
    let k = failing_point(given)?;
    Some(no_at(given.cert(), Section::At, k, 1))
}

/// The verdict on the multipole rows.
fn check_multipoles<const P: usize>(given: &Presented) -> Option<Verdict>
    requires order { P ≡ given.now.certificate.head.order }
    requires nodes { NodesHold given.now }
    requires points { PointsHold given.now }
    ensures some { IfSome result (IsVerdict given.now.points given.now.certificate) }
    ensures none { IfNone result (MultipolesHold given.now) }
{
    let n = failing_multipole::<P>(given)?;
    let cert = given.cert();
    if given.is_leaf(n) {
        return Some(no_at(cert, Section::Multipole, n, 2));
    }
    Some(no_at(cert, Section::Multipole, n, 3))
}

/// The verdict on the entries.
fn check_entries(given: &Presented) -> Option<Verdict>
    requires nodes { NodesHold given.now }
    requires points { PointsHold given.now }
    requires multipoles { MultipolesHold given.now }
    ensures some { IfSome result (IsVerdict given.now.points given.now.certificate) }
    ensures none { IfNone result (EntriesHold given.now) }
{
    let e = failing_entry(given)?;
    Some(no_at(given.cert(), Section::Entry, e, 5))
}

/// The verdict on the targets, the last lines.
fn check_targets<const P: usize>(given: &Presented) -> Verdict
    requires order { P ≡ given.now.certificate.head.order }
    requires nodes { NodesHold given.now }
    requires points { PointsHold given.now }
    requires multipoles { MultipolesHold given.now }
    requires entries { EntriesHold given.now }
    requires locals { LocalsHold given.now }
    ensures { IsVerdict given.now.points given.now.certificate result }
{
    let cert = given.cert();
    match failing_target::<P>(given) {
        Some(k) => no_at(cert, Section::Target, k, 7),
        None => Verdict::Yes,
    }
}

/// The verdict on the local rows with the tilings, and on the targets.
fn check_locals<const P: usize>(given: &Presented, kernel: &Kernel<P>, tiled: &[bool]) -> Verdict
    requires order { P ≡ given.now.certificate.head.order }
    requires nodes { NodesHold given.now }
    requires points { PointsHold given.now }
    requires multipoles { MultipolesHold given.now }
    requires entries { EntriesHold given.now }
    requires tiled { HasTilings given.now tiled.now }
    ensures { IsVerdict given.now.points given.now.certificate result }
{
    let cert = given.cert();
    match failing_local(given, kernel, tiled) {
        Some(failure) => no_at(cert, Section::Local, failure.number, failure.rule),
        None => check_targets::<P>(given),
    }
}

/// The verdict on what stands behind the entries.
fn check_behind<const P: usize>(alloc: Global, given: &Presented) -> Result<Verdict, Memory>
    requires is_order { IsOrder P }
    requires order { P ≡ given.now.certificate.head.order }
    requires nodes { NodesHold given.now }
    requires points { PointsHold given.now }
    requires multipoles { MultipolesHold given.now }
    requires entries { EntriesHold given.now }
    ensures { IfOk result (IsVerdict given.now.points given.now.certificate) }
{
    let kernel = Kernel::<P>::new(alloc)?;
    let tiled = tilings(alloc, given)?;
    Ok(check_locals(given, &kernel, &tiled))
}

/// The verdict where the rule of line 1 holds. Condition: `P` is the certificate's order.
fn check_lines<const P: usize>(alloc: Global, given: &Presented) -> Result<Verdict, Memory>
    requires is_order { IsOrder P }
    requires order { P ≡ given.now.certificate.head.order }
    ensures { IfOk result (IsVerdict given.now.points given.now.certificate) }
{
    if let Some(verdict) = check_nodes(given) {
        return Ok(verdict);
    }
    if let Some(verdict) = check_points(given) {
        return Ok(verdict);
    }
    if let Some(verdict) = check_multipoles::<P>(given) {
        return Ok(verdict);
    }
    if let Some(verdict) = check_entries(given) {
        return Ok(verdict);
    }
    check_behind::<P>(alloc, given)
}

/// The verdict on a certificate over a list of points.
fn verdict_on(alloc: Global, points: &Points, cert: &Cert) -> Result<Verdict, Memory>
    requires { WithinLimits points.now }
    ensures { IfOk result (IsVerdict points.now cert.now) }
{
    if !head_holds(points, cert) {
        return Ok(Verdict::No { rule: 8, line: 1 });
    }
    let given = Presented::of(alloc, points, cert)?;
    match cert.order() {
        4 => check_lines::<4>(alloc, &given),
        8 => check_lines::<8>(alloc, &given),
        16 => check_lines::<16>(alloc, &given),
        24 => check_lines::<24>(alloc, &given),
        _ => check_lines::<32>(alloc, &given),
    }
}

/// Whether a certificate over a list of points meets every rule, and where it fails first.
///
/// The rules are looked at line by line: line 1 counts the points; a node's cell is a child of its parent's; a point's node is a leaf whose cell has it;
/// the row of a leaf has the moments of its sources in it, and that of another node its children's, shifted up; the cells of an entry are as far apart as its
/// letter asks; the local row of a node with a target has in it its parent's, shifted down, and what its entries add, its radius is no less than what they can
/// lose, and the entries that reach a leaf account for each source exactly once; the box of a target has in it what the given rows and entries add up to, and its counts enclose the box.
/// `Yes` where all hold, and then the counts of each target contain the exact direct sum; nothing is asked of where the certificate came from.
///
/// Condition: the list is within the limits. `Memory` where there is none.
pub fn check(alloc: Global, points: &Points, cert: &Cert) -> Result<Verdict, Memory>
    requires { WithinLimits points.now }
    ensures verdict { IfOk result (IsVerdict points.now cert.now) }
    ensures sound { result ≡ Ok Verdict.Yes → CountsContain points.now cert.now }
{
    let _certificate = cert.version();
    verdict_on(alloc, points, cert)
}
