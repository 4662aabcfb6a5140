//! The rule of a target's line.
ghost use Rattle.std.specs.Prelude.{◌≡◌, ◌↔◌, ◌^◌, ◌<◌, ◌≤ℤ◌, IsTrue, pos};
ghost use Rattle.accounting_text.specs.Given.{given_cell};
ghost use Rattle.cell_name.specs.Square.{Holds, side};
ghost use Rattle.cert_text.specs.Certificate.{IsCertificate, nth_box, nth_line};
ghost use Rattle.certificate_nodes.specs.Presented.{EntriesHold, PointsHold, accounting_of, node_count};
ghost use Rattle.certificate_rules.specs.LineRules.{TargetHolds, nth_target};
ghost use Rattle.certificate_targets.specs.Parts.{IsPresented, IsSpotOf};
ghost use Rattle.complex_box.specs.Box.{BoxWithin, box_ends};
ghost use Rattle.exact_math.specs.Gaussian.{gaussian};
ghost use Rattle.row_recursions.specs.Rows.{local_value};
ghost use Rattle.soundness.specs.Computed.{computed_target_box, target_radius};
ghost use Rattle.soundness.specs.Squares.{offset};
ghost use Rattle.std.specs.Prelude.{drop};

use crate::counts::enclose;
use crate::far::{far_loss, far_value};
use crate::near::near_value;
use crate::read::{cell_at, radius_at};
use cert_text::Cert;
use certificate_nodes::Presented;
use complex_box::{CBox, Row};
use local_expansion::at_local;

/// The node and the place of a target.
#[derive(Clone, Copy)]
pub(crate) struct Spot {
    pub(crate) leaf: usize,
    pub(crate) x: i64,
    pub(crate) y: i64,
}

/// Where the k-th target is.
fn spot_of(given: &Presented, k: usize) -> Spot
    requires presented { IsPresented given.now }
    requires target { k < given.now.certificate.head.targets }
    requires points { PointsHold given.now }
    ensures { IsSpotOf given.now k result }
{
    let position = given.position(k);
    let target = given.points().list.points()[position];
    Spot {
        leaf: given.cert().at(position),
        x: target.x,
        y: target.y,
    }
}

/// The value of the local row of a node at a place in its cell.
fn row_value<const P: usize>(cert: &Cert, n: usize, x: i64, y: i64) -> CBox
    requires order { P ≡ cert.now.head.order }
    requires certificate { IsCertificate cert.now }
    requires node { n < cert.now.head.cells }
    requires inside { Holds (given_cell cert.now.head.version (nth_line cert.now.nodes n)) x y }
    ensures ends { let c = given_cell cert.now.head.version (nth_line cert.now.nodes n) in
        box_ends result ≡ local_value P (nth_box (drop 1 (nth_line cert.now.locals n).numbers)) (side c) (offset c (gaussian x y)) }
    ensures size { BoxWithin (2 ^ 95) result }
{
    let row = Row::<P>::new(cert.local_row(n));
    at_local(row, cell_at(cert, n), x, y)
}

/// The radius of a leaf, and what its W entries can lose.
fn radius_of<const P: usize>(given: &Presented, n: usize) -> i128
    requires order { P ≡ given.now.certificate.head.order }
    requires presented { IsPresented given.now }
    requires node { n < node_count given.now }
    ensures value { result ≡ pos (target_radius P (accounting_of given.now) n) }
    ensures size { result ≤ℤ pos (2 ^ 114) }
{
    radius_at(given.cert(), n) + far_loss::<P>(given, n) as i128
}

/// The box of the k-th target, computed from what is given.
fn computed_box<const P: usize>(given: &Presented, k: usize) -> CBox
    requires order { P ≡ given.now.certificate.head.order }
    requires presented { IsPresented given.now }
    requires target { k < given.now.certificate.head.targets }
    requires points { PointsHold given.now }
    requires entries { EntriesHold given.now }
    ensures { box_ends result ≡ computed_target_box P (accounting_of given.now) (nth_target (accounting_of given.now).targets k) }
{
    let spot = spot_of(given, k);
    let value = row_value::<P>(given.cert(), spot.leaf, spot.x, spot.y);
    let far = far_value::<P>(given, spot.leaf, spot.x, spot.y);
    let near = near_value(given, spot.leaf, spot.x, spot.y);
    value
        .add(far.add(near))
        .widen(radius_of::<P>(given, spot.leaf))
}

/// Whether the rule of the line of the k-th target, counted from 0, holds: the given box has the computed one in it, and the given counts
/// enclose the given box.
///
/// Conditions: `P` is the certificate's order, `k` is one of the targets, and the rules of all points' and entries' lines hold.
pub fn target_holds<const P: usize>(given: &Presented, k: usize) -> bool
    requires order { P ≡ given.now.certificate.head.order }
    requires target { k < given.now.certificate.head.targets }
    requires points { PointsHold given.now }
    requires entries { EntriesHold given.now }
    ensures { IsTrue result ↔ TargetHolds given.now.points given.now.certificate k }
{
    let cert = given.cert();
    prove!(cert.version() == given.points().version);
    let value = cert.target(k);
    computed_box::<P>(given, k).inside(value) && enclose(value, cert.counts(k))
}
