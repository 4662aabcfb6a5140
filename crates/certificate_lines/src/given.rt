//! The lines of what is presented.
ghost use Rattle.std.specs.Prelude.{◌≡◌, ◌<◌, ◌↔◌, true, IsTrue};
ghost use Rattle.cell_name.specs.Cell.{square};
ghost use Rattle.certificate_lines.specs.Known.{IsKnown};
ghost use Rattle.certificate_nodes.specs.Presented.{accounting_of, node_count};
ghost use Rattle.certificate_rules.specs.LineRules.{EntryHolds, IsFit, NodeHolds, PointHolds};
ghost use Rattle.letters.specs.declared.Letter.TheVariants.{W, X};
ghost use Rattle.soundness.specs.Accounts.{is_leaf};
ghost use Rattle.soundness.specs.Rules.{Apart};

use crate::distance::are_far;
use crate::line::{cell_of, entry_of, node_of};
use crate::node::is_in_place;
use crate::pair::is_pair;
use crate::point::is_held;
use cell_name::Cell;
use cert_text::{Entry, Letter};
use certificate_nodes::Presented;

/// Whether the rule of a node's line holds: node 0 is the whole grid, and the cell of another is a quarter of its parent's. Condition: the node is one of the
/// cells.
pub fn node_holds(given: &Presented, n: usize) -> bool
    requires { n < node_count given.now }
    ensures { IsTrue result ↔ NodeHolds given.now.points given.now.certificate n }
{
    is_in_place(given.cert(), n)
}

/// Whether the rule of a point's line holds: its node is a leaf whose cell has the point's place. Condition: the point is one of the points.
pub fn point_holds(given: &Presented, k: usize) -> bool
    requires { k < given.now.certificate.head.points }
    ensures { IsTrue result ↔ PointHolds given.now.points given.now.certificate k }
{
    let cert = given.cert();
    given.is_leaf(node_of(cert, k)) && is_held(given.points(), cert, k)
}

/// The cell of a node, and what is known of the certificate. Condition: the node is one of the cells.
fn cell_at(given: &Presented, n: usize) -> Cell
    requires { n < node_count given.now }
    ensures cell { square result ≡ (accounting_of given.now).cell n }
    ensures known { IsKnown given.now }
{
    let cert = given.cert();
    let _certificate = cert.version();
    cell_of(cert, n)
}

/// Whether the targets in a leaf are far from the cell of a node. Conditions: both are among the cells, and the first is a leaf.
fn targets_are_far(given: &Presented, leaf: usize, c: usize) -> bool
    requires node { c < node_count given.now }
    requires in_range { leaf < node_count given.now }
    requires leaf { is_leaf (accounting_of given.now) leaf ≡ true }
    ensures { IsTrue result ↔ Apart (accounting_of given.now) W leaf c }
{
    are_far(cell_at(given, c), given.targets(leaf))
}

/// Whether the sources in a leaf are far from the cell of a node. Conditions: both are among the cells, and the second is a leaf.
fn sources_are_far(given: &Presented, b: usize, leaf: usize) -> bool
    requires node { b < node_count given.now }
    requires in_range { leaf < node_count given.now }
    requires leaf { is_leaf (accounting_of given.now) leaf ≡ true }
    ensures { IsTrue result ↔ Apart (accounting_of given.now) X b leaf }
{
    are_far(cell_at(given, b), given.sources(leaf))
}

/// Whether an entry fits its letter. Condition: its nodes are among the cells.
fn is_fit(given: &Presented, entry: Entry) -> bool
    requires b { entry.b < node_count given.now }
    requires c { entry.c < node_count given.now }
    ensures { IsTrue result ↔ IsFit given.now.points given.now.certificate entry.letter entry.b entry.c }
{
    let (b, c) = (entry.b, entry.c);
    match entry.letter {
        Letter::U => given.is_leaf(b) && given.is_leaf(c),
        Letter::V => is_pair(given.cert(), b, c),
        Letter::W => given.is_leaf(b) && targets_are_far(given, b, c),
        Letter::X => given.is_leaf(c) && sources_are_far(given, b, c),
    }
}

/// Whether the rule of an entry's line holds: both nodes of `u` are leaves; the cells of `v` are of one level and two or three sides apart; B of `w` is a leaf
/// whose targets are far from C, and C of `x` a leaf whose sources are far from B. Condition: the entry is one of the entries.
pub fn entry_holds(given: &Presented, e: usize) -> bool
    requires { e < given.now.certificate.head.entries }
    ensures { IsTrue result ↔ EntryHolds given.now.points given.now.certificate e }
{
    is_fit(given, entry_of(given.cert(), e))
}
