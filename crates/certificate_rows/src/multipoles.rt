//! The rules of multipole rows.
ghost use Rattle.std.specs.Prelude.{◌≡◌, ◌<◌, length, true, IsTrue, ◌↔◌};
ghost use Rattle.certificate_nodes.specs.Presented.{accounting_of, node_count, NodesHold, PointsHold};
ghost use Rattle.certificate_rules.specs.LineRules.{LeafRowHolds, InnerRowHolds};
ghost use Rattle.row_recursions.specs.Rows.{row_of, AreSameRows};
ghost use Rattle.soundness.specs.Accounts.{is_leaf};
ghost use Rattle.soundness.specs.Computed.{computed_leaf_row, shifted_rows};
ghost use Rattle.soundness.specs.Rules.{RowInside};
ghost use Rattle.certificate_rows.specs.Given.{multipole_at};
ghost use Rattle.certificate_rows.specs.Computed.{computed_multipole};

use crate::children::sum_children;
use crate::given::{certificate, multipole_row, node_at};
use crate::inside::row_inside;
use crate::sources::sum_sources;
use cert_text::Cert;
use certificate_nodes::Presented;
use complex_box::CBox;

/// Makes the row of a leaf from its sources.
fn leaf_row<const P: usize>(given: &Presented, n: usize, row: &mut [CBox])
    requires order { given.now.certificate.head.order ≡ P }
    requires node { n < node_count given.now }
    requires points { PointsHold given.now }
    requires leaf { is_leaf (accounting_of given.now) n ≡ true }
    requires len { length row.old ≡ P }
    ensures len { length row.new ≡ P }
    ensures row { AreSameRows P (computed_leaf_row (accounting_of given.now) n) (row_of row.new) }
{
    let (_, cell) = node_at(certificate(given), n);
    sum_sources::<P>(given.sources(n), cell, row);
}

/// Makes the row of another node from those that are given to its children.
fn inner_row<const P: usize>(given: &Presented, n: usize, row: &mut [CBox])
    requires order { given.now.certificate.head.order ≡ P }
    requires node { n < node_count given.now }
    requires nodes { NodesHold given.now }
    requires len { length row.old ≡ P }
    ensures len { length row.new ≡ P }
    ensures row { AreSameRows P (shifted_rows (accounting_of given.now) n) (row_of row.new) }
{
    sum_children::<P>(certificate(given), given.children(n), row);
}

/// Makes the row that the method computes at a node.
fn computed_row<const P: usize>(given: &Presented, n: usize, row: &mut [CBox])
    requires order { given.now.certificate.head.order ≡ P }
    requires node { n < node_count given.now }
    requires nodes { NodesHold given.now }
    requires points { PointsHold given.now }
    requires len { length row.old ≡ P }
    ensures len { length row.new ≡ P }
    ensures row { AreSameRows P (computed_multipole (accounting_of given.now) n) (row_of row.new) }
{
    if given.is_leaf(n) {
        leaf_row::<P>(given, n, row);
    } else {
        inner_row::<P>(given, n, row);
    }
}

/// Whether a row lies in the given multipole row of a node.
fn lies_in_given<const P: usize>(cert: &Cert, n: usize, row: &[CBox]) -> bool
    requires order { cert.now.head.order ≡ P }
    requires node { n < cert.now.head.cells }
    requires len { length row.now ≡ P }
    ensures { IsTrue result ↔ RowInside P (row_of row.now) (multipole_at cert.now n) }
{
    row_inside(row, multipole_row::<P>(cert, n))
}

/// True exactly where the rule of the node's multipole row holds: the row of a leaf has the moments of its sources in it, and that of another node
/// the sum of its children's rows, each shifted to the node's centre.
///
/// Conditions: `P` is the certificate's order, the node is one of the cells, and the rules of all nodes and of all points hold.
pub fn multipole_holds<const P: usize>(given: &Presented, n: usize) -> bool
    requires order { given.now.certificate.head.order ≡ P }
    requires node { n < node_count given.now }
    requires nodes { NodesHold given.now }
    requires points { PointsHold given.now }
    ensures { IsTrue result ↔ LeafRowHolds given.now.points given.now.certificate n × InnerRowHolds given.now.points given.now.certificate n }
{
    let cert = certificate(given);
    let mut row = [CBox::zero(); P];
    computed_row::<P>(given, n, &mut row);
    lies_in_given::<P>(cert, n, &row)
}
