//! The rules of local rows.
ghost use Rattle.std.specs.Prelude.{◌≡◌, ◌<◌, length, IsTrue, ◌↔◌};
ghost use Rattle.certificate_nodes.specs.Presented.{accounting_of, node_count, NodesHold, PointsHold, EntriesHold};
ghost use Rattle.certificate_rules.specs.LineRules.{LocalRowHolds};
ghost use Rattle.limits.specs.Limits.{most_given_local};
ghost use Rattle.row_recursions.specs.Rows.{row_of, AreSameRows};
ghost use Rattle.row_recursions.specs.Sizes.{RowWithin};
ghost use Rattle.soundness.specs.Computed.{brought_down, computed_local_row};
ghost use Rattle.soundness.specs.Rules.{RowInside};
ghost use Rattle.certificate_rows.specs.Given.{local_at};

use crate::given::{certificate, local_row, node_at};
use crate::inside::row_inside;
use crate::radius::radius_holds;
use crate::v_entries::add_v_entries;
use crate::x_entries::sum_x_entries;
use cert_text::Cert;
use certificate_nodes::Presented;
use complex_box::{CBox, Row, Work, clear};
use kernel_table::Kernel;
use local_shift::shift_down;
use row_recursions::add_row;

/// Makes the given local row of a node's parent, brought down to the node, and zeros for node 0.
fn bring_down<const P: usize>(given: &Presented, n: usize, row: &mut [CBox])
    requires order { given.now.certificate.head.order ≡ P }
    requires node { n < node_count given.now }
    requires nodes { NodesHold given.now }
    requires len { length row.old ≡ P }
    ensures len { length row.new ≡ P }
    ensures row { AreSameRows P (brought_down P (accounting_of given.now) n) (row_of row.new) }
    ensures size { RowWithin P most_given_local (row_of row.new) }
{
    let cert = certificate(given);
    clear(row);
    if n > 0 {
        let (parent, cell) = node_at(cert, n);
        let above = local_row::<P>(cert, parent);
        shift_down::<P>(Row::new(above), cell.quadrant(), row, &mut Work::new());
    }
}

/// Makes the local row that the method computes at a node.
fn computed_row<const P: usize>(given: &Presented, kernel: &Kernel<P>, n: usize, row: &mut [CBox])
    requires order { given.now.certificate.head.order ≡ P }
    requires node { n < node_count given.now }
    requires nodes { NodesHold given.now }
    requires points { PointsHold given.now }
    requires entries { EntriesHold given.now }
    requires len { length row.old ≡ P }
    ensures len { length row.new ≡ P }
    ensures row { AreSameRows P (computed_local_row P (accounting_of given.now) n) (row_of row.new) }
{
    let cert = certificate(given);
    let (_, cell) = node_at(cert, n);
    let entries = given.entries(n);
    bring_down::<P>(given, n, row);
    add_v_entries(cert, kernel, cell, entries, row);
    let mut far = [CBox::zero(); P];
    sum_x_entries::<P>(given, n, cell, entries, &mut far);
    add_row(row, &far);
}

/// Whether a row lies in the given local row of a node.
fn lies_in_given<const P: usize>(cert: &Cert, n: usize, row: &[CBox]) -> bool
    requires order { cert.now.head.order ≡ P }
    requires node { n < cert.now.head.cells }
    requires len { length row.now ≡ P }
    ensures { IsTrue result ↔ RowInside P (row_of row.now) (local_at cert.now n) }
{
    row_inside(row, local_row::<P>(cert, n))
}

/// Whether the row that the method computes at a node lies in the given one.
fn row_holds<const P: usize>(given: &Presented, kernel: &Kernel<P>, n: usize) -> bool
    requires order { given.now.certificate.head.order ≡ P }
    requires node { n < node_count given.now }
    requires nodes { NodesHold given.now }
    requires points { PointsHold given.now }
    requires entries { EntriesHold given.now }
    ensures { IsTrue result ↔ RowInside P (computed_local_row P (accounting_of given.now) n) (local_at given.now.certificate n) }
{
    let cert = certificate(given);
    let mut row = [CBox::zero(); P];
    computed_row(given, kernel, n, &mut row);
    lies_in_given::<P>(cert, n, &row)
}

/// True exactly where the rule of the node's local row holds. Where no target is under the node, it holds. Else the given row has in it the parent's
/// brought down, the rows of the V entries converted and what the sources of the X entries add; and the given radius is at least the parent's with
/// what these entries can lose.
///
/// Conditions: `P` is the certificate's order, the node is one of the cells, and the rules of all nodes, of all points and of all entries hold.
pub fn local_holds<const P: usize>(given: &Presented, kernel: &Kernel<P>, n: usize) -> bool
    requires order { given.now.certificate.head.order ≡ P }
    requires node { n < node_count given.now }
    requires nodes { NodesHold given.now }
    requires points { PointsHold given.now }
    requires entries { EntriesHold given.now }
    ensures { IsTrue result ↔ LocalRowHolds given.now.points given.now.certificate n }
{
    if !given.has_target(n) {
        return true;
    }
    if !radius_holds::<P>(given, n) {
        return false;
    }
    row_holds(given, kernel, n)
}
