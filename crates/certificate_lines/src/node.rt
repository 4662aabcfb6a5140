//! The line of a node.
ghost use Rattle.std.specs.Prelude.{◌<◌, ◌↔◌, IsTrue};
ghost use Rattle.certificate_rules.specs.LineRules.{NodeHolds};
ghost use Rattle.points.specs.declared.Points.{Points as List};

use crate::line::{cell_of, parent_of};
use crate::square::{is_quarter, is_whole};
use cert_text::Cert;

/// Whether the cell of a node is the whole grid for node 0, and a quarter of its parent's cell for another. Condition: the node is one of the cells.
pub(crate) fn is_in_place(cert: &Cert, n: usize) -> bool
    requires { n < cert.now.head.cells }
    ensures { (points : List) → IsTrue result ↔ NodeHolds points cert.now n }
{
    let cell = cell_of(cert, n);
    if n == 0 {
        is_whole(cell)
    } else {
        is_quarter(cell, cell_of(cert, parent_of(cert, n)))
    }
}
