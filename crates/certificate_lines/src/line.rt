//! What the lines of a certificate give.
ghost use Rattle.std.specs.Prelude.{◌≡◌, ◌<◌, pos, unsigned_abs};
ghost use Rattle.accounting_text.specs.Given.{given_cell, given_entry, number_at};
ghost use Rattle.cell_name.specs.Cell.{square};
ghost use Rattle.cert_text.specs.Certificate.{nth_line};

use cell_name::Cell;
use cert_text::{Cert, Entry};

/// The cell of a node. Condition: the node is one of the cells.
pub(crate) fn cell_of(cert: &Cert, n: usize) -> Cell
    requires { n < cert.now.head.cells }
    ensures { square result ≡ given_cell cert.now.head.version (nth_line cert.now.nodes n) }
{
    cert.node(n).1
}

/// The parent of a node. Condition: the node is one of the cells.
pub(crate) fn parent_of(cert: &Cert, n: usize) -> usize
    requires { n < cert.now.head.cells }
    ensures parent { result ≡ number_at (nth_line cert.now.nodes n) 0 }
    ensures node { result < cert.now.head.cells }
{
    cert.node(n).0
}

/// The node of a point. Condition: the point is one of the points.
pub(crate) fn node_of(cert: &Cert, k: usize) -> usize
    requires { k < cert.now.head.points }
    ensures node { result ≡ number_at (nth_line cert.now.ats k) 0 }
    ensures in_range { result < cert.now.head.cells }
{
    cert.at(k)
}

/// An entry. Condition: it is one of the entries.
pub(crate) fn entry_of(cert: &Cert, e: usize) -> Entry
    requires { e < cert.now.head.entries }
    ensures entry { result ≡ given_entry (nth_line cert.now.entries e) }
    ensures b { result.b < cert.now.head.cells }
    ensures c { result.c < cert.now.head.cells }
{
    cert.entry(e)
}
