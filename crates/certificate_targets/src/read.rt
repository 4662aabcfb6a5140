//! What a certificate gives, in the words of its accounting.
ghost use Rattle.std.specs.Prelude.{◌≡◌, ◌<◌, ◌≤ℤ◌, pos};
ghost use Rattle.accounting_text.specs.Given.{given_cell, given_entry, number_at};
ghost use Rattle.cell_name.specs.Cell.{square};
ghost use Rattle.cert_text.specs.Certificate.{nth_line};
ghost use Rattle.limits.specs.Limits.{most_given_local};

use cell_name::Cell;
use cert_text::Cert;
use letters::Entry;

/// The entry of a number.
pub(crate) fn entry_at(cert: &Cert, e: usize) -> Entry
    requires { e < cert.now.head.entries }
    ensures entry { result ≡ given_entry (nth_line cert.now.entries e) }
    ensures node { result.c < cert.now.head.cells }
{
    cert.entry(e)
}

/// The cell of a node.
pub(crate) fn cell_at(cert: &Cert, n: usize) -> Cell
    requires { n < cert.now.head.cells }
    ensures { square result ≡ given_cell cert.now.head.version (nth_line cert.now.nodes n) }
{
    let (_, cell) = cert.node(n);
    cell
}

/// The radius of a node.
pub(crate) fn radius_at(cert: &Cert, n: usize) -> i128
    requires { n < cert.now.head.cells }
    ensures value { result ≡ pos (number_at (nth_line cert.now.locals n) 0) }
    ensures size { result ≤ℤ pos most_given_local }
{
    cert.radius(n)
}
