//! The rows that a certificate gives.
ghost use Rattle.std.specs.Prelude.{◌≡◌, ◌<◌, ◌≤◌, length};
ghost use Rattle.cell_name.specs.Cell.{square};
ghost use Rattle.limits.specs.Limits.{most_given_local, most_given_multipole};
ghost use Rattle.row_recursions.specs.Rows.{row_of, AreSameRows};
ghost use Rattle.row_recursions.specs.Sizes.{RowWithin};
ghost use Rattle.certificate_rows.specs.Entries.{nth_entry};
ghost use Rattle.certificate_rows.specs.Given.{cell_at, parent_at, multipole_at, local_at, radius_at, IsOverList};

use cell_name::Cell;
use cert_text::Cert;
use certificate_nodes::Presented;
use complex_box::CBox;
use letters::Entry;

/// The certificate that is presented, which is over a list within the limits.
pub(crate) fn certificate<'s, 'a>(given: &'s Presented<'a>) -> &'s Cert
    ensures certificate { result.now ≡ given.now.certificate }
    ensures over { IsOverList given.now }
{
    let cert = given.cert();
    // what it says of its list
    let _points = given.points();
    cert
}

/// The parent and the cell of a node.
pub(crate) fn node_at(cert: &Cert, n: usize) -> (usize, Cell)
    requires { n < cert.now.head.cells }
    ensures parent { result.0 ≡ parent_at cert.now n }
    ensures cell { square result.1 ≡ cell_at cert.now n }
{
    cert.node(n)
}

/// The given multipole row of a node.
pub(crate) fn multipole_row<const P: usize>(cert: &Cert, n: usize) -> &[CBox]
    requires node { n < cert.now.head.cells }
    requires order { cert.now.head.order ≡ P }
    ensures len { length result.now ≡ P }
    ensures row { AreSameRows P (multipole_at cert.now n) (row_of result.now) }
    ensures size { RowWithin P most_given_multipole (row_of result.now) }
{
    cert.multipole_row(n)
}

/// The given local row of a node.
pub(crate) fn local_row<const P: usize>(cert: &Cert, n: usize) -> &[CBox]
    requires node { n < cert.now.head.cells }
    requires order { cert.now.head.order ≡ P }
    ensures len { length result.now ≡ P }
    ensures row { AreSameRows P (local_at cert.now n) (row_of result.now) }
    ensures size { RowWithin P most_given_local (row_of result.now) }
{
    cert.local_row(n)
}

/// An entry by its number.
pub(crate) fn entry_at(cert: &Cert, e: usize) -> Entry
    requires { e < cert.now.head.entries }
    ensures entry { result ≡ nth_entry cert.now e }
    ensures c { result.c < cert.now.head.cells }
{
    cert.entry(e)
}

/// The given radius of a node.
pub(crate) fn radius_at(cert: &Cert, n: usize) -> u128
    requires { n < cert.now.head.cells }
    ensures radius { result ≡ radius_at cert.now n }
    ensures size { result ≤ most_given_local }
{
    cert.radius(n).unsigned_abs()
}
