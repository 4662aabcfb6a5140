//! The line of a point.
ghost use Rattle.std.specs.Prelude.{◌<◌, ◌↔◌, IsTrue};
ghost use Rattle.cell_name.specs.Cell.{square};
ghost use Rattle.cell_name.specs.Square.{Holds};
ghost use Rattle.certificate_rules.specs.LineRules.{HeadHolds, node_of, nth_place, presented};

use crate::line::{cell_of, node_of};
use cell_name::Cell;
use cert_text::Cert;
use points::{Point, Points};

/// Whether the cell has the point's place.
fn stands_in(p: &Point, cell: Cell) -> bool
    ensures { IsTrue result ↔ Holds (square cell) p.now.x p.now.y }
{
    cell.holds(p.x, p.y)
}

/// Whether the cell of a point's node has the point's place. Conditions: the rule of line 1 holds, and the point is one of the points.
pub(crate) fn is_held(points: &Points, cert: &Cert, k: usize) -> bool
    requires head { HeadHolds points.now cert.now }
    requires point { k < cert.now.head.points }
    ensures { let z = nth_place points.now.list k in
        IsTrue result ↔ Holds ((presented points.now cert.now).cell (node_of points.now cert.now k)) z.re z.im }
{
    let list = points.list.points();
    stands_in(&list[k], cell_of(cert, node_of(cert, k)))
}
