//! The line of an entry `v`.
ghost use Rattle.std.specs.Prelude.{◌<◌, ◌↔◌, IsTrue};
ghost use Rattle.certificate_rules.specs.LineRules.{IsFit};
ghost use Rattle.letters.specs.declared.Letter.TheVariants.{V};
ghost use Rattle.points.specs.declared.Points.{Points as List};

use crate::line::cell_of;
use crate::square::are_two_or_three_sides_apart;
use cert_text::Cert;

/// Whether the cells of two nodes are of one level and two or three sides apart. Conditions: the nodes are among the cells.
pub(crate) fn is_pair(cert: &Cert, b: usize, c: usize) -> bool
    requires b { b < cert.now.head.cells }
    requires c { c < cert.now.head.cells }
    ensures { (points : List) → IsTrue result ↔ IsFit points cert.now V b c }
{
    let b = cell_of(cert, b);
    let c = cell_of(cert, c);
    b.level == c.level && are_two_or_three_sides_apart(b, c)
}
