//! Line 1.
ghost use Rattle.std.specs.Prelude.{◌≡◌, ◌↔◌, IsTrue, length};
ghost use Rattle.certificate_rules.specs.LineRules.{targets_of, HeadHolds};

use cert_text::Cert;
use points::{Point, Points};

/// How many targets there are.
fn target_count(points: &[Point]) -> u64
    ensures { result ≡ length (targets_of points.now) }
{
    points.iter().filter(|p| !p.kind.is_source()).count() as u64
}

/// Whether the rule of line 1 holds: the version is that of the list, and it counts the list's points and its targets.
pub fn head_holds(points: &Points, cert: &Cert) -> bool
    ensures { IsTrue result ↔ HeadHolds points.now cert.now }
{
    let list = points.list.points();
    cert.version() == points.version
        && cert.points() == list.len() as u64
        && cert.targets() == target_count(list)
}
