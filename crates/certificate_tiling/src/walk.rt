//! From node to node: which entries cover.
ghost use Rattle.std.specs.Prelude.{◌≡◌, ℕ, ◌+◌, ◌<◌, ◌≤◌, ◌^◌, length, sum, All};
ghost use Rattle.certificate_nodes.specs.Presented.{accounting_of, node_count};
ghost use Rattle.certificate_tiling.specs.Walk.{times_named, CoversMore, CoversAt};
ghost use Rattle.node_sums.specs.Sums.{value_at};

use crate::lists::parent;
use cert_text::Cert;
use certificate_nodes::Presented;
use path_cover::Cover;

/// The c of some entries begin to cover.
pub(crate) fn enter(cover: &mut Cover, cert: &Cert, entries: &[u32])
    requires numbers { All (λ e. e < cert.now.head.entries) entries.now }
    requires nodes { length cover.old.parents ≡ cert.now.head.cells }
    requires covers { length cover.old.covers ≡ cert.now.head.cells }
    requires room { sum cover.old.covers + length entries.now ≤ 2 ^ 31 }
    ensures { CoversMore cover.old cover.new (times_named cert.now entries.now) }
{
    for e in entries {
        cover.add(cert.entry(*e as usize).c);
    }
}

/// The c of some entries cease to cover.
pub(crate) fn leave(cover: &mut Cover, cert: &Cert, entries: &[u32])
    requires numbers { All (λ e. e < cert.now.head.entries) entries.now }
    requires enough { (k : ℕ) → times_named cert.now entries.now k ≤ value_at cover.old.covers k }
    ensures { CoversMore cover.new cover.old (times_named cert.now entries.now) }
{
    for e in entries {
        cover.take(cert.entry(*e as usize).c);
    }
}

/// From one node to another: the larger of two numbers goes to its parent, until both are the same. What is left on the way ceases to cover, and what is
/// entered begins to.
pub(crate) fn go_to(cover: &mut Cover, given: &Presented, from: usize, to: usize)
    requires from { from < node_count given.now }
    requires to { to < node_count given.now }
    requires at { CoversAt (accounting_of given.now) from cover.old }
    ensures { CoversAt (accounting_of given.now) to cover.new }
{
    let cert = given.cert();
    let mut left = from;
    let mut entered = to;
    while left != entered {
        if left > entered {
            leave(cover, cert, given.entries(left));
            left = parent(given, left);
        } else {
            enter(cover, cert, given.entries(entered));
            entered = parent(given, entered);
        }
    }
}
