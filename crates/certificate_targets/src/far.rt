//! The values of the rows of a leaf's W entries at a place, and what the entries can lose.
ghost use Rattle.std.specs.Prelude.{◌≡◌, ◌^◌, ◌<◌, ◌≤◌, sum_by};
ghost use Rattle.accounting_text.specs.Given.{given_cell};
ghost use Rattle.cell_name.specs.Square.{side};
ghost use Rattle.cert_text.specs.Certificate.{IsCertificate, nth_box, nth_line};
ghost use Rattle.certificate_nodes.specs.AtNodes.{entry_numbers_at};
ghost use Rattle.certificate_nodes.specs.Presented.{accounting_of, node_count};
ghost use Rattle.certificate_targets.specs.Parts.{IsFarFromAll, IsPresented, entry_of, loss_of, value_of};
ghost use Rattle.complex_box.specs.Box.{BoxWithin, box_ends};
ghost use Rattle.exact_math.specs.Gaussian.{gaussian};
ghost use Rattle.letters.specs.declared.Letter.TheVariants.{W as LetterW};
ghost use Rattle.limits.specs.Grid.{IsInGrid};
ghost use Rattle.limits.specs.Limits.{grid_of};
ghost use Rattle.row_recursions.specs.Rows.{multipole_value};
ghost use Rattle.soundness.specs.Computed.{total_box};
ghost use Rattle.soundness.specs.Squares.{IsFarFrom, offset};
ghost use Rattle.truncation.specs.Tails.{single_tail as tail_of_singles};

use crate::read::{cell_at, entry_at};
use cert_text::Cert;
use certificate_nodes::Presented;
use complex_box::{CBox, Row};
use letters::{Entry, Letter};
use multipole::at_multipole;
use tail_bounds::single_tail;

/// The value of the multipole row of a node at a place far from its cell.
fn row_value<const P: usize>(cert: &Cert, n: usize, x: i64, y: i64) -> CBox
    requires order { P ≡ cert.now.head.order }
    requires certificate { IsCertificate cert.now }
    requires node { n < cert.now.head.cells }
    requires in_grid { IsInGrid (grid_of cert.now.head.version) x y }
    requires far { IsFarFrom (given_cell cert.now.head.version (nth_line cert.now.nodes n)) (gaussian x y) }
    ensures ends { let c = given_cell cert.now.head.version (nth_line cert.now.nodes n) in
        box_ends result ≡ multipole_value P (nth_box (nth_line cert.now.multipoles n).numbers) (side c) (offset c (gaussian x y)) }
    ensures size { BoxWithin (2 ^ 85) result }
{
    let row = Row::<P>::new(cert.multipole_row(n));
    at_multipole(row, cell_at(cert, n), x, y)
}

/// What an entry brings as the value of a row.
fn entry_value<const P: usize>(given: &Presented, entry: Entry, x: i64, y: i64) -> CBox
    requires order { P ≡ given.now.certificate.head.order }
    requires presented { IsPresented given.now }
    requires node { entry.c < node_count given.now }
    requires in_grid { IsInGrid (grid_of given.now.certificate.head.version) x y }
    requires far { entry.letter ≡ LetterW → IsFarFrom ((accounting_of given.now).cell entry.c) (gaussian x y) }
    ensures ends { box_ends result ≡ value_of (accounting_of given.now) P (gaussian x y) entry }
    ensures size { BoxWithin (2 ^ 85) result }
{
    match entry.letter {
        Letter::W => row_value::<P>(given.cert(), entry.c, x, y),
        Letter::U | Letter::V | Letter::X => CBox::zero(),
    }
}

/// What all entries of a node bring as values of rows.
pub(crate) fn far_value<const P: usize>(given: &Presented, n: usize, x: i64, y: i64) -> CBox
    requires order { P ≡ given.now.certificate.head.order }
    requires presented { IsPresented given.now }
    requires node { n < node_count given.now }
    requires in_grid { IsInGrid (grid_of given.now.certificate.head.version) x y }
    requires far { IsFarFromAll given.now n (gaussian x y) }
    ensures ends { box_ends result ≡ total_box (λ e. value_of (accounting_of given.now) P (gaussian x y) (entry_of given.now.certificate e)) (entry_numbers_at given.now.certificate n) }
    ensures size { BoxWithin (2 ^ 114) result }
{
    let cert = given.cert();
    let mut sum = CBox::zero();
    for e in given.entries(n) {
        let entry = entry_at(cert, *e as usize);
        sum = sum.add(entry_value::<P>(given, entry, x, y));
    }
    sum
}

/// What an entry can lose, by the tail of the order.
fn entry_loss<const P: usize>(given: &Presented, entry: Entry, tail: u128) -> u128
    requires order { P ≡ given.now.certificate.head.order }
    requires presented { IsPresented given.now }
    requires node { entry.c < node_count given.now }
    requires tail { tail ≡ tail_of_singles P }
    ensures loss { result ≡ loss_of (accounting_of given.now) P entry }
    ensures size { result ≤ 2 ^ 84 }
{
    match entry.letter {
        Letter::W => {
            let side = cell_at(given.cert(), entry.c).side().unsigned_abs();
            (u128::from(given.weight(entry.c)) * tail).div_ceil(u128::from(side))
        }
        Letter::U | Letter::V | Letter::X => 0,
    }
}

/// What all entries of a node can lose.
pub(crate) fn far_loss<const P: usize>(given: &Presented, n: usize) -> u128
    requires order { P ≡ given.now.certificate.head.order }
    requires presented { IsPresented given.now }
    requires node { n < node_count given.now }
    ensures loss { result ≡ sum_by (λ e. loss_of (accounting_of given.now) P (entry_of given.now.certificate e)) (entry_numbers_at given.now.certificate n) }
    ensures size { result ≤ 2 ^ 113 }
{
    let cert = given.cert();
    let tail = single_tail(P as u32).unsigned_abs();
    let mut lost = 0;
    for e in given.entries(n) {
        let entry = entry_at(cert, *e as usize);
        lost += entry_loss::<P>(given, entry, tail);
    }
    lost
}
