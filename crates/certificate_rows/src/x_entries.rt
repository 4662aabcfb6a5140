//! The X entries of a node: the sources of leaves that are far from it.
ghost use Rattle.std.specs.Prelude.{◌≡◌, ℕ, ◌+◌, ◌*◌, ◌^◌, ◌<◌, ◌≤◌, length, All};
ghost use Rattle.exact_math.specs.Orders.{IsOrder};
ghost use Rattle.cell_name.specs.Cell.{square};
ghost use Rattle.certificate_nodes.specs.Presented.{accounting_of, node_count, PointsHold};
ghost use Rattle.certificate_rules.specs.LineRules.{IsFit};
ghost use Rattle.letters.specs.declared.Letter.TheVariants.{X};
ghost use Rattle.limits.specs.Limits.{most_entries, most_weight, widest_grid};
ghost use Rattle.points.specs.Limits.{InRange, total_weight};
ghost use Rattle.points.specs.Points.{place};
ghost use Rattle.row_recursions.specs.Cells.{far_coefficients_in};
ghost use Rattle.row_recursions.specs.Rows.{row_of, AreSameRows, RowsAdd};
ghost use Rattle.row_recursions.specs.Sizes.{RowWithin};
ghost use Rattle.soundness.specs.Accounts.{is_letter};
ghost use Rattle.soundness.specs.Squares.{IsFarFrom};
ghost use Rattle.soundness.specs.Steps.{total_row};
ghost use Rattle.certificate_rows.specs.Entries.{nth_entry, x_row};
ghost use Rattle.certificate_rows.specs.Given.{cell_at};

use crate::given::{certificate, entry_at};
use cell_name::Cell;
use certificate_nodes::Presented;
use complex_box::{CBox, clear};
use letters::{Entry, Letter};
use local_expansion::add_far_source;
use points::Point;

/// Adds what some sources add to the row of a cell that is far from them. They are no heavier than a list may be.
pub(crate) fn add_far_sources<const P: usize>(sources: &[Point], cell: Cell, into: &mut [CBox])
    requires order { IsOrder P }
    requires range { All (InRange cell.grid) sources.now }
    requires far { All (λ p. IsFarFrom (square cell) (place p)) sources.now }
    requires weight { total_weight sources.now ≤ most_weight widest_grid }
    requires len { length into.old ≡ P }
    requires sum { RowWithin P (2 ^ 109) (row_of into.old) }
    ensures len { length into.new ≡ P }
    ensures adds { RowsAdd P (row_of into.old) (total_row (far_coefficients_in (square cell)) sources.now) (row_of into.new) }
    ensures size { (n : ℕ) → RowWithin P n (row_of into.old) → RowWithin P (n + 2 ^ 40 * total_weight sources.now) (row_of into.new) }
{
    for p in sources {
        add_far_source::<P>(into, cell, p);
    }
}

/// Whether it is an X entry.
fn is_x(entry: Entry) -> bool
    ensures { result ≡ is_letter X entry.letter }
{
    matches!(entry.letter, Letter::X)
}

/// Adds what an entry adds to the row of the cell `b` of node `n`: of an X entry the sources in its `c`, which is a leaf far from `b`, and
/// nothing of another.
fn add_x_entry<const P: usize>(
    given: &Presented,
    n: usize,
    b: Cell,
    entry: Entry,
    into: &mut [CBox],
)
    requires order { given.now.certificate.head.order ≡ P }
    requires points { PointsHold given.now }
    requires cell { square b ≡ cell_at given.now.certificate n }
    requires node { entry.c < node_count given.now }
    requires fits { IsFit given.now.points given.now.certificate entry.letter n entry.c }
    requires len { length into.old ≡ P }
    requires sum { RowWithin P (2 ^ 109) (row_of into.old) }
    ensures len { length into.new ≡ P }
    ensures adds { RowsAdd P (row_of into.old) (x_row (accounting_of given.now) (square b) entry) (row_of into.new) }
    ensures size { (m : ℕ) → RowWithin P m (row_of into.old) → RowWithin P (m + 2 ^ 76) (row_of into.new) }
{
    let _cert = certificate(given);
    if is_x(entry) {
        add_far_sources::<P>(given.sources(entry.c), b, into);
    }
}

/// Makes the sum of what the X entries of these numbers add to the row of the cell `b` of node `n`.
pub(crate) fn sum_x_entries<const P: usize>(
    given: &Presented,
    n: usize,
    b: Cell,
    entries: &[u32],
    row: &mut [CBox],
)
    requires order { given.now.certificate.head.order ≡ P }
    requires points { PointsHold given.now }
    requires cell { square b ≡ cell_at given.now.certificate n }
    requires numbers { All (λ e. e < given.now.certificate.head.entries) entries.now }
    requires fits { All (λ e. let x = nth_entry given.now.certificate e in IsFit given.now.points given.now.certificate x.letter n x.c) entries.now }
    requires few { length entries.now ≤ most_entries widest_grid }
    requires len { length row.old ≡ P }
    ensures len { length row.new ≡ P }
    ensures row { AreSameRows P (total_row (λ e. x_row (accounting_of given.now) (square b) (nth_entry given.now.certificate e)) entries.now) (row_of row.new) }
    ensures size { RowWithin P (2 ^ 106) (row_of row.new) }
{
    clear(row);
    for e in entries {
        let entry = entry_at(given.cert(), *e as usize);
        add_x_entry::<P>(given, n, b, entry, row);
    }
}
