//! The V entries of a node.
ghost use Rattle.std.specs.Prelude.{◌≡◌, ℕ, ◌+◌, ◌*◌, ◌^◌, ◌<◌, ◌≤◌, length, All};
ghost use Rattle.exact_math.specs.Orders.{IsOrder};
ghost use Rattle.cell_name.specs.Apart.{sides_between};
ghost use Rattle.cell_name.specs.Cell.{square};
ghost use Rattle.complex_box.specs.Box.{number};
ghost use Rattle.letters.specs.declared.Letter.TheVariants.{V};
ghost use Rattle.limits.specs.Limits.{most_entries, most_given_local, widest_grid};
ghost use Rattle.row_recursions.specs.Rows.{row_of, AreSameRows, RowsAdd};
ghost use Rattle.row_recursions.specs.Sizes.{RowWithin};
ghost use Rattle.soundness.specs.Accounts.{is_letter};
ghost use Rattle.soundness.specs.Steps.{total_row};
ghost use Rattle.certificate_rows.specs.Entries.{HasDistance, nth_entry, v_row};

use crate::given::{entry_at, multipole_row, node_at};
use cell_name::Cell;
use cert_text::Cert;
use complex_box::{CBox, Gauss, Row, Work, clear};
use kernel_table::Kernel;
use letters::{Entry, Letter};
use local_expansion::convert;
use row_recursions::add_row;

/// How many sides the centre of `b` lies from that of `c`, for cells of one level.
fn sides_between(b: Cell, c: Cell) -> Gauss
    ensures { number result ≡ sides_between (square b) (square c) }
{
    Gauss {
        re: i64::from(b.i) - i64::from(c.i),
        im: i64::from(b.j) - i64::from(c.j),
    }
}

/// Whether it is a V entry.
pub(crate) fn is_v(entry: Entry) -> bool
    ensures { result ≡ is_letter V entry.letter }
{
    matches!(entry.letter, Letter::V)
}

/// Makes what an entry adds to the row of `b`: of a V entry the given row of its `c`, converted, and nothing of another.
fn convert_entry<const P: usize>(
    cert: &Cert,
    kernel: &Kernel<P>,
    b: Cell,
    entry: Entry,
    part: &mut [CBox],
)
    requires order { IsOrder P }
    requires length { cert.now.head.order ≡ P }
    requires node { entry.c < cert.now.head.cells }
    requires distance { HasDistance cert.now (square b) entry }
    requires len { length part.old ≡ P }
    ensures len { length part.new ≡ P }
    ensures row { AreSameRows P (v_row cert.now P (square b) entry) (row_of part.new) }
    ensures size { RowWithin P (2 ^ 81) (row_of part.new) }
{
    clear(part);
    if is_v(entry) {
        let (_, cell) = node_at(cert, entry.c);
        let row = multipole_row::<P>(cert, entry.c);
        convert(
            kernel,
            Row::new(row),
            sides_between(b, cell),
            part,
            &mut Work::new(),
        );
    }
}

/// Adds what the V entries of these numbers add to the row of `b`.
pub(crate) fn add_v_entries<const P: usize>(
    cert: &Cert,
    kernel: &Kernel<P>,
    b: Cell,
    entries: &[u32],
    into: &mut [CBox],
)
    requires order { IsOrder P }
    requires length { cert.now.head.order ≡ P }
    requires numbers { All (λ e. e < cert.now.head.entries) entries.now }
    requires distances { All (λ e. HasDistance cert.now (square b) (nth_entry cert.now e)) entries.now }
    requires few { length entries.now ≤ most_entries widest_grid }
    requires len { length into.old ≡ P }
    requires sum { RowWithin P most_given_local (row_of into.old) }
    ensures len { length into.new ≡ P }
    ensures adds { RowsAdd P (row_of into.old) (total_row (λ e. v_row cert.now P (square b) (nth_entry cert.now e)) entries.now) (row_of into.new) }
    ensures size { RowWithin P (2 ^ 111) (row_of into.new) }
{
    let mut part = [CBox::zero(); P];
    for e in entries {
        convert_entry(cert, kernel, b, entry_at(cert, *e as usize), &mut part);
        add_row(into, &part);
    }
}
