//! The lines of a certificate. Each is built from its end to its front, and put at once.
ghost use Rattle.std.specs.Prelude.{◌≡◌, ◌+◌, ◌*◌, ◌≤◌, length, codes, ◌∷◌, [], pos, MatchOption};
ghost use Rattle.accounting_text.specs.Written.{row_ends, box_numbers, box_counts, node_line, at_line, given_target_line};
ghost use Rattle.cell_name.specs.Cell.{square};
ghost use Rattle.cert_text.specs.Certificate.{end_line};
ghost use Rattle.cert_text.specs.Lines.{line, line_bytes, letter_word, cert_head_line};
ghost use Rattle.complex_box.specs.Box.{BoxWithin, box_ends};
ghost use Rattle.field_certificate.specs.Private.{numbers_before, line_of_multipole, line_of_local};
ghost use Rattle.io_ports.specs.Bytes.{Writes};
ghost use Rattle.io_ports.specs.Faults.{HasCause};
ghost use Rattle.limits.specs.Limits.{most_order, widest_grid, most_printed};
ghost use Rattle.number_text.specs.Parts.{line_feed};
ghost use Rattle.row_recursions.specs.Rows.{row_of};

use cell_name::Cell;
use complex_box::{CBox, Row};
use io_ports::{Sink, WriteFault, put};
use letters::Letter;
use line_text::FrontText;
use report_lines::to_count;

// The most bytes of a line without a row: a word of 7, eight numbers of at most 41 with the space and the sign before each, and a line feed.
const LINE: usize = 336;

// The most bytes of a line with a row: a word of one, a radius and the four ends of 32 boxes, of at most 41 each as above, and a line feed.
const ROW_LINE: usize = 5291;

/// What the first line of a certificate says.
#[derive(Clone, Copy)]
pub(crate) struct Header {
    pub(crate) version: u8,
    pub(crate) order: u32,
    pub(crate) points: usize,
    pub(crate) targets: usize,
    pub(crate) cells: usize,
    pub(crate) entries: u64,
}

/// Appends the first line.
pub(crate) fn put_head<S: Sink>(head: Header, sink: &mut S) -> Result<(), WriteFault>
    ensures bytes { Writes result (S.held sink.old) (S.held sink.new) (line_bytes (cert_head_line (record {
      version = head.version;
      order = head.order;
      points = head.points;
      targets = head.targets;
      cells = head.cells;
      entries = head.entries;
    }))) }
    ensures cause { HasCause (S.faults sink.old) (S.faults sink.new) result }
{
    let mut line = empty_line::<LINE>();
    prepend_natural(&mut line, head.entries);
    prepend_natural(&mut line, head.cells as u64);
    prepend_natural(&mut line, head.targets as u64);
    prepend_natural(&mut line, head.points as u64);
    prepend_natural(&mut line, u64::from(head.order));
    prepend_natural(&mut line, u64::from(head.version));
    line.prepend_word(b"fmmcert");
    put(sink, line.as_bytes())
}

/// Appends the line of a node: the number of its parent, and its cell.
pub(crate) fn put_node<S: Sink>(parent: usize, cell: Cell, sink: &mut S) -> Result<(), WriteFault>
    ensures bytes { Writes result (S.held sink.old) (S.held sink.new) (line_bytes (node_line parent (square cell))) }
    ensures cause { HasCause (S.faults sink.old) (S.faults sink.new) result }
{
    let mut line = empty_line::<LINE>();
    prepend_natural(&mut line, u64::from(cell.j));
    prepend_natural(&mut line, u64::from(cell.i));
    prepend_natural(&mut line, u64::from(cell.level));
    prepend_natural(&mut line, parent as u64);
    line.prepend_word(b"node");
    put(sink, line.as_bytes())
}

/// Appends the line of a point: the number of its leaf.
pub(crate) fn put_at<S: Sink>(leaf: usize, sink: &mut S) -> Result<(), WriteFault>
    ensures bytes { Writes result (S.held sink.old) (S.held sink.new) (line_bytes (at_line leaf)) }
    ensures cause { HasCause (S.faults sink.old) (S.faults sink.new) result }
{
    let mut line = empty_line::<LINE>();
    prepend_natural(&mut line, leaf as u64);
    line.prepend_word(b"at");
    put(sink, line.as_bytes())
}

/// Appends the line of an entry: its letter, and the numbers of its two cells.
pub(crate) fn put_entry<S: Sink>(
    letter: Letter,
    b: usize,
    c: usize,
    sink: &mut S,
) -> Result<(), WriteFault>
    ensures bytes { Writes result (S.held sink.old) (S.held sink.new) (line_bytes (line (letter_word letter) (pos b ∷ pos c ∷ []))) }
    ensures cause { HasCause (S.faults sink.old) (S.faults sink.new) result }
{
    let mut line = empty_line::<LINE>();
    prepend_natural(&mut line, c as u64);
    prepend_natural(&mut line, b as u64);
    line.prepend_word(letter_bytes(letter));
    put(sink, line.as_bytes())
}

/// Appends the line of a node's multipole row, or that of a node without one.
pub(crate) fn put_multipole<const P: usize, S: Sink>(
    row: Option<Row<'_, P>>,
    sink: &mut S,
) -> Result<(), WriteFault>
    requires { P ≤ most_order widest_grid }
    ensures bytes { MatchOption row.entry
        (Writes result (S.held sink.old) (S.held sink.new) (line_bytes (line (codes "m -") [])))
        (λ row. Writes result (S.held sink.old) (S.held sink.new) (line_bytes (line_of_multipole P row.cells.now))) }
    ensures cause { HasCause (S.faults sink.old) (S.faults sink.new) result }
{
    match row {
        Some(row) => {
            let mut line = empty_line::<ROW_LINE>();
            prepend_row(&mut line, row);
            line.prepend(b'm');
            put(sink, line.as_bytes())
        }
        None => put(sink, b"m -\n"),
    }
}

/// Appends the line of a node's radius and local row, or that of a node without them.
pub(crate) fn put_local<const P: usize, S: Sink>(
    radius: i128,
    row: Option<Row<'_, P>>,
    sink: &mut S,
) -> Result<(), WriteFault>
    requires { P ≤ most_order widest_grid }
    ensures bytes { MatchOption row.entry
        (Writes result (S.held sink.old) (S.held sink.new) (line_bytes (line (codes "l -") [])))
        (λ row. Writes result (S.held sink.old) (S.held sink.new) (line_bytes (line_of_local P radius row.cells.now))) }
    ensures cause { HasCause (S.faults sink.old) (S.faults sink.new) result }
{
    match row {
        Some(row) => {
            let mut line = empty_line::<ROW_LINE>();
            prepend_row(&mut line, row);
            prepend_number(&mut line, radius);
            line.prepend(b'l');
            put(sink, line.as_bytes())
        }
        None => put(sink, b"l -\n"),
    }
}

/// Appends the line of a target: the four ends of its box, at most 2^96 in size, and their counts.
pub(crate) fn put_target<S: Sink>(value: CBox, sink: &mut S) -> Result<(), WriteFault>
    requires { BoxWithin most_printed value }
    ensures bytes { Writes result (S.held sink.old) (S.held sink.new) (line_bytes (given_target_line (box_ends value))) }
    ensures cause { HasCause (S.faults sink.old) (S.faults sink.new) result }
{
    let mut line = empty_line::<LINE>();
    prepend_counts(&mut line, value);
    prepend_box(&mut line, value);
    line.prepend(b't');
    put(sink, line.as_bytes())
}

/// Appends the last line.
pub(crate) fn put_end<S: Sink>(sink: &mut S) -> Result<(), WriteFault>
    ensures bytes { Writes result (S.held sink.old) (S.held sink.new) (line_bytes end_line) }
    ensures cause { HasCause (S.faults sink.old) (S.faults sink.new) result }
{
    put(sink, b"end\n")
}

// The line feed of a line.
fn empty_line<const N: usize>() -> FrontText<N>
    requires { 1 ≤ N }
    ensures { result ≡ line_feed ∷ [] }
{
    let mut line = FrontText::new();
    line.prepend(b'\n');
    line
}

// The word of an entry's line.
fn letter_bytes(letter: Letter) -> &'static [u8]
    ensures word { result.now ≡ letter_word letter }
    ensures length { length result.now ≡ 1 }
{
    match letter {
        Letter::U => b"u",
        Letter::V => b"v",
        Letter::W => b"w",
        Letter::X => b"x",
    }
}

// Puts a space and a whole number before the line.
fn prepend_natural<const N: usize>(line: &mut FrontText<N>, n: u64)
    requires { 21 + length line.old ≤ N }
    ensures text { line.new ≡ numbers_before (pos n ∷ []) line.old }
    ensures length { length line.new ≤ 21 + length line.old }
{
    line.prepend_decimal(n);
    line.prepend(b' ');
}

// Puts a space and a whole number, with its sign where it is below 0, before the line.
fn prepend_number<const N: usize>(line: &mut FrontText<N>, z: i128)
    requires { 41 + length line.old ≤ N }
    ensures text { line.new ≡ numbers_before (z ∷ []) line.old }
    ensures length { length line.new ≤ 41 + length line.old }
{
    line.prepend_wide_int(z);
    line.prepend(b' ');
}

// Puts the four ends of a box before the line.
fn prepend_box<const N: usize>(line: &mut FrontText<N>, b: CBox)
    requires { 164 + length line.old ≤ N }
    ensures text { line.new ≡ numbers_before (box_numbers (box_ends b)) line.old }
    ensures length { length line.new ≤ 164 + length line.old }
{
    prepend_number(line, b.im.hi);
    prepend_number(line, b.im.lo);
    prepend_number(line, b.re.hi);
    prepend_number(line, b.re.lo);
}

// Puts the counts of the four ends of a box before the line.
fn prepend_counts<const N: usize>(line: &mut FrontText<N>, b: CBox)
    requires size { BoxWithin most_printed b }
    requires room { 164 + length line.old ≤ N }
    ensures text { line.new ≡ numbers_before (box_numbers (box_counts (box_ends b))) line.old }
    ensures length { length line.new ≤ 164 + length line.old }
{
    prepend_number(line, to_count(b.im.hi, true));
    prepend_number(line, to_count(b.im.lo, false));
    prepend_number(line, to_count(b.re.hi, true));
    prepend_number(line, to_count(b.re.lo, false));
}

// Puts the ends of the boxes of a row before the line.
fn prepend_row<const P: usize, const N: usize>(line: &mut FrontText<N>, row: Row<'_, P>)
    requires { 164 * P + length line.old ≤ N }
    ensures text { line.new ≡ numbers_before (row_ends P (row_of row.entry.cells.now)) line.old }
    ensures length { length line.new ≤ 164 * P + length line.old }
{
    let mut k = P;
    while k > 0 {
        k -= 1;
        prepend_box(line, row.get(k));
    }
}
