//! The lines of targets.
ghost use Rattle.std.specs.Prelude.{◌≡◌, ◌+◌, ◌≤◌, ◌++◌, codes, length};
ghost use Rattle.complex_box.specs.Box.{BoxWithin, box_ends, BoxContains};
ghost use Rattle.exact_math.specs.Ratio.{ComplexRatio};
ghost use Rattle.exact_math.specs.Units.{unit};
ghost use Rattle.limits.specs.Limits.{most_printed};
ghost use Rattle.report_lines.specs.Counts.{CountsContain, target_counts};
ghost use Rattle.line_text.specs.Decimals.{decimal_text};
ghost use Rattle.report_lines.specs.Report.{labels, line_of, target_line};
ghost use Rattle.io_ports.specs.Bytes.{Writes};
ghost use Rattle.io_ports.specs.Faults.{HasCause};

use crate::counts::{CountEnds, second_counts};
use complex_box::CBox;
use io_ports::{Sink, WriteFault, put};
use line_text::FrontText;
use points::Mode;

// The text of a line grows from its end to its front, in at most this many bytes.
const LINE: usize = 256;

/// Appends the line of the target at `(x, y)` with the box `v` of its field, in units of 2^-40: `target X Y re L H im L H`, or in a
/// velocity report `target X Y u L H v L H` with the counts `-H` and `-L` of the imaginary part for `v`.
///
/// The ends of `v` are at most 2^96 in size. Whatever complex fraction `v` contains, the printed counts contain.
///
/// # Errors
///
/// `WriteFault` where a write failed. What was appended then is a prefix of the line.
pub fn write_target<S: Sink>(
    mode: Mode,
    x: i64,
    y: i64,
    v: CBox,
    sink: &mut S,
) -> Result<(), WriteFault>
    requires { BoxWithin most_printed v }
    ensures bytes { Writes result (S.held sink.old) (S.held sink.new) (target_line mode (record { x = x; y = y; counts = target_counts mode (box_ends v) })) }
    ensures contains { (z : ComplexRatio) → BoxContains unit v z → CountsContain mode (target_counts mode (box_ends v)) z }
    ensures cause { HasCause (S.faults sink.old) (S.faults sink.new) result }
{
    let first = CountEnds::of(v.re);
    let second = second_counts(mode, v);
    put_line(mode, x, y, first, second, sink)
}

// Appends the line of a target at (x, y) with these two pairs of counts, put at once.
fn put_line<S: Sink>(
    mode: Mode,
    x: i64,
    y: i64,
    first: CountEnds,
    second: CountEnds,
    sink: &mut S,
) -> Result<(), WriteFault>
    ensures bytes { Writes result (S.held sink.old) (S.held sink.new) (line_of mode x y first.lo first.hi second.lo second.hi) }
    ensures cause { HasCause (S.faults sink.old) (S.faults sink.new) result }
{
    let line = line_text(mode, x, y, first, second);
    put(sink, line.as_bytes())
}

// The line of a target.
fn line_text(mode: Mode, x: i64, y: i64, first: CountEnds, second: CountEnds) -> FrontText<LINE>
    ensures { result ≡ line_of mode x y first.lo first.hi second.lo second.hi }
{
    let mut line = FrontText::new();
    line.prepend(b'\n');
    prepend_counts(&mut line, second);
    line.prepend_word(second_label(mode));
    prepend_counts(&mut line, first);
    line.prepend_word(first_label(mode));
    line.prepend_int(y);
    line.prepend(b' ');
    line.prepend_int(x);
    line.prepend_word(b"target ");
    line
}

// Puts `L H` before the line.
fn prepend_counts(line: &mut FrontText<LINE>, counts: CountEnds)
    requires { 69 + length line.old ≤ LINE }
    ensures text { line.new ≡ decimal_text counts.lo ++ codes " " ++ decimal_text counts.hi ++ line.old }
    ensures length { length line.new ≤ 69 + length line.old }
{
    line.prepend_count(counts.hi);
    line.prepend(b' ');
    line.prepend_count(counts.lo);
}

// The words before the first pair of counts.
fn first_label(mode: Mode) -> &'static [u8]
    ensures word { result.now ≡ (labels mode).0 }
    ensures length { length result.now ≤ 4 }
{
    match mode {
        Mode::Field => b" re ",
        Mode::Velocity => b" u ",
    }
}

// The words before the second pair of counts.
fn second_label(mode: Mode) -> &'static [u8]
    ensures word { result.now ≡ (labels mode).1 }
    ensures length { length result.now ≤ 4 }
{
    match mode {
        Mode::Field => b" im ",
        Mode::Velocity => b" v ",
    }
}
