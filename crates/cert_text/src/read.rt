//! Reading a certificate.
ghost use Rattle.std.specs.Prelude.{◌≡◌, ◌+◌, ◌^◌, ◌<◌, ℕ, List, length, IfOk, MatchResult};
ghost use Rattle.cert_text.specs.Certificate.{Certificate, SpellsCert};
ghost use Rattle.cert_text.specs.Faults.{ReadsCert};
ghost use Rattle.cert_text.specs.Inside.{head_of};
ghost use Rattle.cert_text.specs.Lines.{Head};
ghost use Rattle.cert_text.specs.Private.{lines_due};
ghost use Rattle.cert_text.specs.Reading.{AreRead, IsFault, IsReading, IsStarting, next};
ghost use Rattle.cert_text.specs.Storage.{lines_in};
ghost use Rattle.cert_text.specs.declared.section.Section.TheVariants.{Node, End};

use crate::form::{MOST_NUMBERS, behind_word, read_form};
use crate::head::read_head;
use crate::stored::{Header, Stored};
use crate::{Cert, CertFault, CertKind, Section};
use std::alloc::Global;

/// Reads the line of a section that is due next, which has this number, and gives what stands behind it.
fn read_line<'a>(
    header: Header,
    section: Section,
    line: u64,
    text: &'a [u8],
    stored: &mut Stored,
    numbers: &mut [i128; MOST_NUMBERS],
) -> Result<&'a [u8], CertFault>
    requires reading { IsReading (head_of header) section line stored.old }
    requires more { length (lines_in section stored.old) < lines_due (head_of header) section }
    ensures reading { IfOk result (λ rest. IsReading (head_of header) section (line + 1) stored.new) }
    ensures one { IfOk result (λ rest. length (lines_in section stored.new) ≡ length (lines_in section stored.old) + 1) }
    ensures read { (bytes : List ℕ) → AreRead bytes stored.old text.now → MatchResult result (λ rest. AreRead bytes stored.new rest.now) (IsFault bytes) }
{
    let Some(found) = read_form(header.order, section, text, numbers) else {
        return Err(CertFault::Text {
            line,
            what: CertKind::Syntax,
        });
    };
    match stored.push(section, found.word, &numbers[..found.count]) {
        Ok(true) => Ok(found.rest),
        Ok(false) => Err(CertFault::Text {
            line,
            what: CertKind::Range,
        }),
        Err(_) => Err(CertFault::Memory),
    }
}

/// Reads the lines of a section, the first of which has this number, and gives what stands behind them.
fn read_section<'a>(
    header: Header,
    section: Section,
    line: u64,
    text: &'a [u8],
    stored: &mut Stored,
    numbers: &mut [i128; MOST_NUMBERS],
) -> Result<&'a [u8], CertFault>
    requires { IsStarting (head_of header) section line stored.old }
    ensures next { IfOk result (λ rest. IsStarting (head_of header) (next section) (line + lines_due (head_of header) section) stored.new) }
    ensures read { (bytes : List ℕ) → AreRead bytes stored.old text.now → MatchResult result (λ rest. AreRead bytes stored.new rest.now) (IsFault bytes) }
{
    let lines = header.lines(section);
    if stored.make_room(section, lines, text.len()).is_err() {
        return Err(CertFault::Memory);
    }
    let mut rest = text;
    for n in 0..lines {
        rest = read_line(header, section, line + n, rest, stored, numbers)?;
    }
    Ok(rest)
}

/// The section behind one.
fn behind(section: Section) -> Section
    ensures { result ≡ next section }
{
    match section {
        Section::Node => Section::At,
        Section::At => Section::Multipole,
        Section::Multipole => Section::Entry,
        Section::Entry => Section::Local,
        Section::Local => Section::Target,
        Section::Target | Section::End => Section::End,
    }
}

/// Reads the last line, which has this number. Nothing may stand behind it.
fn read_end(line: u64, text: &[u8]) -> Result<(), CertFault>
    requires { line < 2 ^ 62 }
    ensures { (h : Head) (c : Certificate) (bytes : List ℕ) → IsStarting h End line c → AreRead bytes c text.now
        → MatchResult result (λ _. SpellsCert bytes c) (IsFault bytes) }
{
    let what = CertKind::Syntax;
    let Some(rest) = behind_word(b"end\n", text) else {
        return Err(CertFault::Text { line, what });
    };
    if !rest.is_empty() {
        return Err(CertFault::Text {
            line: line + 1,
            what,
        });
    }
    Ok(())
}

/// Reads all lines behind line 1.
fn read_lines(header: Header, text: &[u8], stored: &mut Stored) -> Result<(), CertFault>
    requires { IsStarting (head_of header) Node 2 stored.old }
    ensures { (bytes : List ℕ) → AreRead bytes stored.old text.now → MatchResult result (λ _. SpellsCert bytes stored.new) (IsFault bytes) }
{
    let mut numbers = [0; MOST_NUMBERS];
    let mut section = Section::Node;
    let mut line = 2;
    let mut rest = text;
    while section != Section::End {
        rest = read_section(header, section, line, rest, stored, &mut numbers)?;
        line += header.lines(section);
        section = behind(section);
    }
    read_end(line, rest)
}

/// The certificate that the bytes spell.
///
/// Line 1 is `fmmcert V ORDER POINTS TARGETS CELLS ENTRIES`, with the version V of the points. Then so many lines stand
/// as it says: `node PARENT LEVEL I J` for each cell, `at N` for each point, `m -` or `m` and a row for each cell, `u B C`,
/// `v B C`, `w B C` or `x B C` for each entry, `l -` or `l RADIUS` and a row for each cell, and `t` and eight numbers for
/// each target. The last line is `end`. Each line ends with a line feed, and one space stands before each number. A row
/// has four numbers for each coefficient, the ends of both parts.
///
/// `Text` names the first line at fault, counted from 1, and what is wrong with it. `Memory` is want of memory.
pub fn read_cert(alloc: Global, bytes: &[u8]) -> Result<Cert, CertFault>
    ensures { ReadsCert bytes.now result }
{
    let (header, rest) = match read_head(bytes) {
        Ok(found) => found,
        Err(what) => return Err(CertFault::Text { line: 1, what }),
    };
    let mut stored = Stored::new(alloc, header);
    read_lines(header, rest, &mut stored)?;
    Ok(Cert::of(stored))
}
