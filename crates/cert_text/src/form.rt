//! Reading one line of the form that is due.
ghost use Rattle.std.specs.Prelude.{◌≡◌, ◌≢◌, ◌≤◌, ◌⊎◌, ◌++◌, ℕ, List, IfSome, IfNone};
ghost use Rattle.letters.specs.declared.Letter.{Letter};
ghost use Rattle.cert_text.specs.Lines.{letter_word};
ghost use Rattle.cert_text.specs.Private.{HasNone, IsFound, form_head};
ghost use Rattle.cert_text.specs.Sections.{HasWord, IsFormOf};

use crate::{Letter, Section};
use number_text::read_numbers;

/// The most numbers that stand on a line: a radius, and a local row of order 32 with four numbers a coefficient, which
/// are `1 + 4 * 32`.
pub(crate) const MOST_NUMBERS: usize = 129;

/// A line that was read: its word, how many numbers it has, and what stands behind it.
#[derive(Clone, Copy)]
pub(crate) struct Found<'a> {
    pub word: &'a [u8],
    pub count: usize,
    pub rest: &'a [u8],
}

/// What stands behind the word that the text begins with.
pub(crate) fn behind_word<'a>(word: &[u8], text: &'a [u8]) -> Option<&'a [u8]>
    ensures some { IfSome result (λ rest. text.now ≡ word.now ++ rest.now) }
    ensures none { IfNone result ((rest : List ℕ) → text.now ≢ word.now ++ rest) }
{
    text.strip_prefix(word)
}

/// The line of this word and so many numbers that the text begins with.
pub(crate) fn read_word<'a>(
    word: &'a [u8],
    count: usize,
    text: &'a [u8],
    numbers: &mut [i128; MOST_NUMBERS],
) -> Option<Found<'a>>
    requires { count ≤ 129 }
    ensures some { IfSome result (IsFound (HasWord word.now count) text.now numbers.new) }
    ensures none { IfNone result (HasNone (HasWord word.now count) text.now) }
{
    let behind = behind_word(word, text)?;
    let rest = read_numbers(behind, &mut numbers[..count])?;
    Some(Found { word, count, rest })
}

/// The line of a row that the text begins with: the zero row by its word alone, or a row of so many numbers.
fn read_row<'a>(
    zero: &'a [u8],
    word: &'a [u8],
    count: usize,
    text: &'a [u8],
    numbers: &mut [i128; MOST_NUMBERS],
) -> Option<Found<'a>>
    requires { count ≤ 129 }
    ensures some { IfSome result (IsFound (λ l. HasWord zero.now 0 l ⊎ HasWord word.now count l) text.now numbers.new) }
    ensures none { IfNone result (HasNone (λ l. HasWord zero.now 0 l ⊎ HasWord word.now count l) text.now) }
{
    match read_word(zero, 0, text, numbers) {
        Some(found) => Some(found),
        None => read_word(word, count, text, numbers),
    }
}

/// The letter that the text begins with.
fn letter_of(text: &[u8]) -> Option<Letter>
    ensures some { IfSome result (λ letter. (rest : List ℕ) × (text.now ≡ letter_word letter ++ rest)) }
    ensures none { IfNone result ((letter : Letter) (rest : List ℕ) → text.now ≢ letter_word letter ++ rest) }
{
    match text.first()? {
        b'u' => Some(Letter::U),
        b'v' => Some(Letter::V),
        b'w' => Some(Letter::W),
        b'x' => Some(Letter::X),
        _ => None,
    }
}

/// The line of an entry that the text begins with.
fn read_entry<'a>(text: &'a [u8], numbers: &mut [i128; MOST_NUMBERS]) -> Option<Found<'a>>
    ensures some { IfSome result (IsFound (λ l. (letter : Letter) × HasWord (letter_word letter) 2 l) text.now numbers.new) }
    ensures none { IfNone result (HasNone (λ l. (letter : Letter) × HasWord (letter_word letter) 2 l) text.now) }
{
    match letter_of(text)? {
        Letter::U => read_word(b"u", 2, text, numbers),
        Letter::V => read_word(b"v", 2, text, numbers),
        Letter::W => read_word(b"w", 2, text, numbers),
        Letter::X => read_word(b"x", 2, text, numbers),
    }
}

/// The line of the form of a section, in a certificate of this order, that the text begins with. Its numbers are read
/// into the first places.
///
/// A number greater than 2^100 in size is read as one of that size and its sign. The order is at most 32.
pub(crate) fn read_form<'a>(
    order: u32,
    section: Section,
    text: &'a [u8],
    numbers: &mut [i128; MOST_NUMBERS],
) -> Option<Found<'a>>
    requires { order ≤ 32 }
    ensures some { IfSome result (IsFound (IsFormOf (form_head order) section) text.now numbers.new) }
    ensures none { IfNone result (HasNone (IsFormOf (form_head order) section) text.now) }
{
    let row = 4 * order as usize;
    match section {
        Section::Node => read_word(b"node", 4, text, numbers),
        Section::At => read_word(b"at", 1, text, numbers),
        Section::Multipole => read_row(b"m -", b"m", row, text, numbers),
        Section::Entry => read_entry(text, numbers),
        Section::Local => read_row(b"l -", b"l", 1 + row, text, numbers),
        Section::Target => read_word(b"t", 8, text, numbers),
        Section::End => read_word(b"end", 0, text, numbers),
    }
}
