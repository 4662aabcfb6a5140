//! Reading rows of wide numbers.
ghost use Rattle.std.specs.Prelude.{◌≡◌, ◌≢◌, ◌≤◌, ◌∷◌, ◌++◌, ℕ, ℤ, List, length, map, min, IfSome, IfNone};
ghost use Rattle.number_text.specs.Numbers.{value_after, numbers_text, cut_wide, most_wide};
ghost use Rattle.number_text.specs.Private.{BeginsWithDigits, BeginsWithUint, BeginsWithInt, BeginsWithSpaced};

/// The greatest size of a wide number that is read as it is.
const MOST_WIDE: u128 = 1 << 100;

/// A value below this one is read on as one of 64 bits.
const MOST_SHORT: u64 = 1_000_000_000_000_000_000;

/// What stands behind this byte at the front of the text.
fn behind(byte: u8, text: &[u8]) -> Option<&[u8]>
    ensures some { IfSome result (λ rest. text.now ≡ byte ∷ rest.now) }
    ensures none { IfNone result ((rest : List ℕ) → text.now ≢ byte ∷ rest) }
{
    if *text.first()? != byte {
        return None;
    }
    Some(&text[1..])
}

/// What the digits at the front of the text stand for, at most 2^100, and what stands behind them.
fn read_digits(text: &[u8]) -> (u128, &[u8])
    ensures { (digits : List ℕ) × BeginsWithDigits text.now digits result.1.now × (result.0 ≡ min (value_after 0 digits) most_wide) }
{
    let mut value: u64 = 0;
    for (at, &byte) in text.iter().enumerate() {
        if value >= MOST_SHORT {
            return more_digits(u128::from(value), &text[at..]);
        }
        if !byte.is_ascii_digit() {
            return (u128::from(value), &text[at..]);
        }
        value = 10 * value + u64::from(byte - b'0');
    }
    (u128::from(value), &text[text.len()..])
}

/// The same with the digits that were read before, which stand for this value.
fn more_digits(before: u128, text: &[u8]) -> (u128, &[u8])
    requires { before ≤ most_wide }
    ensures { (digits : List ℕ) × BeginsWithDigits text.now digits result.1.now × (result.0 ≡ min (value_after before digits) most_wide) }
{
    let mut value = before;
    for (at, &byte) in text.iter().enumerate() {
        if !byte.is_ascii_digit() {
            return (value, &text[at..]);
        }
        value = (10 * value + u128::from(byte - b'0')).min(MOST_WIDE);
    }
    (value, &text[text.len()..])
}

/// The number from 0 on at the front of the text, at most 2^100, and what stands behind it.
fn next_uint(text: &[u8]) -> Option<(u128, &[u8])>
    ensures some { IfSome result (λ found. (n : ℕ) × BeginsWithUint text.now n found.1.now × (found.0 ≡ min n most_wide)) }
    ensures none { IfNone result ((n : ℕ) (rest : List ℕ) → BeginsWithUint text.now n rest → ⊥) }
{
    let (value, rest) = read_digits(text);
    let count = text.len() - rest.len();
    if count == 0 || (count > 1 && text[0] == b'0') {
        return None;
    }
    Some((value, rest))
}

/// The number at the front of the text, at most 2^100 in size, and what stands behind it.
fn next_signed(text: &[u8]) -> Option<(i128, &[u8])>
    ensures some { IfSome result (λ found. (z : ℤ) × BeginsWithInt text.now z found.1.now × (found.0 ≡ cut_wide z)) }
    ensures none { IfNone result ((z : ℤ) (rest : List ℕ) → BeginsWithInt text.now z rest → ⊥) }
{
    let Some(digits) = behind(b'-', text) else {
        let (size, rest) = next_uint(text)?;
        return Some((size as i128, rest));
    };
    let (size, rest) = next_uint(digits)?;
    if size == 0 {
        return None;
    }
    Some((-(size as i128), rest))
}

/// The number behind the space at the front of the text, at most 2^100 in size, and what stands behind it.
fn next_wide(text: &[u8]) -> Option<(i128, &[u8])>
    ensures some { IfSome result (λ found. (z : ℤ) × BeginsWithSpaced text.now z found.1.now × (found.0 ≡ cut_wide z)) }
    ensures none { IfNone result ((z : ℤ) (rest : List ℕ) → BeginsWithSpaced text.now z rest → ⊥) }
{
    next_signed(behind(b' ', text)?)
}

/// Reads as many numbers as the slice has places from the front of the text: each stands behind a space, and a line feed ends them. What stands
/// behind the line feed; `None` where the text begins with no such numbers.
///
/// A number greater than 2^100 in size is read as one of that size and its sign.
pub fn read_numbers<'a>(text: &'a [u8], numbers: &mut [i128]) -> Option<&'a [u8]>
    ensures some { IfSome result (λ rest. (zs : List ℤ) × (length zs ≡ length numbers.old)
        × (text.now ≡ numbers_text zs ++ rest.now) × (numbers.new ≡ map cut_wide zs)) }
    ensures none { IfNone result ((zs : List ℤ) (rest : List ℕ) → length zs ≡ length numbers.old → text.now ≡ numbers_text zs ++ rest → ⊥) }
{
    let mut rest = text;
    for number in numbers.iter_mut() {
        let (value, more) = next_wide(rest)?;
        *number = value;
        rest = more;
    }
    behind(b'\n', rest)
}
