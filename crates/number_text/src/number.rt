//! Reading whole numbers.
ghost use Rattle.std.specs.Prelude.{◌≡◌, ℕ, ℤ, IfSome, IfNone, OnSome};
ghost use Rattle.std.specs.List.{AllByRecursion};
ghost use Rattle.number_text.specs.Numbers.{IsDigit, IsUint, IsInt, value_after, cut_uint, cut_int};

/// The greatest size of a number that is read as it is.
const MOST_READ: u64 = 1_000_000_000_000_000_000;

/// What the digits stand for, at most 10^18; `None` where a byte is no digit.
fn read_digits(digits: &[u8]) -> Option<u64>
    ensures digits { OnSome result (AllByRecursion IsDigit digits.now) }
    ensures value { IfSome result (λ n. n ≡ cut_uint (value_after 0 digits.now)) }
    ensures none { IfNone result (AllByRecursion IsDigit digits.now → ⊥) }
{
    let mut value = 0;
    for &byte in digits {
        if !byte.is_ascii_digit() {
            return None;
        }
        value = (10 * value + u64::from(byte - b'0')).min(MOST_READ);
    }
    Some(value)
}

/// The number from 0 on that the word spells: `0`, or a digit from 1 to 9 and any further digits.
///
/// A number greater than 10^18 is read as 10^18. `None` where the word spells no such number.
pub fn read_uint(word: &[u8]) -> Option<u64>
    ensures some { IfSome result (λ n. (m : ℕ) × IsUint word.now m × (n ≡ cut_uint m)) }
    ensures none { IfNone result ((m : ℕ) → IsUint word.now m → ⊥) }
{
    let first = *word.first()?;
    if first == b'0' && word.len() > 1 {
        return None;
    }
    read_digits(word)
}

/// The number that the word spells: that of `read_uint`, or `-` followed by one other than `0`.
///
/// A number that is greater than 10^18 in size is read as one of that size and its sign. `None` where the
/// word spells no number.
pub fn read_int(word: &[u8]) -> Option<i64>
    ensures some { IfSome result (λ n. (z : ℤ) × IsInt word.now z × (n ≡ cut_int z)) }
    ensures none { IfNone result ((z : ℤ) → IsInt word.now z → ⊥) }
{
    if *word.first()? != b'-' {
        return Some(read_uint(word)? as i64);
    }
    let size = read_uint(&word[1..])?;
    if size == 0 {
        return None;
    }
    Some(-(size as i64))
}
