//! Ranges of the numbers of lines.
ghost use Rattle.std.specs.Prelude.{◌≡◌, ◌<◌, ◌≤◌, ◌^◌, ◌↔◌, IsTrue, pos, IfSome, IfNone};
ghost use Rattle.limits.specs.Limits.{most_given_target};
ghost use Rattle.cert_text.specs.Sections.{IsNumberBelow, IsParentOf, AreOrderedEnds};

use limits::FIRST_GRID;

/// The greatest size of an end of a multipole row.
pub(crate) const MOST_MULTIPOLE: u128 = 1 << 80;

/// The greatest size of a radius and of an end of a local row.
pub(crate) const MOST_LOCAL: u128 = 1 << 90;

/// The greatest size of an end of a target's box and of its counts.
pub(crate) fn most_target(grid: u8) -> u128
    ensures { result ≡ most_given_target grid }
{
    if grid == FIRST_GRID { 1 << 84 } else { 1 << 96 }
}

/// The number, where it is from 0 to less than `count`.
pub(crate) fn below(count: u64, number: i128) -> Option<u64>
    ensures some { IfSome result (λ n. (n < count) × (number ≡ pos n)) }
    ensures none { IfNone result (IsNumberBelow count number → ⊥) }
{
    if number < 0 || i128::from(count) <= number {
        return None;
    }
    Some(number as u64)
}

/// The number, where it is that of a parent of node `n`.
pub(crate) fn parent_of(n: usize, number: i128) -> Option<usize>
    ensures some { IfSome result (λ parent. IsParentOf n number × (number ≡ pos parent)) }
    ensures none { IfNone result (IsParentOf n number → ⊥) }
{
    if n == 0 {
        return (number == 0).then_some(0);
    }
    Some(below(n as u64, number)? as usize)
}

/// Whether the numbers are lower and upper ends two by two, in order and at most `most` in size.
pub(crate) fn are_ends(most: u128, numbers: &[i128]) -> bool
    requires { most ≤ 2 ^ 100 }
    ensures { IsTrue result ↔ AreOrderedEnds most numbers.now }
{
    let bound = most as i128;
    let mut rest = numbers;
    while let [lo, hi, more @ ..] = rest {
        if *lo < -bound || *hi < *lo || bound < *hi {
            return false;
        }
        rest = more;
    }
    rest.is_empty()
}
