//! Reading numbers that stand in a row, with one space between each two.
ghost use Rattle.std.specs.Prelude.{◌≡◌, ℕ, ℤ, List, [], ◌∷◌, IfSome, IfNone};
ghost use Rattle.number_text.specs.Numbers.{IsInt, AreInts, cut_int};
ghost use Rattle.number_text.specs.Parts.{IsCut, space};

use crate::number::read_int;
use crate::part::cut_at;

/// The number that the first word spells, read as `read_int` reads it, and what stands behind the space that ends it.
///
/// `None` where no space ends the first word, or the word spells no number.
pub fn next_int(text: &[u8]) -> Option<(i64, &[u8])>
    ensures some { IfSome result (λ found.
        (word : List ℕ) × (z : ℤ) × IsCut space text.now word found.1.now × IsInt word z × (found.0 ≡ cut_int z)) }
    ensures none { IfNone result ((word back : List ℕ) (z : ℤ) → IsCut space text.now word back → IsInt word z → ⊥) }
{
    let (word, back) = cut_at(b' ', text)?;
    Some((read_int(word)?, back))
}

/// The two numbers that the text consists of, each read as `read_int` reads it.
pub fn read_two(text: &[u8]) -> Option<(i64, i64)>
    ensures some { IfSome result (λ found. (x y : ℤ) × AreInts text.now (x ∷ y ∷ [])
        × (found.0 ≡ cut_int x) × (found.1 ≡ cut_int y)) }
    ensures none { IfNone result ((x y : ℤ) → AreInts text.now (x ∷ y ∷ []) → ⊥) }
{
    let (first, rest) = next_int(text)?;
    Some((first, read_int(rest)?))
}

/// The three numbers that the text consists of, each read as `read_int` reads it.
pub fn read_three(text: &[u8]) -> Option<(i64, i64, i64)>
    ensures some { IfSome result (λ found. (x y z : ℤ) × AreInts text.now (x ∷ y ∷ z ∷ [])
        × (found.0 ≡ cut_int x) × (found.1 ≡ cut_int y) × (found.2 ≡ cut_int z)) }
    ensures none { IfNone result ((x y z : ℤ) → AreInts text.now (x ∷ y ∷ z ∷ []) → ⊥) }
{
    let (first, rest) = next_int(text)?;
    let (second, third) = read_two(rest)?;
    Some((first, second, third))
}

/// The four numbers that the text consists of, each read as `read_int` reads it.
pub fn read_four(text: &[u8]) -> Option<(i64, i64, i64, i64)>
    ensures some { IfSome result (λ found. (x y z w : ℤ) × AreInts text.now (x ∷ y ∷ z ∷ w ∷ [])
        × (found.0 ≡ cut_int x) × (found.1 ≡ cut_int y)
        × (found.2 ≡ cut_int z) × (found.3 ≡ cut_int w)) }
    ensures none { IfNone result ((x y z w : ℤ) → AreInts text.now (x ∷ y ∷ z ∷ w ∷ []) → ⊥) }
{
    let (first, rest) = next_int(text)?;
    let (second, third, fourth) = read_three(rest)?;
    Some((first, second, third, fourth))
}
