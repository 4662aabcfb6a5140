//! Laws of the spelling of numbers. These functions do nothing; their contracts are the laws.
ghost use Rattle.std.specs.Fmt.{signed_decimal};
ghost use Rattle.std.specs.Prelude.{◌≡◌, ℕ, List, ℤ, FitsSigned};
ghost use Rattle.std.specs.Int.{w64};
ghost use Rattle.number_text.specs.Numbers.{IsInt, int_text};

/// No word spells two numbers, and each number has one spelling. That of a number of 64 bits is its decimal.
pub fn one_spelling()
    ensures number { (word : List ℕ) (y z : ℤ) → IsInt word y → IsInt word z → y ≡ z }
    ensures word { (word other : List ℕ) (z : ℤ) → IsInt word z → IsInt other z → word ≡ other }
    ensures spelled { (z : ℤ) → IsInt (int_text z) z }
    ensures decimal { (z : ℤ) → FitsSigned w64 z → IsInt (signed_decimal z) z }
{}
