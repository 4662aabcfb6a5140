//! Counts as decimals.
ghost use Rattle.std.specs.Prelude.{◌≡◌, ℕ, List};
ghost use Rattle.exact_math.specs.Within.{Within};
ghost use Rattle.limits.specs.Limits.{most_printed};
ghost use Rattle.line_text.specs.Decimals.{decimal_text};

use line_text::FrontText;
use std::marker::Model;

/// The decimal text of a count of 10^-12: `-` exactly where the count is negative, the whole part
/// without leading zeros, a point, and 12 digits. A clause sees the text.
#[derive(Drop)]
pub struct Decimal {
    text: FrontText<48>,
}

impl Model for Decimal {
    ghost Value = { List ℕ };

    ghost view = { λ d. d.text };
}

impl Decimal {
    /// The text of a count, which is at most 2^96 in size.
    pub fn of(count: i128) -> Decimal
        requires { Within most_printed count }
        ensures { result ≡ decimal_text count }
    {
        let mut text = FrontText::new();
        text.prepend_count(count);
        Decimal { text }
    }

    pub fn bytes(&self) -> &[u8]
        ensures { result.now ≡ self.now }
    {
        self.text.as_bytes()
    }
}
