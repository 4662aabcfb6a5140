//! A text that grows at its front, as numbers are written: from the last digit to the first.
ghost use Rattle.std.specs.Prelude.{◌≡◌, ℕ, ◌+◌, ◌^◌, ◌≤◌, ◌<◌, List, [], ◌∷◌, ◌++◌, length, drop, decimal};
ghost use Rattle.std.specs.Fmt.{signed_decimal};
ghost use Rattle.exact_math.specs.Within.{Within};
ghost use Rattle.limits.specs.Limits.{most_printed};
ghost use Rattle.line_text.specs.Decimals.{digits_in, decimal_text};

use std::marker::Model;

/// The digits of a decimal behind its point.
const PLACES: u32 = 12;

/// How many counts of 10^-12 make 1.
const ONE: i128 = 1_000_000_000_000;

/// A text that grows at its front, in a buffer of `N` bytes. A clause sees the text.
#[derive(Drop)]
pub struct FrontText<const N: usize> {
    buffer: [u8; N],
    start: usize,
}

impl<const N: usize> Model for FrontText<N> {
    ghost Value = { List ℕ };

    ghost view = { λ t. drop t.start t.buffer };

    ghost invariant = { λ t. t.start ≤ N };
}

impl<const N: usize> FrontText<N> {
    /// The empty text.
    pub fn new() -> FrontText<N>
        ensures { result ≡ [] }
    {
        FrontText {
            buffer: [0; N],
            start: N,
        }
    }

    /// The text.
    pub fn as_bytes(&self) -> &[u8]
        ensures { result.now ≡ self.now }
    {
        let buffer = &self.buffer[..];
        &buffer[self.start..]
    }

    /// Puts a byte before the text.
    pub fn prepend(&mut self, byte: u8)
        requires { length self.old < N }
        ensures { self.new ≡ byte ∷ self.old }
    {
        self.start -= 1;
        self.buffer[self.start] = byte;
    }

    /// Puts a word before the text.
    pub fn prepend_word(&mut self, word: &[u8])
        requires { length word.now + length self.old ≤ N }
        ensures { self.new ≡ word.now ++ self.old }
    {
        let end = self.start;
        self.start -= word.len();
        let buffer = &mut self.buffer[..];
        buffer[self.start..end].copy_from_slice(word);
    }

    /// Puts a whole number before the text.
    pub fn prepend_decimal(&mut self, n: u64)
        requires { 20 + length self.old ≤ N }
        ensures text { self.new ≡ decimal n ++ self.old }
        ensures length { length self.new ≤ 20 + length self.old }
    {
        let mut rest = n;
        while rest >= 10 {
            self.prepend(b'0' + (rest % 10) as u8);
            rest /= 10;
        }
        self.prepend(b'0' + rest as u8);
    }

    /// Puts a whole number of up to 128 bits before the text.
    pub fn prepend_wide(&mut self, n: u128)
        requires { 39 + length self.old ≤ N }
        ensures text { self.new ≡ decimal n ++ self.old }
        ensures length { length self.new ≤ 39 + length self.old }
    {
        let mut rest = n;
        while rest >= 10 {
            self.prepend(b'0' + (rest % 10) as u8);
            rest /= 10;
        }
        self.prepend(b'0' + rest as u8);
    }

    /// Puts a whole number before the text, `-` first where it is below 0.
    pub fn prepend_int(&mut self, z: i64)
        requires { 21 + length self.old ≤ N }
        ensures text { self.new ≡ signed_decimal z ++ self.old }
        ensures length { length self.new ≤ 21 + length self.old }
    {
        self.prepend_decimal(z.unsigned_abs());
        if z < 0 {
            self.prepend(b'-');
        }
    }

    /// Puts a whole number of up to 128 bits before the text, `-` first where it is below 0.
    pub fn prepend_wide_int(&mut self, z: i128)
        requires { 40 + length self.old ≤ N }
        ensures text { self.new ≡ signed_decimal z ++ self.old }
        ensures length { length self.new ≤ 40 + length self.old }
    {
        self.prepend_wide(z.unsigned_abs());
        if z < 0 {
            self.prepend(b'-');
        }
    }

    /// Puts the last 12 digits of a number before the text.
    pub fn prepend_places(&mut self, n: u64)
        requires { 12 + length self.old ≤ N }
        ensures text { self.new ≡ digits_in 12 n ++ self.old }
        ensures length { length self.new ≡ 12 + length self.old }
    {
        let mut rest = n;
        for place in 0..PLACES {
            self.prepend(b'0' + (rest % 10) as u8);
            rest /= 10;
        }
    }

    /// Puts the decimal of a count of 10^-12, which is at most 2^96 in size, before the text.
    pub fn prepend_count(&mut self, count: i128)
        requires size { Within most_printed count }
        requires room { 34 + length self.old ≤ N }
        ensures text { self.new ≡ decimal_text count ++ self.old }
        ensures length { length self.new ≤ 34 + length self.old }
    {
        let size = count.unsigned_abs();
        let one = ONE as u128;
        self.prepend_places((size % one) as u64);
        self.prepend(b'.');
        self.prepend_decimal((size / one) as u64);
        if count < 0 {
            self.prepend(b'-');
        }
    }
}
