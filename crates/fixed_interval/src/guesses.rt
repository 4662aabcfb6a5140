//! Quotients by a guess that is checked.
ghost use Rattle.std.specs.Prelude.{◌≡◌, ℕ, ◌^◌, ℤ, pos, ◌+ℤ◌, ◌-ℤ◌, ◌*ℤ◌, ◌≤ℤ◌, ◌<ℤ◌, IfSome};
ghost use Rattle.exact_math.specs.Rounding.{floor_div, ceil_div};
ghost use Rattle.exact_math.specs.Within.{Within};
ghost use Rattle.fixed_interval.specs.Division.{HasRest};

/// From this divisor on a guess is near.
const LEAST: i128 = 16;

/// Up to this divisor, whose float is exact, a guess is near.
const MOST: i128 = 1 << 52;

/// The digits of a float, without the leading one.
const DIGITS: u64 = 0xf_ffff_ffff_ffff;

/// What the quotients by one number are guessed from: `z / n` is about `(z >> shift) * factor / 2^66`.
///
/// No result depends on it, since each guess is checked: a good one saves a division, and a bad one costs the time of
/// the check.
#[derive(Clone, Copy, PartialEq, Eq, Debug)]
pub struct Reciprocal {
    factor: i64,
    shift: u32,
}

impl Reciprocal {
    /// The reciprocal whose guesses are good for a divisor `n` from 16 to 2^52 and quotients below 2^59 in size. For other
    /// divisors it saves no division.
    #[inline]
    pub fn of(n: i128) -> Reciprocal {
        if LEAST <= n && n <= MOST {
            return near(n as i64);
        }
        Reciprocal {
            factor: 0,
            shift: 0,
        }
    }

    /// About `z / n`, or any number where the reciprocal isn't that of `n`.
    #[inline(always)]
    fn guess(self, z: i128) -> i64 {
        let top = low_half(z >> (self.shift & 63));
        high_half(top, self.factor).wrapping_add(1) >> 2
    }
}

/// The low half of the bits.
#[inline(always)]
fn low_half(z: i128) -> i64 {
    ((z.cast_unsigned() & 0xffff_ffff_ffff_ffff) as u64).cast_signed()
}

/// The high half of the product.
#[inline(always)]
fn high_half(a: i64, b: i64) -> i64 {
    low_half(i128::from(a).wrapping_mul(i128::from(b)) >> 64)
}

/// The digits of the float nearest to `1 / n`, and one step of Newton's method, which makes them 63 bits.
#[inline(always)]
fn near(n: i64) -> Reciprocal
    requires least { pos 16 ≤ℤ n }
    requires most { n ≤ℤ pos (2 ^ 52) }
{
    let inverse = 1.0 / n as f64;
    if !(inverse > 0.0) {
        return Reciprocal {
            factor: 0,
            shift: 0,
        };
    }
    let bits = inverse.to_bits();
    let size = (1023u64.wrapping_sub(bits >> 52) & 63) as u32;
    let factor = (((bits & DIGITS) | (DIGITS + 1)) << 10).cast_signed();
    let rest = factor.wrapping_mul(n).wrapping_neg();
    let step = high_half(rest, factor) >> (size.wrapping_sub(2) & 63);
    Reciprocal {
        factor: factor.wrapping_add(step),
        shift: size.wrapping_sub(4) & 63,
    }
}

/// A quotient that rounds down, and what it leaves.
#[derive(Clone, Copy)]
pub struct Floor {
    pub quotient: i128,
    pub rest: i64,
}

/// What is left of `z` above a multiple of `n`.
#[inline(always)]
fn rest_of(z: i128, multiple: i64, n: i64) -> i128
    requires least { pos 1 ≤ℤ n }
    requires most { n ≤ℤ pos (2 ^ 62) }
    requires size { Within (2 ^ 126) z }
    ensures { result ≡ z -ℤ (multiple *ℤ n) }
{
    z - i128::from(multiple) * i128::from(n)
}

/// The quotient that rounds down, where the guess is that or one more.
#[inline(always)]
pub fn floor_by(z: i128, n: i64, reciprocal: Reciprocal) -> Option<Floor>
    requires least { pos 1 ≤ℤ n }
    requires most { n ≤ℤ pos (2 ^ 62) }
    requires size { Within (2 ^ 126) z }
    ensures { IfSome result (λ f. HasRest z n f.quotient f.rest) }
{
    let guess = reciprocal.guess(z);
    let rest = rest_of(z, guess, n);
    let divisor = i128::from(n);
    if rest < -divisor || divisor <= rest {
        return None;
    }
    let left = rest as i64;
    let quotient = i128::from(guess);
    if left < 0 {
        return Some(Floor {
            quotient: quotient - 1,
            rest: left + n,
        });
    }
    Some(Floor {
        quotient,
        rest: left,
    })
}

/// The least number of steps of `n` that reach `above`: 0 for 0, 1 up to `n`, 2 up to `2 n`.
#[inline(always)]
fn steps_to(above: i64, n: i64) -> i128
    requires least { pos 1 ≤ℤ n }
    requires from_zero { pos 0 ≤ℤ above }
    requires most { above ≤ℤ (n +ℤ n) }
    ensures reached { above ≤ℤ (result *ℤ n) }
    ensures near { (result *ℤ n) <ℤ (above +ℤ n) }
    ensures low { pos 0 ≤ℤ result }
    ensures high { result ≤ℤ pos 2 }
{
    if above == 0 {
        0
    } else if above <= n {
        1
    } else {
        2
    }
}

/// `ceil(hi / n)`, from the quotient of a number at most `n` below `hi` that rounds down.
#[inline(always)]
fn ceil_above(below: Floor, lo: i128, hi: i128, n: i64) -> i128
    requires least { pos 1 ≤ℤ n }
    requires most { n ≤ℤ pos (2 ^ 62) }
    requires ordered { lo ≤ℤ hi }
    requires near { (hi -ℤ n) ≤ℤ lo }
    requires size { Within (2 ^ 126) lo }
    requires floor { HasRest lo n below.quotient below.rest }
    ensures { result ≡ ceil_div hi n }
{
    let above = below.rest + (hi - lo) as i64;
    below.quotient + steps_to(above, n)
}

/// A quotient that rounds down and one that rounds up.
#[derive(Clone, Copy)]
pub struct Quotients {
    pub lo: i128,
    pub hi: i128,
}

/// `floor(lo / n)` and `ceil(hi / n)`, where the guesses pass the check.
#[inline(always)]
pub fn quotients_by(lo: i128, hi: i128, n: i64, reciprocal: Reciprocal) -> Option<Quotients>
    requires least { pos 1 ≤ℤ n }
    requires most { n ≤ℤ pos (2 ^ 62) }
    requires ordered { lo ≤ℤ hi }
    requires low_end { Within (2 ^ 126) lo }
    requires high_end { Within (2 ^ 126) hi }
    ensures lo { IfSome result (λ q. q.lo ≡ floor_div lo n) }
    ensures hi { IfSome result (λ q. q.hi ≡ ceil_div hi n) }
{
    let below = floor_by(lo, n, reciprocal)?;
    if hi - i128::from(n) <= lo {
        return Some(Quotients {
            lo: below.quotient,
            hi: ceil_above(below, lo, hi, n),
        });
    }
    let above = floor_by(-hi, n, reciprocal)?;
    Some(Quotients {
        lo: below.quotient,
        hi: -above.quotient,
    })
}
