//! Binomial coefficients.
ghost use Rattle.std.specs.Prelude.{◌≡◌, ◌≤◌};
ghost use Rattle.exact_math.specs.Binomials.{choose};

/// `C(n, k)`, the number of ways to choose `k` of `n`. Condition: `k <= n <= 62`.
///
/// `C(n, i + 1) = C(n, i) (n - i)/(i + 1)`, and each quotient is exact.
pub fn binomial(n: u32, k: u32) -> u128
    requires index { k ≤ n }
    requires most { n ≤ 62 }
    ensures { result ≡ choose n k }
{
    let mut ways: u128 = 1;
    for chosen in 0..k {
        ways = ways * u128::from(n - chosen) / u128::from(chosen + 1);
    }
    ways
}
