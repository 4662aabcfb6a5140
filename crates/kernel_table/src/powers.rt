//! The powers of the kernel at one distance, and an entry from a power.
ghost use Rattle.std.specs.Prelude.{◌≡◌, ◌+◌, ◌^◌, ◌≤◌, ℤ, pos, ◌≤ℤ◌, vec_len, IfOk};
ghost use Rattle.exact_math.specs.Ends.{scale_box, quot_box, gquot_box};
ghost use Rattle.exact_math.specs.Gaussian.{norm_gaussian, conj, scale_gaussian};
ghost use Rattle.complex_box.specs.Box.{box_ends, number, BoxWithin};
ghost use Rattle.kernel_table.specs.Kernel.{IsKernelDistance, kernel_power, alternate_box};
ghost use Rattle.kernel_table.specs.Table.{ArePowers};

use complex_box::{CBox, Gauss};
use std::alloc::{AllocError, Global};

/// The unit of the powers' numerators, which is finer than that of the entries.
const POWER_UNITS: i128 = 1 << 60;

/// `re^2 + im^2`.
fn norm(e: Gauss) -> i128
    requires { IsKernelDistance (number e) }
    ensures value { result ≡ norm_gaussian (number e) }
    ensures positive { pos 1 ≤ℤ result }
    ensures small { result ≤ℤ pos 18 }
{
    let re = i128::from(e.re);
    let im = i128::from(e.im);
    re * re + im * im
}

/// `2^60 conj e/norm e`.
fn first_power(e: Gauss) -> CBox
    requires { IsKernelDistance (number e) }
    ensures { box_ends result ≡ kernel_power (number e) 0 }
{
    let numerator = CBox::point(
        POWER_UNITS * i128::from(e.re),
        -(POWER_UNITS * i128::from(e.im)),
    );
    numerator.quot(norm(e))
}

/// The power times `2 conj e/norm e`.
fn next_power(power: CBox, e: Gauss) -> CBox
    requires distance { IsKernelDistance (number e) }
    requires size { BoxWithin (2 ^ 60) power }
    ensures { box_ends result ≡ gquot_box (box_ends power) (conj (scale_gaussian 2 (number e))) (norm_gaussian (number e)) }
{
    let factor = Gauss {
        re: 2 * e.re,
        im: -(2 * e.im),
    };
    power.gquot(factor, norm(e))
}

/// The first `count` powers. The power `n` stands for `2^(60 + n)/e^(n + 1)`.
pub fn first_powers(alloc: Global, e: Gauss, count: usize) -> Result<Vec<CBox>, AllocError>
    requires distance { IsKernelDistance (number e) }
    requires most { count ≤ 63 }
    ensures len { IfOk result (λ powers. vec_len powers ≡ count) }
    ensures powers { IfOk result (λ powers. ArePowers (number e) powers.items) }
{
    let mut powers = Vec::with_capacity(alloc, count)?;
    let mut power = first_power(e);
    for n in 0..count {
        powers.push(power)?;
        power = next_power(power, e);
    }
    Ok(powers)
}

/// The entry `(k, l)` from the power `k + l` and the binomial `C(k + l, k)`: one product, one shift and the sign of `l`.
pub fn entry_of(power: CBox, ways: i128, k: usize, l: usize) -> CBox
    requires orders { k + l ≤ 62 }
    requires size { BoxWithin (2 ^ 60) power }
    requires least { pos 0 ≤ℤ ways }
    requires most { ways ≤ℤ pos (2 ^ 62) }
    ensures { box_ends result ≡ alternate_box l (quot_box (scale_box (box_ends power) ways) (pos (2 ^ (k + l + 20)))) }
{
    let entry = power.scale(ways).quot_shift((k + l + 20) as u32);
    if l % 2 == 0 { entry } else { entry.neg() }
}
