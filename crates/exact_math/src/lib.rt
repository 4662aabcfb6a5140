//! Exact mathematics: the definitions that contracts rest on, and the algebra that proofs stand on. Nothing here runs.
//!
//! `specs/` says what a reader has to believe: fractions of whole numbers and what whole ends contain, rounding, sizes, Gaussian integers,
//! the rounded operations, the terms of the direct sum and the truncated kernel. `proofs/` has rings with a tactic, the rational and the
//! complex numbers with rational parts, sums, binomials and the bridges from the definitions to them.
#![tactic(auto)]

ghost use Rattle.exact_math.specs.Orders.{OrderBounds};
ghost use Rattle.exact_math.specs.Rounding.{FloorIsGreatest, CeilIsLeast};
ghost use Rattle.exact_math.specs.TruncatedKernel.{KernelIdentity, KernelSlopeIdentity};

/// The finite identity of the truncated kernel and its derivative by `x`, for all complex fractions `x` and `y` and every order `P` from
/// 1 on: `1 - (1 - x - y) T = N` and `T - (1 - x - y) T' = N'`. `T` is the sum of `C(k + l, k) x^k y^l` over `k, l < P`, the square of
/// side `P` cut out of the series of `1/(1 - x - y)`, and `N` the sum of `C(P + l - 1, l) (x^P y^l + y^P x^l)` over `l < P`. The
/// truncation bound of two cells of one side starts from these two equations: with `d` the difference of the centres, `u` and `v` the
/// offsets of source and target, `x = u/d` and `y = -v/d`, the distance is `d (1 - x - y)`.
pub fn kernel_identity()
    ensures identity { KernelIdentity }
    ensures slope { KernelSlopeIdentity }
{}

/// Rounding by a whole number `n` from 1 on: `m n <= z` exactly where `m <= floor_div z n`, and `z <= m n` exactly where
/// `ceil_div z n <= m`. So the first is the greatest whole number that is at most `z/n`, and the second the least that is at least
/// `z/n`, whatever the signs.
pub fn rounding()
    ensures floor { FloorIsGreatest }
    ensures ceil { CeilIsLeast }
{}

/// Each order of expansion that the program offers is from 2 to 32: a dipole needs 2, and rows, powers and tails serve up to 32.
pub fn order_bounds()
    ensures { OrderBounds }
{}
