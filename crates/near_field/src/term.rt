//! The exact term of a source, as whole numbers over a denominator.
ghost use Rattle.std.specs.Prelude.{◌≡◌, ◌+◌, ◌*◌, ◌^◌, ℤ, pos, ◌+ℤ◌, ◌-ℤ◌, ◌*ℤ◌, ◌≤ℤ◌};
ghost use Rattle.exact_math.specs.Gaussian.{gaussian, norm_gaussian};
ghost use Rattle.exact_math.specs.Within.{Within};
ghost use Rattle.limits.specs.Limits.{most_strength, widest_grid};
ghost use Rattle.points.specs.Limits.{InRange};
ghost use Rattle.points.specs.Points.{strength};
ghost use Rattle.exact_math.specs.Terms.{pole_term, dipole_term};
ghost use Rattle.complex_box.specs.Box.{box_ends};
ghost use Rattle.near_field.specs.Pair.{outward, strength_term};
ghost use Rattle.near_field.specs.Private.{ratio_of};

use complex_box::{CBox, UNIT};
use points::{Point, Strength};

/// The fraction `(re + i im)/denominator`.
#[derive(Clone, Copy)]
pub(crate) struct Term {
    pub(crate) re: i64,
    pub(crate) im: i64,
    pub(crate) denominator: i128,
}

/// `a b + c d`.
fn sum_of_products(a: i64, b: i64, c: i64, d: i64) -> i64
    requires first { Within (2 ^ 61) (a *ℤ b) }
    requires second { Within (2 ^ 61) (c *ℤ d) }
    ensures value { result ≡ a *ℤ b +ℤ c *ℤ d }
    ensures size { Within (2 ^ 62) result }
{
    a * b + c * d
}

/// `a b - c d`.
fn difference_of_products(a: i64, b: i64, c: i64, d: i64) -> i64
    requires first { Within (2 ^ 61) (a *ℤ b) }
    requires second { Within (2 ^ 61) (c *ℤ d) }
    ensures value { result ≡ a *ℤ b -ℤ c *ℤ d }
    ensures size { Within (2 ^ 62) result }
{
    a * b - c * d
}

/// `dx^2 + dy^2`.
fn norm(dx: i64, dy: i64) -> i64
    requires size { Within (2 ^ widest_grid) dx × Within (2 ^ widest_grid) dy }
    ensures value { result ≡ norm_gaussian (gaussian dx dy) }
    ensures size { Within (2 ^ (2 * widest_grid + 1)) result }
{
    sum_of_products(dx, dx, dy, dy)
}

/// `a conj(d)` over `norm(d)`, for the pole `a = (re, im)` and the distance `d = (dx, dy)`.
fn pole_over(re: i64, im: i64, dx: i64, dy: i64) -> Term
    requires pole { Within most_strength re × Within most_strength im }
    requires size { Within (2 ^ widest_grid) dx × Within (2 ^ widest_grid) dy }
    ensures { ratio_of result ≡ pole_term (gaussian re im) (gaussian dx dy) }
{
    Term {
        re: sum_of_products(re, dx, im, dy),
        im: difference_of_products(im, dx, re, dy),
        denominator: i128::from(norm(dx, dy)),
    }
}

/// `b conj(d)^2` over `norm(d)^2`, for the dipole `b = (re, im)` and the distance `d = (dx, dy)`.
fn dipole_over(re: i64, im: i64, dx: i64, dy: i64) -> Term
    requires dipole { Within most_strength re × Within most_strength im }
    requires size { Within (2 ^ widest_grid) dx × Within (2 ^ widest_grid) dy }
    ensures { ratio_of result ≡ dipole_term (gaussian re im) (gaussian dx dy) }
{
    let across = difference_of_products(dx, dx, dy, dy);
    let twice = sum_of_products(dx, dy, dx, dy);
    let size = norm(dx, dy);
    Term {
        re: sum_of_products(re, across, im, twice),
        im: difference_of_products(im, across, re, twice),
        denominator: i128::from(size) * i128::from(size),
    }
}

/// The term of a point at a distance: `a/d` of a pole `a`, `b/d^2` of a dipole `b`, 0 of a target.
pub(crate) fn contribution(p: &Point, dx: i64, dy: i64) -> Term
    requires range { InRange widest_grid p.now }
    requires size { Within (2 ^ widest_grid) dx × Within (2 ^ widest_grid) dy }
    ensures { ratio_of result ≡ strength_term (strength p.now.kind) (gaussian dx dy) }
{
    match p.kind.strength() {
        Strength::Pole(re, im) => pole_over(re, im, dx, dy),
        Strength::Dipole(re, im) => dipole_over(re, im, dx, dy),
        Strength::Nothing => Term {
            re: 0,
            im: 0,
            denominator: 1,
        },
    }
}

/// A fraction in units of 2^-40, both parts rounded outward.
pub(crate) fn enclosed(term: Term) -> CBox
    requires { pos 1 ≤ℤ term.denominator }
    ensures { box_ends result ≡ outward (ratio_of term) }
{
    let re = i128::from(term.re) * UNIT;
    let im = i128::from(term.im) * UNIT;
    CBox::point(re, im).quot(term.denominator)
}
