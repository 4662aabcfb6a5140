//! Particles, what they are to the sum, and lists of them within their limits.
#![tactic(auto)]

ghost use Rattle.std.specs.Prelude.{◌≡◌, ◌≤◌, List, [], ◌∷◌, ◌++◌, ◌↔◌, IsTrue, OnOk, OnErr};
ghost use Rattle.exact_math.specs.Gaussian.{gaussian};
ghost use Rattle.exact_math.specs.Sizes.{weight_at};
ghost use Rattle.limits.specs.Limits.{IsGrid, most_strength, widest_grid};
ghost use Rattle.points.specs.Limits.{InRange, IsKindOf, HasStrength, weight64};
ghost use Rattle.points.specs.Points.{pole, dipole, strength, is_source};
ghost use Rattle.points.specs.Strength.{StrengthWithin};

use io_ports::Memory;
use limits::{FIRST_GRID, MOST_STRENGTH, in_grid};
use std::alloc::Global;
use std::marker::Model;

/// What a particle is.
#[derive(Clone, Copy, PartialEq, Eq, Debug)]
pub enum Kind {
    /// A charge `q`: the term `q/(t - z)`.
    Charge(i64),
    /// A dipole `(re, im)`: the term `(re + i im)/(t - z)^2`.
    Dipole(i64, i64),
    /// A point vortex of circulation `g`: the term `-i g/(t - z)`.
    Vortex(i64),
    /// A place where the field is asked for.
    Target,
    /// A pole `a = re + i im`: the term `a/(t - z)`; in texts of version 2 alone.
    Pole(i64, i64),
}

/// What a particle adds to the sum at a target `t`, from its place `z`.
#[derive(Clone, Copy, PartialEq, Eq, Debug)]
pub enum Strength {
    /// A pole `a = re + i im`: the term `a/(t - z)`.
    Pole(i64, i64),
    /// A dipole `b = re + i im`: the term `b/(t - z)^2`.
    Dipole(i64, i64),
    /// No term.
    Nothing,
}

impl Kind {
    /// A charge `q` is the pole `q`, a vortex of circulation `g` the pole `-i g`, a pole is itself, a target adds
    /// nothing.
    ///
    /// The kind's strength is within its limit.
    pub fn strength(self) -> Strength
        requires { HasStrength self }
        ensures value { result ≡ strength self }
        ensures size { StrengthWithin most_strength result }
    {
        match self {
            Kind::Charge(q) => Strength::Pole(q, 0),
            Kind::Dipole(re, im) => Strength::Dipole(re, im),
            Kind::Vortex(g) => Strength::Pole(0, -g),
            Kind::Target => Strength::Nothing,
            Kind::Pole(re, im) => Strength::Pole(re, im),
        }
    }

    /// Whether it adds to the field: a charge, a dipole, a vortex or a pole, but no target.
    pub fn is_source(self) -> bool
        ensures { result ≡ is_source self }
    {
        self != Kind::Target
    }

    /// Whether texts whose grid has so many bits have points of the kind: a pole stands in version 2 alone.
    fn is_of(self, grid: u8) -> bool
        ensures { IsTrue result ↔ IsKindOf grid self }
    {
        match self {
            Kind::Pole(_, _) => grid != FIRST_GRID,
            Kind::Charge(_) | Kind::Dipole(_, _) | Kind::Vortex(_) | Kind::Target => true,
        }
    }
}

/// Whether each strength component is within its limit.
fn has_strength(kind: &Kind) -> bool
    ensures { IsTrue result ↔ HasStrength kind.now }
{
    match *kind {
        Kind::Charge(q) => q.unsigned_abs() <= MOST_STRENGTH,
        Kind::Dipole(re, im) => re.unsigned_abs() <= MOST_STRENGTH
            && im.unsigned_abs() <= MOST_STRENGTH,
        Kind::Vortex(g) => g.unsigned_abs() <= MOST_STRENGTH,
        Kind::Target => true,
        Kind::Pole(re, im) => re.unsigned_abs() <= MOST_STRENGTH
            && im.unsigned_abs() <= MOST_STRENGTH,
    }
}

/// A particle at a whole place of the grid.
#[derive(Clone, Copy, PartialEq, Eq, Debug)]
pub struct Point {
    pub x: i64,
    pub y: i64,
    pub kind: Kind,
}

/// What the text asks for: the field of charges, dipoles and poles, or the velocity of vortices, dipoles and poles.
#[derive(Clone, Copy, PartialEq, Eq, Debug)]
pub enum Mode {
    Field,
    Velocity,
}

impl Point {
    /// Whether the place is in the grid of so many bits, the kind is one of that grid's version, and each strength
    /// component is within its limit. So a pole is out of range in version 1.
    ///
    /// `grid` is 16 or 20.
    pub fn is_in_range(&self, grid: u8) -> bool
        requires { IsGrid grid }
        ensures { IsTrue result ↔ InRange grid self.now }
    {
        in_grid(grid, self.x, self.y) && self.kind.is_of(grid) && has_strength(&self.kind)
    }

    /// The pole `a` as its two parts: `(q, 0)` for a charge `q`, `(0, -g)` for a vortex `g`, `(re, im)` for a pole
    /// `re + i im`, else zero.
    ///
    /// The point is in range of some version.
    pub fn pole(&self) -> (i64, i64)
        requires { InRange widest_grid self.now }
        ensures { gaussian result.0 result.1 ≡ pole self.now.kind }
    {
        match self.kind.strength() {
            Strength::Pole(re, im) => (re, im),
            Strength::Dipole(_, _) | Strength::Nothing => (0, 0),
        }
    }

    /// The dipole `b` as its two parts, zero for what is no dipole.
    pub fn dipole(&self) -> (i64, i64)
        ensures { gaussian result.0 result.1 ≡ dipole self.now.kind }
    {
        match self.kind {
            Kind::Dipole(re, im) => (re, im),
            Kind::Charge(_) | Kind::Vortex(_) | Kind::Target | Kind::Pole(_, _) => (0, 0),
        }
    }

    /// The weight `abs(a) + 2 order abs(b)` at an order, where `abs` of a complex number is `abs(re) + abs(im)`: how much an
    /// expansion that is cut off at the order can leave of the point, but for a factor.
    ///
    /// The point is in range of some version, and `order` is 1 to 32.
    pub fn weight(&self, order: u32) -> u64
        requires range { InRange widest_grid self.now }
        requires least { 1 ≤ order }
        requires most { order ≤ 32 }
        ensures { result ≡ weight_at order (pole self.now.kind) (dipole self.now.kind) }
    {
        match self.kind.strength() {
            Strength::Pole(re, im) => re.unsigned_abs() + im.unsigned_abs(),
            Strength::Dipole(re, im) => 2
                * u64::from(order)
                * (re.unsigned_abs() + im.unsigned_abs()),
            Strength::Nothing => 0,
        }
    }

    /// The weight at order 32, `abs(a) + 64 abs(b)`, which the text limits.
    ///
    /// The point is in range of some version.
    pub fn weight64(&self) -> u64
        requires { InRange widest_grid self.now }
        ensures { result ≡ weight64 self.now }
    {
        self.weight(32)
    }
}

/// A list of points, which contracts see as the list of them.
#[derive(Drop)]
pub struct PointList {
    points: Vec<Point>,
}

impl Model for PointList {
    ghost use Rattle.std.specs.Prelude.{List};
    ghost use Rattle.points.specs.declared.Point.{Point};

    ghost Value = { List Point };

    ghost view = { λ l. l.points.items };
}

impl PointList {
    /// The empty list. It takes no memory.
    pub fn new(alloc: Global) -> PointList
        ensures { result ≡ [] }
    {
        PointList {
            points: Vec::new(alloc),
        }
    }

    /// Appends a point.
    pub fn push(&mut self, p: Point) -> Result<(), Memory>
        ensures pushed { OnOk result (self.new ≡ self.old ++ p ∷ []) }
        ensures kept { OnErr result (self.new ≡ self.old) }
    {
        match self.points.push(p) {
            Ok(()) => Ok(()),
            Err(_) => Err(Memory),
        }
    }

    /// All points in order.
    pub fn points(&self) -> &[Point]
        ensures { result.now ≡ self.now }
    {
        self.points.as_slice()
    }
}

/// What a text spells: its version, a mode and a list of points.
#[derive(Drop)]
pub struct Points {
    pub version: u8,
    pub mode: Mode,
    pub list: PointList,
}
