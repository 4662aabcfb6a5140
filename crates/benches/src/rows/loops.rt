//! The loops that are measured.
ghost use Rattle.std.specs.Prelude.{◌≤◌, ◌^◌, ◌+◌, ◌*◌};
ghost use Rattle.limits.specs.Limits.{first_grid};
ghost use Rattle.points.specs.Limits.{HasStrength, IsKindOf};
ghost use Rattle.exact_math.specs.Sizes.{abs_gaussian};
ghost use Rattle.points.specs.Points.{pole, dipole};

use super::samples::{cell, distance, inside, outside, quadrant, sample_row};
use complex_box::{CBox, Row, Work};
use kernel_table::Kernel;
use local_expansion::{add_far_source, at_local, convert};
use local_shift::shift_down;
use multipole::{add_source, at_multipole};
use multipole_shift::shift_up;
use points::Kind;

/// What a loop calls.
#[derive(Clone, Copy)]
pub enum Operation {
    ShiftUp,
    Convert,
    ShiftDown,
    AddCharge,
    AddDipole,
    AddFarCharge,
    AddFarDipole,
    AtLocal,
    AtMultipole,
}

impl Operation {
    pub const ALL: [Operation; 9] = [
        Operation::ShiftUp,
        Operation::Convert,
        Operation::ShiftDown,
        Operation::AddCharge,
        Operation::AddDipole,
        Operation::AddFarCharge,
        Operation::AddFarDipole,
        Operation::AtLocal,
        Operation::AtMultipole,
    ];

    pub fn name(self) -> &'static str {
        match self {
            Operation::ShiftUp => "shift_up",
            Operation::Convert => "convert",
            Operation::ShiftDown => "shift_down",
            Operation::AddCharge => "add_source charge",
            Operation::AddDipole => "add_source dipole",
            Operation::AddFarCharge => "add_far_source charge",
            Operation::AddFarDipole => "add_far_source dipole",
            Operation::AtLocal => "at_local",
            Operation::AtMultipole => "at_multipole",
        }
    }

    /// How many calls take some 0.3 seconds.
    pub fn many(self) -> u32
        ensures some { 1 ≤ result }
        ensures most { result ≤ 2 ^ 20 }
    {
        match self {
            Operation::ShiftUp | Operation::ShiftDown => 300_000,
            Operation::Convert => 50_000,
            Operation::AddCharge | Operation::AddDipole => 500_000,
            Operation::AddFarCharge | Operation::AddFarDipole => 150_000,
            Operation::AtLocal | Operation::AtMultipole => 150_000,
        }
    }

    /// Calls it `count` times, and folds what comes of it into one number.
    pub fn run(self, kernel: &Kernel<16>, count: u32) -> i128
        requires { count ≤ 2 ^ 20 }
    {
        match self {
            Operation::ShiftUp => shift_ups(count),
            Operation::Convert => conversions(kernel, count),
            Operation::ShiftDown => shift_downs(count),
            Operation::AddCharge => sources(count, Kind::Charge(1000)),
            Operation::AddDipole => sources(count, Kind::Dipole(300, -400)),
            Operation::AddFarCharge => far_sources(count, Kind::Charge(1000)),
            Operation::AddFarDipole => far_sources(count, Kind::Dipole(300, -400)),
            Operation::AtLocal => local_values(count),
            Operation::AtMultipole => multipole_values(count),
        }
    }
}

#[inline]
fn folded(b: CBox) -> i128 {
    b.re.lo ^ b.re.hi.wrapping_mul(3) ^ b.im.lo.wrapping_mul(5) ^ b.im.hi.wrapping_mul(7)
}

fn folded_row(row: &[CBox; 16]) -> i128 {
    let mut all = 0i128;
    for k in 0..16usize {
        all = all.wrapping_mul(31) ^ folded(row[k]);
    }
    all
}

/// The row from each of four quadrants in turn, added up.
fn shift_ups(count: u32) -> i128
    requires { count ≤ 2 ^ 20 }
{
    let row = sample_row();
    let mut into = [CBox::zero(); 16];
    let mut work = Work::new();
    for n in 0..count {
        shift_up::<16>(Row::new(&row), quadrant(n), &mut into, &mut work);
    }
    folded_row(&into)
}

/// The row at fourteen distances in turn, added up.
fn conversions(kernel: &Kernel<16>, count: u32) -> i128
    requires { count ≤ 2 ^ 20 }
{
    let row = sample_row();
    let mut into = [CBox::zero(); 16];
    let mut work = Work::new();
    for n in 0..count {
        convert::<16>(kernel, Row::new(&row), distance(n), &mut into, &mut work);
    }
    folded_row(&into)
}

/// The row brought down to each of four quadrants in turn, added up.
fn shift_downs(count: u32) -> i128
    requires { count ≤ 2 ^ 20 }
{
    let row = sample_row();
    let mut into = [CBox::zero(); 16];
    let mut work = Work::new();
    for n in 0..count {
        shift_down::<16>(Row::new(&row), quadrant(n), &mut into, &mut work);
    }
    folded_row(&into)
}

/// Points of a kind in the cell, added up.
fn sources(count: u32, kind: Kind) -> i128
    requires count { count ≤ 2 ^ 20 }
    requires strength { HasStrength kind }
    requires weight { abs_gaussian (pole kind) + 64 * abs_gaussian (dipole kind) ≤ 2 ^ 17 }
{
    let cell = cell();
    let mut into = [CBox::zero(); 16];
    for n in 0..count {
        add_source::<16>(&mut into, cell, &inside(n, kind));
    }
    folded_row(&into)
}

/// Points of a kind far from the cell, added up.
fn far_sources(count: u32, kind: Kind) -> i128
    requires count { count ≤ 2 ^ 20 }
    requires strength { HasStrength kind }
    requires version { IsKindOf first_grid kind }
    requires weight { abs_gaussian (pole kind) + 64 * abs_gaussian (dipole kind) ≤ 2 ^ 17 }
{
    let cell = cell();
    let mut into = [CBox::zero(); 16];
    for n in 0..count {
        add_far_source::<16>(&mut into, cell, &outside(n, kind));
    }
    folded_row(&into)
}

/// The values of the row at places of the cell.
fn local_values(count: u32) -> i128
    requires { count ≤ 2 ^ 20 }
{
    let row = sample_row();
    let cell = cell();
    let mut all = 0i128;
    for n in 0..count {
        let at = inside(n, Kind::Target);
        all = all.wrapping_add(folded(at_local::<16>(Row::new(&row), cell, at.x, at.y)));
    }
    all
}

/// The values of the row at places far from the cell.
fn multipole_values(count: u32) -> i128
    requires { count ≤ 2 ^ 20 }
{
    let row = sample_row();
    let cell = cell();
    let mut all = 0i128;
    for n in 0..count {
        let at = outside(n, Kind::Target);
        all = all.wrapping_add(folded(at_multipole::<16>(Row::new(&row), cell, at.x, at.y)));
    }
    all
}
