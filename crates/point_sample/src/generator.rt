//! The generator of samples.
ghost use Rattle.std.specs.Prelude.{◌≡◌, ◌/◌, ◌^◌, ◌<◌, ◌≤◌};
ghost use Rattle.point_sample.specs.Generator.{next_state, state_after};
ghost use Rattle.point_sample.specs.Sample.{component, coordinate, kind_of, next_point};

use limits::{FIRST_GRID, half};
use points::{Kind, Point};

/// A linear congruential generator of 32 bits.
#[derive(Drop)]
pub(crate) struct Generator {
    state: u32,
}

impl Generator {
    /// The generator that starts at this seed.
    pub(crate) fn new(seed: u32) -> Generator
        ensures { result.state ≡ seed }
    {
        Generator { state: seed }
    }

    /// Moves to the next state and gives its upper half.
    fn draw(&mut self) -> u16
        ensures state { self.new.state ≡ next_state self.old.state }
        ensures value { result ≡ self.new.state / 2 ^ 16 }
    {
        let next = self
            .state
            .wrapping_mul(1_664_525)
            .wrapping_add(1_013_904_223);
        self.state = next;
        (next >> 16) as u16
    }

    /// The point that the next five draws make.
    pub(crate) fn next_point(&mut self) -> Point
        ensures state { self.new.state ≡ state_after self.old.state 5 }
        ensures point { result ≡ next_point self.old.state }
    {
        let first = self.draw();
        let second = self.draw();
        let choice = self.draw();
        let strength = self.draw();
        let other = self.draw();
        let scale = choice / 4 % 4;
        Point {
            x: coordinate(first, scale),
            y: coordinate(second, scale),
            kind: kind_of(choice, strength, other),
        }
    }
}

/// A coordinate from the low end of the grid on, in the part of its side that the scale leaves.
fn coordinate(draw: u16, scale: u16) -> i64
    requires { scale < 4 }
    ensures { result ≡ coordinate draw scale }
{
    i64::from(draw >> (2 * scale)) - half(FIRST_GRID)
}

/// A part of a strength, at most `most` in size.
fn component(draw: u16, most: u16) -> i64
    requires { most ≤ 1000 }
    ensures { result ≡ component most draw }
{
    i64::from(draw % (2 * most + 1)) - i64::from(most)
}

/// A charge, a dipole or a target, with its strength.
fn kind_of(choice: u16, strength: u16, other: u16) -> Kind
    ensures { result ≡ kind_of choice strength other }
{
    match choice % 4 {
        0 | 1 => Kind::Charge(component(strength, 1000)),
        2 => Kind::Dipole(component(strength, 100), component(other, 100)),
        _ => Kind::Target,
    }
}
