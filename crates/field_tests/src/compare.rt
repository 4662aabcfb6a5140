//! What several fields are made of and give.
ghost use Rattle.std.specs.Prelude.{◌≡◌, IfOk};
ghost use Rattle.exact_math.specs.Orders.{IsOrder};
ghost use Rattle.limits.specs.Limits.{grid_of};
ghost use Rattle.points.specs.Limits.{IsOrderOf, WithinLimits};

use bumpalo::Bump;
use complex_box::CBox;
use points::Points;
use solve_phase::{Field, solve_alone};
use std::alloc::Global;
use std::process::Abort;
use std::test::Fail;
use test_boxes::{Ends, ends};
use test_points::{points_of, wide_points_of};

/// Nine charges at the origin.
pub const NINE_CHARGES: (u32, &str) = (9, "charge 0 0 1\n");

/// The box of a target at (8, 0) of nine charges at the origin, at order 4.
pub const FAR_TARGET: Ends = (
    (1_127_786_607_614, 1_373_822_247_902),
    (-75_518_917_824, 170_516_722_464),
);

/// Points outside the grid of version 1, with entries of each letter.
pub const EACH_LETTER: [(u32, &str); 5] = [
    (9, "pole 300000 -400000 3 -4\n"),
    (9, "target 300002 -400000\n"),
    (1, "target 300008 -399999\n"),
    (1, "dipole 300008 -399992 5 -7\n"),
    (1, "target 300001 -400000\n"),
];

/// A field whose numbers are known from elsewhere, and whose targets have the same box.
#[derive(Drop)]
pub struct Known {
    /// The lines, each so many times.
    pub lines: &'static [(u32, &'static str)],
    pub cells: usize,
    pub translations: u64,
    pub pairs: u64,
    pub targets: usize,
    pub ends: Ends,
}

/// The field of the points at capacity 8.
pub fn solved<'a, const P: usize>(
    alloc: Global,
    points: &Points,
    arena: &'a Bump,
) -> Result<Field<'a, P>, Fail>
    requires list { WithinLimits points.now }
    requires order { IsOrderOf (grid_of points.now.version) P }
{
    Ok(solve_alone::<P>(alloc, points, 8, arena)?)
}

/// The field of these lines at order 4.
pub fn field_of<'a>(
    alloc: Global,
    lines: &[(u32, &str)],
    arena: &'a Bump,
) -> Result<Field<'a, 4>, Fail> {
    let points = points_of(alloc, lines)?;
    solved::<4>(alloc, &points, arena)
}

/// The points of these lines in a text of version 2.
pub fn points_of_version_2(alloc: Global, lines: &[(u32, &str)]) -> Result<Points, Fail>
    ensures within { IfOk result (λ points. WithinLimits points) }
    ensures version { IfOk result (λ points. points.version ≡ 2) }
{
    let points = wide_points_of(alloc, lines)?;
    if points.version != 2 {
        return Err(Fail::new("the text is of version 2"));
    }
    Ok(points)
}

/// The field of these lines in a text of version 2.
pub fn wide_field_of<'a, const P: usize>(
    alloc: Global,
    lines: &[(u32, &str)],
    arena: &'a Bump,
) -> Result<Field<'a, P>, Fail>
    requires { IsOrder P }
{
    let points = points_of_version_2(alloc, lines)?;
    solved::<P>(alloc, &points, arena)
}

/// The box has these ends.
pub fn ends_are(rt: &impl Abort, got: CBox, known: Ends) {
    assert_eq!(rt; ends(got), known);
}

/// The box of each target has these ends.
fn boxes_are<const P: usize>(rt: &impl Abort, field: &Field<P>, known: Ends) {
    for k in 0..field.targets() {
        ends_are(rt, field.value(k), known);
    }
}

/// The field has these numbers and boxes.
pub fn is_known<const P: usize>(rt: &impl Abort, field: &Field<P>, known: &Known) {
    let cells = field.tree().cells().len();
    assert!(rt; (cells, field.targets()) == (known.cells, known.targets));
    assert!(rt; (field.translations(), field.pairs()) == (known.translations, known.pairs));
    boxes_are(rt, field, known.ends);
}
