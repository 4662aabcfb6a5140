//! The widths of printed counts.
ghost use Rattle.std.specs.Prelude.{◌≡◌, map, max};
ghost use Rattle.std.specs.List.{fold};
ghost use Rattle.complex_box.specs.Box.{BoxWithin, box_ends};
ghost use Rattle.fixed_interval.specs.Interval.{IntervalWithin, ends_of};
ghost use Rattle.limits.specs.Limits.{first_grid, most_printed};
ghost use Rattle.sample_summary.specs.Summary.{width};

use complex_box::CBox;
use field_solve::Field;
use fixed_interval::Interval;
use report_lines::to_count;

/// How far the printed counts of an interval are apart.
fn width(i: Interval) -> u128
    requires { IntervalWithin most_printed i }
    ensures { result ≡ width (ends_of i) }
{
    (to_count(i.hi, true) - to_count(i.lo, false)).unsigned_abs()
}

/// The greatest widths of the printed counts of some boxes, of each part by itself.
#[derive(Clone, Copy)]
pub(crate) struct Widest {
    pub(crate) re: u128,
    pub(crate) im: u128,
}

impl Widest {
    /// The greatest widths with one further box.
    fn with(self, v: CBox) -> Widest
        requires { BoxWithin most_printed v }
        ensures re { result.re ≡ max self.re (width (ends_of v.re)) }
        ensures im { result.im ≡ max self.im (width (ends_of v.im)) }
    {
        Widest {
            re: self.re.max(width(v.re)),
            im: self.im.max(width(v.im)),
        }
    }

    /// Those of the boxes of all targets; 0 where there is none. The field is on the grid of version 1.
    pub(crate) fn of<const P: usize>(field: &Field<P>) -> Widest
        requires { field.now.basis.tree.grid ≡ first_grid }
        ensures re { result.re ≡ fold max 0 (map (λ b. width b.re) (map box_ends field.now.values)) }
        ensures im { result.im ≡ fold max 0 (map (λ b. width b.im) (map box_ends field.now.values)) }
    {
        let mut widest = Widest { re: 0, im: 0 };
        for k in 0..field.targets() {
            widest = widest.with(field.value(k));
        }
        widest
    }
}
