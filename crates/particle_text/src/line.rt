//! Reading the line of a point.
ghost use Rattle.std.specs.Prelude.{◌≡◌, IfOk, IfErr, Ok, Err, IfSome, IfNone};
ghost use Rattle.points.specs.declared.Point.{Point};
ghost use Rattle.particle_text.specs.declared.TextKind.{TextKind};
ghost use Rattle.particle_text.specs.declared.line.Form.{Form};
ghost use Rattle.limits.specs.Limits.{IsVersion, grid_of};
ghost use Rattle.particle_text.specs.Faults.{FormFault};
ghost use Rattle.points.specs.Limits.{InRange, IsKindOf};
ghost use Rattle.particle_text.specs.Private.{cut_point, kind_of_form, word_of};
ghost use Rattle.particle_text.specs.Text.{LineSpells};

use crate::{Kind, Point, TextKind};
use limits::grid_of;
use number_text::{cut_at, read_four, read_three, read_two};

/// The form of a point's line.
#[derive(Clone, Copy)]
enum Form {
    Charge,
    Dipole,
    Vortex,
    Target,
    Pole,
}

/// The form whose lines begin with this word in a text of that version: `pole` is a word of version 2 alone.
fn form_of(version: u8, name: &[u8]) -> Option<Form>
    ensures some { IfSome result (λ form. name.now ≡ word_of form) }
    ensures kind { IfSome result (λ form. IsKindOf (grid_of version) (kind_of_form form)) }
    ensures none { IfNone result ((form : Form) → IsKindOf (grid_of version) (kind_of_form form) → name.now ≡ word_of form → ⊥) }
{
    match name {
        b"charge" => Some(Form::Charge),
        b"dipole" => Some(Form::Dipole),
        b"vortex" => Some(Form::Vortex),
        b"target" => Some(Form::Target),
        b"pole" if version == 2 => Some(Form::Pole),
        _ => None,
    }
}

/// The point whose line this is in a text of that version, with each number that is greater than 10^18 in size cut
/// to that size.
fn read_form(version: u8, line: &[u8]) -> Option<Point>
    ensures some { IfSome result (λ p. (q : Point) × LineSpells version line.now q × (p ≡ cut_point q)) }
    ensures none { IfNone result ((q : Point) → LineSpells version line.now q → ⊥) }
{
    let (name, numbers) = cut_at(b' ', line)?;
    match form_of(version, name)? {
        Form::Charge => {
            let (x, y, q) = read_three(numbers)?;
            let kind = Kind::Charge(q);
            Some(Point { x, y, kind })
        }
        Form::Dipole => {
            let (x, y, re, im) = read_four(numbers)?;
            let kind = Kind::Dipole(re, im);
            Some(Point { x, y, kind })
        }
        Form::Vortex => {
            let (x, y, g) = read_three(numbers)?;
            let kind = Kind::Vortex(g);
            Some(Point { x, y, kind })
        }
        Form::Target => {
            let (x, y) = read_two(numbers)?;
            let kind = Kind::Target;
            Some(Point { x, y, kind })
        }
        Form::Pole => {
            let (x, y, re, im) = read_four(numbers)?;
            let kind = Kind::Pole(re, im);
            Some(Point { x, y, kind })
        }
    }
}

/// The point whose line this is in a text of that version, without its line feed. `Syntax` where it is the line
/// of no point of the version, as that of a pole in version 1; `Range` where it is that of a point out of range.
///
/// `version` is 1 or 2.
pub fn parse_point(version: u8, line: &[u8]) -> Result<Point, TextKind>
    requires { IsVersion version }
    ensures ok { IfOk result (λ p. LineSpells version line.now p × InRange (grid_of version) p) }
    ensures fault { IfErr result (FormFault version line.now) }
    ensures accepts { (p : Point) → LineSpells version line.now p → InRange (grid_of version) p → result ≡ Ok p }
    ensures refuses { (kind : TextKind) → FormFault version line.now kind → result ≡ Err kind }
{
    let grid = grid_of(version);
    match read_form(version, line) {
        None => Err(TextKind::Syntax),
        Some(point) if !point.is_in_range(grid) => Err(TextKind::Range),
        Some(point) => Ok(point),
    }
}
