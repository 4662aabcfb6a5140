//! The values of the rows of a leaf's W entries at a target, and what they can lose.
ghost use Rattle.std.specs.Prelude.{◌≡◌, ◌+◌, ◌*◌, ◌^◌, ◌<◌, ◌≤◌, ◌≤ℤ◌, length, pos, sum_by};
ghost use Rattle.cell_lists.specs.ListAt.{list_at};
ghost use Rattle.cell_name.specs.Square.{side, Holds};
ghost use Rattle.complex_box.specs.Box.{box_ends, BoxWithin};
ghost use Rattle.exact_math.specs.Within.{GaussianBeyond};
ghost use Rattle.field_basis.specs.FieldPlaces.{AreMultipolePlaces, IsMultipolePlace};
ghost use Rattle.limits.specs.Grid.{IsInGrid};
ghost use Rattle.field_basis.specs.Place.{place_at};
ghost use Rattle.points.specs.Points.{place};
ghost use Rattle.quadtree.specs.TreeModel.{size, square_of};
ghost use Rattle.soundness.specs.Computed.{total_box};
ghost use Rattle.soundness.specs.Squares.{offset};
ghost use Rattle.target_values.specs.Values.{value_of_cell, loss_of_cell};

use complex_box::CBox;
use error_ledger::Ledger;
use field_basis::{Basis, Place};
use multipole::at_multipole;
use points::Point;

/// The value of the multipole row of the cell `c` at a target far from it.
fn w_value<const P: usize>(basis: &Basis<P>, up: &[Place<P>], c: usize, target: &Point) -> CBox
    requires cell { c < size basis.now.tree }
    requires index { c < length up.now }
    requires row { IsMultipolePlace P basis.now.points basis.now.tree c (place_at up.now c) }
    requires in_grid { IsInGrid basis.now.tree.grid target.now.x target.now.y }
    requires far { GaussianBeyond (3 * side (square_of basis.now.tree c)) (offset (square_of basis.now.tree c) (place target.now)) }
    ensures ends { box_ends result ≡ value_of_cell P basis.now (place target.now) c }
    ensures size { BoxWithin (2 ^ 83) result }
{
    at_multipole(up[c].row(), basis.tree.cells()[c], target.x, target.y)
}

/// The sum of the values of the multipole rows of the W entries of a leaf at a target in it.
pub(crate) fn w_values<const P: usize>(
    basis: &Basis<P>,
    up: &[Place<P>],
    leaf: usize,
    target: &Point,
) -> CBox
    requires cell { leaf < size basis.now.tree }
    requires rows { AreMultipolePlaces P basis.now.points basis.now.tree up.now (list_at basis.now.lists.w leaf) }
    requires in_grid { IsInGrid basis.now.tree.grid target.now.x target.now.y }
    requires inside { Holds (square_of basis.now.tree leaf) target.now.x target.now.y }
    ensures ends { box_ends result ≡ total_box (value_of_cell P basis.now (place target.now)) (list_at basis.now.lists.w leaf) }
    ensures size { BoxWithin (2 ^ 100) result }
{
    let mut sum = CBox::zero();
    for c in basis.lists.w_list(leaf) {
        sum = sum.add(w_value(basis, up, *c as usize, target));
    }
    sum
}

/// Adds what the entry of the cell `c` and far places can lose.
fn add_loss<const P: usize>(basis: &Basis<P>, c: usize, ledger: &mut Ledger)
    requires cell { c < size basis.now.tree }
    requires room { ledger.old + loss_of_cell P basis.now c < 2 ^ 100 }
    ensures { ledger.new ≡ ledger.old + loss_of_cell P basis.now c }
{
    ledger.add_single(basis.weights[c], basis.tree.cells()[c].side(), P as u32);
}

/// What the W entries of a leaf can lose.
pub(crate) fn w_radius<const P: usize>(basis: &Basis<P>, leaf: usize) -> i128
    requires cell { leaf < size basis.now.tree }
    ensures sum { result ≡ pos (sum_by (loss_of_cell P basis.now) (list_at basis.now.lists.w leaf)) }
    ensures size { result ≤ℤ pos (2 ^ 90) }
{
    let mut ledger = Ledger::new();
    for c in basis.lists.w_list(leaf) {
        add_loss(basis, *c as usize, &mut ledger);
    }
    ledger.radius()
}
