//! The box of a target.
ghost use Rattle.std.specs.Prelude.{◌≡◌, ◌^◌, ◌<◌, length};
ghost use Rattle.exact_math.specs.Units.{unit};
ghost use Rattle.cell_lists.specs.ListAt.{list_at};
ghost use Rattle.complex_box.specs.Box.{BoxContains, BoxWithin};
ghost use Rattle.field_basis.specs.Basis.{target_leaf, target_place};
ghost use Rattle.field_basis.specs.Counts.{paired, pairs_of_target};
ghost use Rattle.field_basis.specs.FieldPlaces.{AreMultipolePlaces, HasLocalPlace, IsTargetBox};
ghost use Rattle.limits.specs.Limits.{most_box};
ghost use Rattle.near_field.specs.DirectSum.{direct_sum};

use crate::u_entries::u_pairs;
use crate::w_entries::{w_radius, w_values};
use complex_box::{CBox, Work};
use field_basis::{Basis, Place};
use local_expansion::at_local;

/// The box of the k-th target, counted from 0: the value of its leaf's local row, those of the multipole rows of the leaf's W entries, and the
/// pairs with the sources of its U entries, widened by the leaf's radius and by what the W entries can lose. It contains the direct sum at the
/// target, and no end is larger in size than the limit of the grid. The pairs of `work` are raised by one for each source of the U entries at
/// another place.
///
/// Conditions: there are more than `k` targets, the cells of the W list of the target's leaf have their multipole rows in `up`, the leaf has
/// its local row and radius in `local`, and the count of pairs is below 2^62.
pub fn target_value<const P: usize>(
    basis: &Basis<P>,
    up: &[Place<P>],
    local: &[Place<P>],
    k: usize,
    work: &mut Work,
) -> CBox
    requires index { k < length basis.now.targets }
    requires rows { AreMultipolePlaces P basis.now.points basis.now.tree up.now (list_at basis.now.lists.w (target_leaf basis.now k)) }
    requires leaf { HasLocalPlace P basis.now local.now (target_leaf basis.now k) }
    requires room { work.old.pairs < 2 ^ 62 }
    ensures value { IsTargetBox P basis.now k result }
    ensures contains { BoxContains unit result (direct_sum (target_place basis.now k) basis.now.points) }
    ensures size { BoxWithin (most_box basis.now.tree.grid) result }
    ensures work { work.new ≡ paired (pairs_of_target basis.now k) work.old }
{
    let position = basis.targets[k] as usize;
    let target = &basis.points[position];
    let leaf = basis.tree.leaf_of(position);
    let place = &local[leaf];
    let value = at_local(place.row(), basis.tree.cells()[leaf], target.x, target.y);
    let far = w_values(basis, up, leaf, target);
    let near = u_pairs(basis, leaf, target, work);
    let lost = place.radius() + w_radius(basis, leaf);
    value.add(far.add(near)).widen(lost)
}
