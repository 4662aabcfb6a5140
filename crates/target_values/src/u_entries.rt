//! The pairs of a target with the sources of its leaf's U entries.
ghost use Rattle.std.specs.Prelude.{◌≡◌, ℕ, ◌+◌, ◌*◌, ◌^◌, ◌<◌, ◌≤◌, [], ◌∷◌, filter, fold, sum_by};
ghost use Rattle.exact_math.specs.Ends.{add_box};
ghost use Rattle.cell_lists.specs.ListAt.{list_at};
ghost use Rattle.complex_box.specs.Box.{box_ends, BoxWithin};
ghost use Rattle.field_basis.specs.Counts.{paired, count_apart};
ghost use Rattle.limits.specs.Grid.{IsInGrid};
ghost use Rattle.limits.specs.Limits.{most_points, widest_grid};
ghost use Rattle.near_field.specs.Pair.{pair_box};
ghost use Rattle.points.specs.Limits.{InRange};
ghost use Rattle.points.specs.Points.{is_source, place};
ghost use Rattle.quadtree.specs.TreeModel.{size};
ghost use Rattle.soundness.specs.Computed.{total_box};
ghost use Rattle.target_values.specs.Values.{pairs_of_cell, count_of_cell};

use complex_box::{CBox, Work};
use field_basis::Basis;
use near_field::pair;
use points::Point;

/// The sum and the box of the pair of the point and the target, where the point is a source.
fn with_pair(sum: CBox, p: &Point, target: &Point, work: &mut Work) -> CBox
    requires range { InRange widest_grid p.now }
    requires in_grid { IsInGrid widest_grid target.now.x target.now.y }
    requires sum { BoxWithin (2 ^ 100) sum }
    requires room { work.old.pairs < 2 ^ 63 }
    ensures ends { box_ends result ≡ fold (λ b q. add_box b (pair_box (place target.now) q)) (box_ends sum) (filter (λ q. is_source q.kind) (p.now ∷ [])) }
    ensures size { (n : ℕ) → BoxWithin n sum → BoxWithin (n + 2 ^ 67) result }
    ensures work { work.new ≡ paired (count_apart (place target.now) (filter (λ q. is_source q.kind) (p.now ∷ []))) work.old }
{
    if !p.kind.is_source() {
        return sum;
    }
    sum.add(pair(p, target.x, target.y, work))
}

/// The sum of the boxes of the pairs with the sources of the cell `c`.
fn cell_pairs<const P: usize>(basis: &Basis<P>, c: usize, target: &Point, work: &mut Work) -> CBox
    requires cell { c < size basis.now.tree }
    requires in_grid { IsInGrid widest_grid target.now.x target.now.y }
    requires room { work.old.pairs + most_points widest_grid < 2 ^ 63 }
    ensures ends { box_ends result ≡ pairs_of_cell basis.now (place target.now) c }
    ensures size { BoxWithin (2 ^ 67 * most_points widest_grid) result }
    ensures work { work.new ≡ paired (count_of_cell basis.now (place target.now) c) work.old }
    ensures few { work.new.pairs ≤ work.old.pairs + most_points widest_grid }
{
    let mut sum = CBox::zero();
    for k in basis.tree.members(c) {
        sum = with_pair(sum, &basis.points[*k as usize], target, work);
    }
    sum
}

/// The sum of the boxes of the pairs with the sources of the U entries of a leaf.
pub(crate) fn u_pairs<const P: usize>(
    basis: &Basis<P>,
    leaf: usize,
    target: &Point,
    work: &mut Work,
) -> CBox
    requires cell { leaf < size basis.now.tree }
    requires in_grid { IsInGrid widest_grid target.now.x target.now.y }
    requires room { work.old.pairs < 2 ^ 62 }
    ensures ends { box_ends result ≡ total_box (pairs_of_cell basis.now (place target.now)) (list_at basis.now.lists.u leaf) }
    ensures size { BoxWithin (2 ^ 101) result }
    ensures work { work.new ≡ paired (sum_by (count_of_cell basis.now (place target.now)) (list_at basis.now.lists.u leaf)) work.old }
{
    let mut sum = CBox::zero();
    for c in basis.lists.u_list(leaf) {
        sum = sum.add(cell_pairs(basis, *c as usize, target, work));
    }
    sum
}
