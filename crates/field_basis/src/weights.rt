//! The weights of all cells.
ghost use Rattle.std.specs.Prelude.{◌≡◌, ◌≤◌, ◌<◌, length, pos, All};
ghost use Rattle.quadtree.specs.TreeModel.{size, square_of};
ghost use Rattle.tree_field.specs.Field.{weight_in};
ghost use Rattle.field_basis.specs.Weights.{AreWeights, IsWeight};
ghost use Rattle.field_basis.specs.Trees.{IsTreeOfPoints};

use error_ledger::weight;
use points::Point;
use quadtree::Tree;

/// The weight of one cell.
fn cell_weight(tree: &Tree, points: &[Point], n: usize, order: u32) -> i128
    requires tree { IsTreeOfPoints points.now tree.now }
    requires least { 1 ≤ order }
    requires most { order ≤ 32 }
    requires cell { n < size tree.now }
    ensures weight { result ≡ pos (weight_in points.now order (square_of tree.now n)) }
    ensures size { IsWeight result }
{
    let mut total = 0;
    for k in tree.members(n) {
        total += weight(&points[*k as usize], order);
    }
    total
}

/// Writes the weight of each cell, the sum of `abs(a) + 2 order abs(b)` over the sources in it.
///
/// Conditions: the tree is that of the points, which are within the limits of its grid; `order` is 1 to 32; there is a weight for each cell.
pub(crate) fn weigh_cells(tree: &Tree, points: &[Point], order: u32, weights: &mut [i128])
    requires tree { IsTreeOfPoints points.now tree.now }
    requires least { 1 ≤ order }
    requires most { order ≤ 32 }
    requires len { length weights.old ≡ size tree.now }
    ensures len { length weights.new ≡ size tree.now }
    ensures weights { AreWeights points.now order tree.now weights.new }
    ensures size { All IsWeight weights.new }
{
    for n in 0..tree.cells().len() {
        weights[n] = cell_weight(tree, points, n, order);
    }
}
