//! Numbers of a summary.
ghost use Rattle.std.specs.Prelude.{◌≡◌};
ghost use Rattle.std.specs.List.{range_with_len, count_by};
ghost use Rattle.points.specs.Points.{is_source};
ghost use Rattle.quadtree.specs.TreeModel.{size, node_of};

use points::Point;
use quadtree::Tree;

/// How many sources there are.
pub(crate) fn source_count(points: &[Point]) -> u64
    ensures { result ≡ count_by (λ p. is_source p.kind) points.now }
{
    points.iter().filter(|p| p.kind.is_source()).count() as u64
}

/// How many cells are leaves.
pub(crate) fn leaf_count(tree: &Tree) -> u64
    ensures { result ≡ count_by (λ n. (node_of tree.now n).is_leaf) (range_with_len 0 (size tree.now)) }
{
    let mut count = 0;
    for n in 0..tree.cells().len() {
        if tree.is_leaf(n) {
            count += 1;
        }
    }
    count
}
