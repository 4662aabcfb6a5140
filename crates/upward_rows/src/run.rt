//! The rows of a run of cells, in places of their own.
ghost use Rattle.std.specs.Prelude.{◌≡◌, ℕ, ◌+◌, ◌<◌, ◌≤◌, length};
ghost use Rattle.exact_math.specs.Orders.{IsOrder};
ghost use Rattle.field_basis.specs.MadePlaces.{IsMadeUp};
ghost use Rattle.field_basis.specs.Place.{place_at};
ghost use Rattle.field_basis.specs.Trees.{IsTreeOfPoints};
ghost use Rattle.quadtree.specs.TreeModel.{size};
ghost use Rattle.tree_field.specs.Program.{source_children};
ghost use Rattle.upward_rows.specs.Behind.{AreBehind};

use crate::fill::make_place;
use complex_box::Work;
use field_basis::Place;
use points::Point;
use quadtree::Tree;

/// Makes the multipole row of cell `n` in `place`, and keeps in it how many rows were shifted into it.
fn make_counted<const P: usize>(
    tree: &Tree,
    points: &[Point],
    behind: &[Place<P>],
    n: usize,
    place: &mut Place<P>,
)
    requires order { IsOrder P }
    requires tree { IsTreeOfPoints points.now tree.now }
    requires cell { n < size tree.now }
    requires behind { AreBehind P points.now tree.now behind.now (source_children tree.now n) }
    ensures { IsMadeUp P points.now tree.now n place.new }
{
    let mut work = Work::new();
    make_place::<P>(tree, points, n, behind, place, &mut work);
    place.set_translations(work.translations());
}

/// Makes the multipole rows of the cells `first`, `first + 1`, .. in the places of `run`, whatever stood there, and keeps in each how many rows
/// were shifted into it. `behind` are the places of the last cells, and is only read.
///
/// Conditions: `P` is one of the orders, the tree is that of the points, which are within the limits of its grid, the run has no more places than there
/// are cells from `first` on, and the quarters of these cells that have a source have their rows in `behind`.
pub fn fill_run<const P: usize>(
    tree: &Tree,
    points: &[Point],
    behind: &[Place<P>],
    first: usize,
    run: &mut [Place<P>],
)
    requires order { IsOrder P }
    requires tree { IsTreeOfPoints points.now tree.now }
    requires run { first + length run.old ≤ size tree.now }
    requires behind { (n : ℕ) → first ≤ n → n < first + length run.old → AreBehind P points.now tree.now behind.now (source_children tree.now n) }
    ensures len { length run.new ≡ length run.old }
    ensures made { (k : ℕ) → k < length run.old → IsMadeUp P points.now tree.now (first + k) (place_at run.new k) }
{
    for k in 0..run.len() {
        make_counted::<P>(tree, points, behind, first + k, &mut run[k]);
    }
}
