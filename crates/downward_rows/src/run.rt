//! The places of cells that stand together.
ghost use Rattle.std.specs.Prelude.{◌≡◌, ℕ, ◌+◌, ◌<◌, ◌≤◌, length};
ghost use Rattle.field_basis.specs.FieldPlaces.{AreAllMultipolePlaces, HasLocalPlace};
ghost use Rattle.field_basis.specs.MadePlaces.{IsMadeLocal};
ghost use Rattle.field_basis.specs.Place.{place_at};
ghost use Rattle.quadtree.specs.TreeModel.{size, node_of};

use crate::fill::make_place;
use complex_box::Work;
use field_basis::{Basis, Place};

/// Makes the local row of cell `n` and its radius, and keeps in its place how many translations the row took.
fn finish_place<const P: usize>(
    basis: &Basis<P>,
    up: &[Place<P>],
    above: &[Place<P>],
    n: usize,
    place: &mut Place<P>,
)
    requires cell { n < size basis.now.tree }
    requires rows { AreAllMultipolePlaces P basis.now.points basis.now.tree up.now }
    requires parent { 0 < n → HasLocalPlace P basis.now above.now (node_of basis.now.tree n).parent }
    ensures { IsMadeLocal P basis.now n place.new }
{
    // what the basis says of its lists: their numbers are those of cells
    let _ = &basis.lists;
    let mut work = Work::new();
    make_place(basis, up, n, above, place, &mut work);
    place.set_translations(work.translations());
}

/// Makes the local rows of the cells `first`, `first + 1`, .. and their radii in the places of `run`, and keeps in each how many translations its
/// row took. `above` begins with the places of the first cells, and is only read.
///
/// Conditions: these are numbers of cells, `up` holds the multipole rows of all cells, and the parents' local rows stand in `above`.
pub fn fill_run<const P: usize>(
    basis: &Basis<P>,
    up: &[Place<P>],
    above: &[Place<P>],
    first: usize,
    run: &mut [Place<P>],
)
    requires rows { AreAllMultipolePlaces P basis.now.points basis.now.tree up.now }
    requires run { first + length run.old ≤ size basis.now.tree }
    requires parents { (n : ℕ) → first ≤ n → n < first + length run.old → 0 < n → HasLocalPlace P basis.now above.now (node_of basis.now.tree n).parent }
    ensures len { length run.new ≡ length run.old }
    ensures made { (k : ℕ) → k < length run.old → IsMadeLocal P basis.now (first + k) (place_at run.new k) }
{
    for k in 0..run.len() {
        finish_place(basis, up, above, first + k, &mut run[k]);
    }
}
