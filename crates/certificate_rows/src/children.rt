//! The rows of children, shifted up.
ghost use Rattle.std.specs.Prelude.{◌≡◌, ℕ, ◌+◌, ◌^◌, ◌<◌, ◌≤◌, length, All};
ghost use Rattle.exact_math.specs.Orders.{IsOrder};
ghost use Rattle.limits.specs.Limits.{most_cells, most_given_multipole, widest_grid};
ghost use Rattle.row_recursions.specs.Rows.{row_of, AreSameRows, RowsAdd, shifted_up};
ghost use Rattle.row_recursions.specs.Sizes.{RowWithin};
ghost use Rattle.soundness.specs.Squares.{quadrant};
ghost use Rattle.soundness.specs.Steps.{child_rows};
ghost use Rattle.certificate_rows.specs.Given.{cell_at, multipole_at};

use crate::given::{multipole_row, node_at};
use cert_text::Cert;
use complex_box::{CBox, Row, Work, clear};
use multipole_shift::shift_up;
use row_recursions::add_row;

/// Makes the given row of a node, shifted to its parent's centre. The cell of the node is below level 0.
fn shift_child<const P: usize>(cert: &Cert, d: usize, part: &mut [CBox])
    requires order { IsOrder P }
    requires length { cert.now.head.order ≡ P }
    requires node { d < cert.now.head.cells }
    requires below { 0 < (cell_at cert.now d).level }
    requires len { length part.old ≡ P }
    ensures len { length part.new ≡ P }
    ensures row { AreSameRows P (shifted_up (multipole_at cert.now d) (quadrant (cell_at cert.now d))) (row_of part.new) }
    ensures size { RowWithin P most_given_multipole (row_of part.new) }
{
    let (_, cell) = node_at(cert, d);
    let row = multipole_row::<P>(cert, d);
    clear(part);
    shift_up::<P>(Row::new(row), cell.quadrant(), part, &mut Work::new());
}

/// Makes the sum of the given rows of some nodes, each shifted to its parent's centre. Their cells are below level 0.
pub(crate) fn sum_children<const P: usize>(cert: &Cert, children: &[u32], row: &mut [CBox])
    requires order { IsOrder P }
    requires length { cert.now.head.order ≡ P }
    requires nodes { All (λ d. d < cert.now.head.cells) children.now }
    requires below { All (λ d. 0 < (cell_at cert.now d).level) children.now }
    requires few { length children.now ≤ most_cells widest_grid }
    requires len { length row.old ≡ P }
    ensures len { length row.new ≡ P }
    ensures row { AreSameRows P (child_rows (cell_at cert.now) (multipole_at cert.now) children.now) (row_of row.new) }
{
    clear(row);
    let mut part = [CBox::zero(); P];
    for d in children {
        shift_child::<P>(cert, *d as usize, &mut part);
        add_row(row, &part);
    }
}
