//! How the cells of nodes lie to each other.
ghost use Rattle.std.specs.Prelude.{◌≡◌, ◌↔◌, IsTrue};
ghost use Rattle.cell_name.specs.Apart.{AreTwoOrThreeSidesApart};
ghost use Rattle.cell_name.specs.Cell.{square};
ghost use Rattle.cell_name.specs.Square.{root};
ghost use Rattle.soundness.specs.Squares.{IsQuarterOf};

use cell_name::Cell;

/// Whether the cell is the whole grid, which is the one cell of level 0.
pub(crate) fn is_whole(cell: Cell) -> bool
    ensures { IsTrue result ↔ (square cell ≡ root cell.grid) }
{
    cell.level == 0
}

/// Whether the cell is a quarter of the one above.
pub(crate) fn is_quarter(cell: Cell, above: Cell) -> bool
    ensures { IsTrue result ↔ IsQuarterOf (square cell) (square above) }
{
    1 <= cell.level && cell.parent() == above
}

/// Whether the centres of two cells are two or three sides apart in one direction, and no more in the other, if their level is the same.
pub(crate) fn are_two_or_three_sides_apart(b: Cell, c: Cell) -> bool
    ensures { IsTrue result ↔ AreTwoOrThreeSidesApart (square b) (square c) }
{
    let sides = b.i.abs_diff(c.i).max(b.j.abs_diff(c.j));
    2 <= sides && sides <= 3
}
