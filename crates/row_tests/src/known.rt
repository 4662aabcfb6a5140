//! The cells and rows that several tests begin with.
ghost use Rattle.std.specs.Prelude.{pos, ◌+◌, ◌*◌, ◌^◌, ◌≤◌};
ghost use Rattle.exact_math.specs.Sizes.{abs_gaussian};
ghost use Rattle.cell_name.specs.Cell.{square};
ghost use Rattle.cell_name.specs.Square.{Holds};
ghost use Rattle.limits.specs.Limits.{widest_grid};
ghost use Rattle.points.specs.Limits.{HasStrength, IsKindOf};
ghost use Rattle.points.specs.Points.{pole, dipole};
ghost use Rattle.row_recursions.specs.Rows.{row_of};
ghost use Rattle.row_recursions.specs.Sizes.{RowWithin};

use cell_name::{Cell, Quadrant};
use complex_box::CBox;
use local_expansion::add_far_source;
use multipole::add_source;
use points::{Kind, Point};
use test_boxes::Ends;

/// The cell of side 1 whose corner is the origin.
pub const SMALL: Cell = Cell {
    level: 16,
    i: 32768,
    j: 32768,
    grid: 16,
};

/// The cell of side 4 that holds it.
pub const LARGE: Cell = Cell {
    level: 14,
    i: 8192,
    j: 8192,
    grid: 16,
};

/// The cell of side 1 whose corner is the origin, on the grid of version 2.
pub const WIDE_SMALL: Cell = Cell {
    level: 20,
    i: 524_288,
    j: 524_288,
    grid: 20,
};

/// The cell of side 4 that holds it.
pub const WIDE_LARGE: Cell = Cell {
    level: 18,
    i: 131_072,
    j: 131_072,
    grid: 20,
};

/// The quadrant of each cell from the small one up to the large one.
pub const BOTTOM_LEFT: Quadrant = Quadrant {
    right: false,
    top: false,
};

/// The moments in a cell of nine charges of 1 at the origin, as one of 9.
pub fn nine_charges(cell: Cell) -> [CBox; 4]
    requires { Holds (square cell) (pos 0) (pos 0) }
    ensures { RowWithin 4 (2 ^ 79) (row_of result) }
{
    let nine = Point {
        x: 0,
        y: 0,
        kind: Kind::Charge(9),
    };
    let mut row = [CBox::zero(); 4];
    add_source::<4>(&mut row, cell, &nine);
    row
}

/// What a charge of 1 at (8, 0) adds to the local row of the large cell.
pub const FAR_CHARGE: [Ends; 4] = [
    (
        (-659_706_976_666, -659_706_976_665),
        (-219_902_325_556, -219_902_325_555),
    ),
    (
        (-351_843_720_889, -351_843_720_887),
        (-263_882_790_667, -263_882_790_666),
    ),
    (
        (-158_329_674_401, -158_329_674_398),
        (-228_698_418_578, -228_698_418_577),
    ),
    (
        (-49_258_120_926, -49_258_120_923),
        (-168_884_986_027, -168_884_986_025),
    ),
];

/// What a point at (8, 0) adds to the local row of the large cell on the grid of version 2.
pub fn far_point(kind: Kind) -> [CBox; 4]
    requires kind { IsKindOf widest_grid kind }
    requires strength { HasStrength kind }
    requires weight { abs_gaussian (pole kind) + 64 * abs_gaussian (dipole kind) ≤ 2 ^ 17 }
    ensures { RowWithin 4 (2 ^ 90) (row_of result) }
{
    let mut row = [CBox::zero(); 4];
    add_far_source::<4>(&mut row, WIDE_LARGE, &Point { x: 8, y: 0, kind });
    row
}
