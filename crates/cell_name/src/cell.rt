//! Cells and their arithmetic.

ghost use Rattle.std.specs.Prelude.{◌≡◌, ◌≤◌, ◌<◌, ◌^◌, IsTrue, ◌↔◌, pos, ◌≤ℤ◌, ◌<ℤ◌, ◌+ℤ◌, FitsSigned};
ghost use Rattle.std.specs.Int.{w64};
ghost use Rattle.cell_name.specs.Square.{root, side, corner_x, corner_y, doubled_centre_x, doubled_centre_y, offset_x, offset_y, Holds, Touches, parent, ancestor};
ghost use Rattle.limits.specs.Grid.{IsInGrid};
ghost use Rattle.limits.specs.Limits.{IsGrid, widest_grid};

use limits::half;

/// A cell of the quadtree on a grid of 16 or 20 bits, compared by level, column and row, and at last by grid.
///
/// Level 0 is the whole grid, and each level halves the side. Column `i` counts from the west and row `j` from the south.
#[derive(Clone, Copy, PartialEq, Eq, PartialOrd, Ord, Debug)]
pub struct Cell {
    pub level: u8,
    pub i: u32,
    pub j: u32,
    pub grid: u8,
    pub ghost known_grid: { IsGrid grid },
    pub ghost level_in_grid: { level ≤ grid },
    pub ghost column: { i < 2 ^ level },
    pub ghost row: { j < 2 ^ level },
}

/// Which quarter of its parent a cell is.
#[derive(Clone, Copy, PartialEq, Eq, Debug)]
pub struct Quadrant {
    pub right: bool,
    pub top: bool,
}

impl Cell {
    ghost use Rattle.cell_name.specs.Cell.{square};
    ghost use Rattle.cell_name.specs.Quarters.{quarter};

    /// The cell that is the whole grid.
    pub fn root(grid: u8) -> Cell
        requires { IsGrid grid }
        ensures { square result ≡ root grid }
    {
        Cell {
            level: 0,
            i: 0,
            j: 0,
            grid,
        }
    }

    /// The one cell of a level that holds a place of the grid: column `(x + h) / s`, row `(y + h) / s`, for the side `s` and `h` half
    /// the side of the grid.
    pub fn of(x: i64, y: i64, level: u8, grid: u8) -> Cell
        requires known_grid { IsGrid grid }
        requires in_grid { IsInGrid grid x y }
        requires level { level ≤ grid }
        ensures grid { result.grid ≡ grid }
        ensures level { result.level ≡ level }
        ensures holds { Holds (square result) x y }
    {
        let shift = grid - level;
        let half = half(grid);
        Cell {
            level,
            i: ((x + half) as u32) >> shift,
            j: ((y + half) as u32) >> shift,
            grid,
        }
    }

    /// The cell of the level above that has this cell as a quarter: `(level - 1, i / 2, j / 2)`.
    pub fn parent(self) -> Cell
        requires { 1 ≤ self.level }
        ensures { square result ≡ parent (square self) }
    {
        Cell {
            level: self.level - 1,
            i: self.i / 2,
            j: self.j / 2,
            grid: self.grid,
        }
    }

    /// The cell of a level that has this cell as a part, for a level that is at most the cell's own.
    pub fn ancestor(self, level: u8) -> Cell
        requires { level ≤ self.level }
        ensures { square result ≡ ancestor (square self) level }
    {
        let shift = self.level - level;
        Cell {
            level,
            i: self.i >> shift,
            j: self.j >> shift,
            grid: self.grid,
        }
    }

    /// Which quarter of its parent the cell is.
    pub fn quadrant(self) -> Quadrant
        requires { 1 ≤ self.level }
        ensures { quarter (parent (square self)) result ≡ square self }
    {
        Quadrant {
            right: self.i % 2 == 1,
            top: self.j % 2 == 1,
        }
    }

    /// A quarter of the cell, one level below: column `2 i` or `2 i + 1`, row `2 j` or `2 j + 1`.
    pub fn child(self, q: Quadrant) -> Cell
        requires { self.level < self.grid }
        ensures { square result ≡ quarter (square self) q }
    {
        Cell {
            level: self.level + 1,
            i: 2 * self.i + u32::from(q.right),
            j: 2 * self.j + u32::from(q.top),
            grid: self.grid,
        }
    }

    /// The length of a side, `2^(grid - level)` places.
    pub fn side(self) -> i64
        ensures value { result ≡ pos (side (square self)) }
        ensures at_least { pos 1 ≤ℤ result }
        ensures at_most { result ≤ℤ pos (2 ^ widest_grid) }
    {
        1 << (self.grid - self.level)
    }

    /// The corner in the southwest, `(i s - h, j s - h)` for the side `s` and `h` half the side of the grid.
    pub fn corner(self) -> (i64, i64)
        ensures x { result.0 ≡ corner_x (square self) }
        ensures y { result.1 ≡ corner_y (square self) }
    {
        let s = self.side();
        let half = half(self.grid);
        (i64::from(self.i) * s - half, i64::from(self.j) * s - half)
    }

    /// Twice the centre, which is whole: `2 corner + (s, s)` for the side `s`.
    pub fn doubled_centre(self) -> (i64, i64)
        ensures x { result.0 ≡ doubled_centre_x (square self) }
        ensures y { result.1 ≡ doubled_centre_y (square self) }
    {
        let s = self.side();
        let (x, y) = self.corner();
        (2 * x + s, 2 * y + s)
    }

    /// Twice the offset of a place of the cell's grid from the centre.
    pub fn offset(self, x: i64, y: i64) -> (i64, i64)
        requires { IsInGrid self.grid x y }
        ensures x { result.0 ≡ offset_x (square self) x }
        ensures y { result.1 ≡ offset_y (square self) y }
    {
        let (cx, cy) = self.doubled_centre();
        (2 * x - cx, 2 * y - cy)
    }

    /// Whether the half-open square has the place: `corner.x <= x < corner.x + s`, and the same for `y`.
    pub fn holds(self, x: i64, y: i64) -> bool
        ensures { IsTrue result ↔ Holds (square self) x y }
    {
        let s = self.side();
        let (cx, cy) = self.corner();
        spans(cx, s, x) && spans(cy, s, y)
    }

    /// Whether the closed squares meet, be it in a corner alone.
    pub fn touches(self, o: Cell) -> bool
        ensures { IsTrue result ↔ Touches (square self) (square o) }
    {
        let s = self.side();
        let t = o.side();
        let (x, y) = self.corner();
        let (ox, oy) = o.corner();
        meet(x, s, ox, t) && meet(y, s, oy, t)
    }
}

/// Whether the half-open piece of length `s` from `a` has `x`.
fn spans(a: i64, s: i64, x: i64) -> bool
    requires { FitsSigned w64 (a +ℤ s) }
    ensures { IsTrue result ↔ ((a ≤ℤ x) × (x <ℤ (a +ℤ s))) }
{
    a <= x && x < a + s
}

/// Whether the closed pieces of length `s` from `a` and of length `t` from `b` meet.
fn meet(a: i64, s: i64, b: i64, t: i64) -> bool
    requires first { FitsSigned w64 (a +ℤ s) }
    requires second { FitsSigned w64 (b +ℤ t) }
    ensures { IsTrue result ↔ ((a ≤ℤ (b +ℤ t)) × (b ≤ℤ (a +ℤ s))) }
{
    a <= b + t && b <= a + s
}
