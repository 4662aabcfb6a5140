//! The limits of the text: what each of its versions allows. Version 1 has a grid of 16 bits, version 2 one of 20.
#![tactic(auto)]

ghost use Rattle.std.specs.Prelude.{◌≡◌, ◌↔◌, IsTrue, pos, neg_ℤ, ◌≤ℤ◌, ◌<ℤ◌, FitsSigned};
ghost use Rattle.std.specs.Int.{w64};
ghost use Rattle.limits.specs.Grid.{half, IsInGrid};
ghost use Rattle.limits.specs.Laws.{VersionHasGrid, WidestHasMost, GridsAreNested};
ghost use Rattle.limits.specs.Limits.{IsGrid, IsVersion, grid_of, by_grid, most_points, most_weight, most_cells, most_order, most_certificate, most_entries};

/// The bits of the grid of version 1.
pub const FIRST_GRID: u8 = 16;

/// The bits of the grid of version 2.
pub const WIDEST_GRID: u8 = 20;

/// The greatest size of a strength component.
pub const MOST_STRENGTH: u64 = 1_048_576;

/// The greatest number of points at one place.
pub const MOST_AT_A_PLACE: usize = 4096;

/// The greatest number of workers of a solve.
pub const MOST_WORKERS: u32 = 64;

/// Whether it is a version of the text: 1 or 2.
pub fn is_version(version: u8) -> bool
    ensures { IsTrue result ↔ IsVersion version }
{
    version == 1 || version == 2
}

/// The bits of the grid of a version.
pub fn grid_of(version: u8) -> u8
    ensures { result ≡ grid_of version }
{
    if version == 2 {
        WIDEST_GRID
    } else {
        FIRST_GRID
    }
}

/// A limit of version 1 and one of version 2, told by the grid.
fn by_grid(grid: u8, first: u64, widest: u64) -> u64
    ensures { result ≡ by_grid grid first widest }
{
    if grid == FIRST_GRID { first } else { widest }
}

/// The greatest number of points in a list.
pub fn most_points(grid: u8) -> u64
    ensures { result ≡ most_points grid }
{
    by_grid(grid, 65_536, 131_072)
}

/// The greatest total weight of a list, in units of the weight of a charge 1.
pub fn most_weight(grid: u8) -> u64
    ensures { result ≡ most_weight grid }
{
    by_grid(grid, 1 << 32, 1 << 36)
}

/// The greatest number of cells of a tree.
pub fn most_cells(grid: u8) -> u64
    ensures { result ≡ most_cells grid }
{
    by_grid(grid, 65_536, 131_072)
}

/// The greatest order of a solve: 24 in version 1, 32 in version 2.
pub fn most_order(grid: u8) -> u32
    ensures { result ≡ most_order grid }
{
    if grid == FIRST_GRID { 24 } else { 32 }
}

/// The greatest number of bytes of a certificate.
pub fn most_certificate(grid: u8) -> u64
    ensures { result ≡ most_certificate grid }
{
    by_grid(grid, 1 << 30, 1 << 31)
}

/// The greatest number of entries of a certificate, which no text of so many bytes passes.
pub fn most_entries(grid: u8) -> u64
    ensures { result ≡ most_entries grid }
{
    by_grid(grid, (1 << 28) - 1, (1 << 29) - 1)
}

/// How far the origin is from the west and the south border of the grid.
pub fn half(grid: u8) -> i64
    requires { IsGrid grid }
    ensures { result ≡ pos (half grid) }
{
    1 << (grid - 1)
}

/// Whether `-half <= x < half`.
fn spans(half: i64, x: i64) -> bool
    requires { FitsSigned w64 (neg_ℤ half) }
    ensures { IsTrue result ↔ ((neg_ℤ half ≤ℤ x) × (x <ℤ half)) }
{
    -half <= x && x < half
}

/// Whether the place is in the grid.
pub fn in_grid(grid: u8, x: i64, y: i64) -> bool
    requires { IsGrid grid }
    ensures { IsTrue result ↔ IsInGrid grid x y }
{
    let half = half(grid);
    spans(half, x) && spans(half, y)
}

/// Each version has one of the two grids, and no limit of a version is above that of the widest grid.
pub fn limits_by_version()
    ensures grid { VersionHasGrid }
    ensures most { WidestHasMost }
    ensures nested { GridsAreNested }
{}
