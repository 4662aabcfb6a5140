//! The laws. Nothing here runs: each law is the contract of a function with an empty body.
ghost use Rattle.tree_field.specs.Paths.{EachSourceOnce};
ghost use Rattle.tree_field.specs.Sizes.{EntriesShareNoSource, BoxSizes, RowSizes, RadiusSizes, WeightSizes};

/// No source lies in the cells of two entries of one cell and letter, so whatever is summed over the sources of these entries is at most
/// the sum over all points. Two such entries would both account for the source and a target in the cell.
pub fn entries_share_no_source()
    ensures { EntriesShareNoSource }
{}

/// Each source lies in the cell of exactly one of the entries that reach a leaf with a target: the V and X entries of the leaf and of all cells
/// above it, and the leaf's U and W entries. So whatever is summed over the sources of these entries is the sum over all sources.
pub fn entries_meet_each_source_once()
    ensures { EachSourceOnce }
{}

/// How large the field is where the points weigh no more together than the limit of their grid, in units of 2^-40: ends of multipole rows, of
/// local rows and of boxes are at most the limits of the grid in size, and radii at most 2^48 times the limit of the weight. The weight of
/// a cell is at most that of all points.
pub fn field_is_bounded()
    ensures weights { WeightSizes }
    ensures rows { RowSizes }
    ensures radii { RadiusSizes }
    ensures boxes { BoxSizes }
{}
