//! The laws. Nothing here runs: each law is the contract of a function with an empty body.
ghost use Rattle.tree_field.specs.RowContents.{MultipoleRowsHold, LocalRowsHold, LocalValuesHold, MultipoleValuesHold, MultipoleSumsHold};

/// The multipole row of each cell of the tree contains the moments of the sources in the cell about its centre.
///
/// It holds for each list of points within a grid, each capacity of the leaves and each order: a leaf's row is the sum of its sources'
/// moments, and a shift up keeps the moments of the same sources.
pub fn multipole_rows_hold()
    ensures moments { MultipoleRowsHold }
{}

/// The local row of each cell of the tree contains the field of the V and X entries of the cell and of all cells above it, as one list
/// of coefficients about its centre.
///
/// A V entry adds the cut terms of its sources for two cells of one level, an X entry those of far sources. A shift down is exact for
/// the polynomial of a field, so what was cut once is not cut again on the way to a leaf.
pub fn local_rows_hold()
    ensures field { LocalRowsHold }
{}

/// The value of the local row of a cell at a place contains that of its field; the value of the multipole row of a W entry, at a place in
/// its leaf, the cut terms of the sources in the entry's cell; and the sum of these values, the sum over all W entries of the leaf.
pub fn values_hold()
    ensures local { LocalValuesHold }
    ensures multipole { MultipoleValuesHold }
    ensures sum { MultipoleSumsHold }
{}
