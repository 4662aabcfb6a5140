//! The laws of rows. Nothing here runs: each law is the contract of a function with an empty body.
ghost use Rattle.row_recursions.specs.Geometry.{HeldPlaces, PairsOfCells, FarPlaces, QuartersOfCells};
ghost use Rattle.row_recursions.specs.Laws.{NoMoments, SourceMoments, SumOfMoments, MomentsUp, MultipoleValues, NoField, SumOfFields, OneField, FieldConverted, FieldOfSource, FieldDown, LocalValues};
ghost use Rattle.row_recursions.specs.Sizes.{MomentSizes, UpSizes, ConvertedSizes, FarSizes, DownSizes, LocalValueSizes, MultipoleValueSizes};
ghost use Rattle.row_recursions.specs.Widths.{MomentWidths, UpWidths, ConvertedWidths, FarWidths, DownWidths, LocalValueWidths, MultipoleValueWidths};

/// What multipole rows contain: of no source, of one source, of the sources of two rows, about the parent's centre, and their values.
///
/// One identity serves poles and dipoles: a source is the functional `a phi(z) + b phi'(z)` of a function `phi` of its place, and the
/// moments about another centre are those of another variable, `(2 u/s + q)/4` from a child with the quadrant `q`.
pub fn multipole_rows()
    ensures none { NoMoments }
    ensures source { SourceMoments }
    ensures sum { SumOfMoments }
    ensures up { MomentsUp }
    ensures value { MultipoleValues }
{}

/// What local rows contain: no field, the fields of two rows, the one list of coefficients of a field, the cut terms of the sources of a cell, those of a far source, the parent's
/// field about the child's centre, and their values.
pub fn local_rows()
    ensures none { NoField }
    ensures sum { SumOfFields }
    ensures one { OneField }
    ensures converted { FieldConverted }
    ensures source { FieldOfSource }
    ensures down { FieldDown }
    ensures value { LocalValues }
{}

/// How large the ends of rows are. An offset is at most its side and a far offset at least 3 sides in one part, so each factor of a
/// recursion is at most 1 in the size `|re| + |im|`, and a quotient by `d` of what is at most `d n` is at most `n`, rounded or not. The
/// kernel is at most `C(k + l, k)/2^(k + l + 1)` in modulus, and these sum up to 1 at most over `k`.
pub fn row_sizes()
    ensures moments { MomentSizes }
    ensures up { UpSizes }
    ensures converted { ConvertedSizes }
    ensures source { FarSizes }
    ensures down { DownSizes }
    ensures local_value { LocalValueSizes }
    ensures multipole_value { MultipoleValueSizes }
{}

/// How wide the parts of rows are. No factor of a recursion is above 1 in the size `|re| + |im|`, so only rounding widens: by less than two
/// units a step. A kernel's entry is at most 2 wide, and those of one coefficient are together at most 3/2 in size.
pub fn row_widths()
    ensures moments { MomentWidths }
    ensures up { UpWidths }
    ensures converted { ConvertedWidths }
    ensures source { FarWidths }
    ensures down { DownWidths }
    ensures local_value { LocalValueWidths }
    ensures multipole_value { MultipoleValueWidths }
{}

/// Cells in the words of rows: a place in a cell is within its side; the centres of two cells of one level that don't touch and whose
/// parents do are a distance of the kernel apart; a place in a cell that doesn't touch is beyond 3 sides; the centre of a quarter is one
/// of its own sides, in doubled coordinates, from that of its cell in both directions.
pub fn cells_and_rows()
    ensures held { HeldPlaces }
    ensures pairs { PairsOfCells }
    ensures far { FarPlaces }
    ensures quarters { QuartersOfCells }
{}
