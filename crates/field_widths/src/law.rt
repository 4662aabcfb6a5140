//! The laws. Nothing here runs: each law is the contract of a function with an empty body.
ghost use Rattle.field_widths.specs.Laws.{MultipoleRowsNarrow, MultipoleRowsHoldWithin, PairEntriesNarrow, FarEntriesNarrow, MultipoleValuesNarrow, LocalRowsNarrow, PrintedCountsNarrow};

/// How wide the rows of the field are, with what the entries of its lists add to them, and the values of W entries. The row of a cell with `n` sources
/// is at most `n (2 P^2 + 2 G P)` wide, where `G` is the greatest level, and its coefficients contain moments of at most the weight of these sources.
pub fn rows_are_narrow()
    ensures multipole { MultipoleRowsNarrow }
    ensures held { MultipoleRowsHoldWithin }
    ensures pairs { PairEntriesNarrow }
    ensures far { FarEntriesNarrow }
    ensures values { MultipoleValuesNarrow }
    ensures local { LocalRowsNarrow }
{}

/// How wide the printed counts of each target are: by the sources' number and weight, the order and the side of the smallest cell.
///
/// The sources of all entries that reach a leaf are distinct, so what they add together is what all sources add.
pub fn printed_counts_are_narrow()
    ensures { PrintedCountsNarrow }
{}
