//! The laws of the field. Nothing here runs: each law is the contract of a function with an empty body.
ghost use Rattle.tree_field.specs.Contains.{FieldContains, FieldMeetsRules};
ghost use Rattle.tree_field.specs.Laws.{LeafRows, InnerRows, RootRows, LocalRows, RootRadius, Radii, EachListHasTree, OneTree, TranslationsAreFew};
ghost use Rattle.tree_field.specs.Program.{ListsOfTree, NodesOfTree, LeavesOfTree, WorkOfTree};

/// The box of each target contains the direct sum of the list, for each list of points within a grid, each capacity of the leaves and each
/// order from 2 on.
///
/// The field is an accounting of its own cells, entries, rows and radii that meets the rules of soundness: its multipole rows, the local rows
/// and radii of its cells with a target, and its boxes are what is computed of it. Cells without a target have the zero row and the radius 0,
/// which no rule asks for. Cells that don't touch are apart, and exactly one entry accounts for each target and source.
pub fn boxes_contain_the_sum()
    ensures rules { FieldMeetsRules }
    ensures contains { FieldContains }
{}

/// The multipole row of a cell from its sources or from its quarters' rows; the local row and the radius of a cell from its parent's and
/// from its entries.
pub fn rows_of_neighbours()
    ensures leaf { LeafRows }
    ensures inner { InnerRows }
    ensures root { RootRows }
    ensures local { LocalRows }
    ensures root_radius { RootRadius }
    ensures radius { Radii }
{}

/// Each list of points within a grid has, for each capacity, one tree with its entries.
pub fn tree_is_determined()
    ensures some { EachListHasTree }
    ensures one { OneTree }
{}

/// A tree that the program built and its entry lists, in the words of the field: cells and entries by their numbers, the sources of a
/// cell by the positions of its members, the quarters with a source by the numbers of the children, the leaf of each point, and the counts.
pub fn trees_of_the_program()
    ensures lists { ListsOfTree }
    ensures nodes { NodesOfTree }
    ensures leaves { LeavesOfTree }
    ensures work { WorkOfTree }
{}

/// The translations are at most the V entries and twice the cells: one for each V entry, and two at most for each cell below the root.
pub fn translations_are_few()
    ensures few { TranslationsAreFew }
{}
