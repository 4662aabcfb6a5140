//! The law. Nothing here runs.
ghost use Rattle.certificate_rules.specs.Laws.{CountsAreSound, LinesAreNumbered, SomeVerdict, OneVerdict};

/// Where all rules hold of a certificate over a list of points, the counts of each target contain the exact direct sum of the list at its place,
/// whatever its nodes, entries and rows are.
///
/// A line is found by its number: the rules at the number of the n-th line of a section are those of the section at n. Either all
/// rules hold, or there is a first failure, and never both; no two first failures differ.
pub fn rules_imply_counts()
    ensures counts { CountsAreSound }
    ensures numbered { LinesAreNumbered }
    ensures some { SomeVerdict }
    ensures one { OneVerdict }
{}
