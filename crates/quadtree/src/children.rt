//! The numbers of the cells below each cell.

ghost use Rattle.std.specs.Prelude.{◌≡◌, ℕ, ◌+◌, ◌<◌, ◌≤◌, [], ◌∷◌, ◌++◌, length, All, IfOk};
ghost use Rattle.limits.specs.Limits.{widest_grid, most_cells};
ghost use Rattle.quadtree.specs.Families.{HasNumbers, children_among, AreFamiliesTo};
ghost use Rattle.quadtree.specs.Fields.{child_numbers};
ghost use Rattle.quadtree.specs.Splitting.{parents_of};

use crate::split::Run;
use std::alloc::{AllocError, Global};

/// The numbers of the cells below a cell, of which there are at most four.
#[derive(Clone, Copy)]
pub struct Children {
    pub(crate) numbers: [u32; 4],
    pub(crate) count: usize,
}

impl Children {
    /// No numbers.
    fn none() -> Children
        ensures { HasNumbers result [] }
    {
        Children {
            numbers: [0; 4],
            count: 0,
        }
    }

    /// These numbers and one more.
    fn with(mut self, n: u32) -> Children
        requires { self.count < 4 }
        ensures { HasNumbers result (child_numbers self ++ n ∷ []) }
    {
        self.numbers[self.count] = n;
        self.count += 1;
        self
    }

    /// The numbers.
    pub(crate) fn numbers(&self) -> &[u32]
        requires { self.now.count ≤ 4 }
        ensures { result.now ≡ child_numbers self.now }
    {
        &self.numbers[..self.count]
    }
}

/// The numbers of the cells below the cell of each run, ascending.
pub(crate) fn children_of(alloc: Global, runs: &[Run]) -> Result<Vec<Children>, AllocError>
    requires length { length runs.now ≤ most_cells widest_grid }
    requires parents { All (λ r. r.parent < length runs.now) runs.now }
    requires four { (n : ℕ) → length (children_among (parents_of runs.now) n (length runs.now)) ≤ 4 }
    ensures { IfOk result (λ v. AreFamiliesTo (parents_of runs.now) v.items (length runs.now)) }
{
    let mut families = vec![in alloc; Children::none(); runs.len()]?;
    for n in 1..runs.len() {
        let parent = runs[n].parent;
        families[parent] = families[parent].with(n as u32);
    }
    Ok(families)
}
