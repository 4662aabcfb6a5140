//! Lists of numbers that stand end to end in one vector.

ghost use Rattle.std.specs.Prelude.{◌≡◌, ◌<◌, [], ◌∷◌, ◌++◌, length, sum_by, OnOk};
ghost use Rattle.cell_lists.specs.ListAt.{list_at};

use std::alloc::{AllocError, Global};
use std::marker::Model;

/// Where a list stands.
#[derive(Clone, Copy)]
pub struct Range {
    pub(crate) from: usize,
    pub(crate) to: usize,
}

/// Lists of numbers that stand end to end in one vector.
#[derive(Drop)]
pub struct NumberLists {
    items: Vec<u32>,
    ranges: Vec<Range>,
}

impl Model for NumberLists {
    ghost use Rattle.std.specs.Prelude.{ℕ, List};
    ghost use Rattle.cell_lists.specs.FlatLists.{lists_in, AreRanges};

    ghost Value = { List (List ℕ) };

    ghost view = { λ r. lists_in r.items.items r.ranges.items };

    ghost invariant = { λ r. AreRanges r.items.items r.ranges.items };
}

impl NumberLists {
    /// No lists.
    pub(crate) fn new(alloc: Global) -> NumberLists
        ensures { result ≡ [] }
    {
        NumberLists {
            items: Vec::new(alloc),
            ranges: Vec::new(alloc),
        }
    }

    /// Appends a list.
    pub(crate) fn push(&mut self, more: &[u32]) -> Result<(), AllocError>
        ensures { OnOk result (self.new ≡ self.old ++ more.now ∷ []) }
    {
        self.ranges.reserve(1)?;
        let from = self.items.len();
        self.items.extend_from_slice(more)?;
        let to = self.items.len();
        self.ranges.push(Range { from, to })?;
        Ok(())
    }

    /// The list of a number.
    pub(crate) fn list(&self, n: usize) -> &[u32]
        requires { n < length self.now }
        ensures { result.now ≡ list_at self.now n }
    {
        let range = self.ranges[n];
        &self.items[range.from..range.to]
    }

    /// How many numbers all lists have.
    pub(crate) fn total(&self) -> u64
        ensures { result ≡ sum_by (λ list. length list) self.now }
    {
        self.items.len() as u64
    }
}
