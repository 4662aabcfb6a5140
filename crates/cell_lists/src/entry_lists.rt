//! The four lists of each cell.

ghost use Rattle.std.specs.Prelude.{◌≡◌, ◌<◌, length, sum_by};
ghost use Rattle.cell_lists.specs.EntryLists.{lists_of};
ghost use Rattle.cell_lists.specs.ListAt.{list_at};

use crate::flat::NumberLists;
use letters::Letter;
use std::marker::Model;

/// The entries of the four lists: for each letter and each cell `b` the cells `c`, ascending.
///
/// Only a cell `b` with a target has entries, and only a cell `c` with a source is in one.
#[derive(Drop)]
pub struct EntryLists {
    pub(crate) u: NumberLists,
    pub(crate) v: NumberLists,
    pub(crate) w: NumberLists,
    pub(crate) x: NumberLists,
}

impl Model for EntryLists {
    ghost use Rattle.cell_lists.specs.EntryLists.{EntryListsModel};

    ghost Value = { EntryListsModel };

    ghost view = { λ l. record { u = l.u; v = l.v; w = l.w; x = l.x } };
}

impl EntryLists {
    /// For a leaf `b` with a target, the leaves `c` with a source that touch it, itself among them where it has one.
    pub fn u_list(&self, b: usize) -> &[u32]
        requires { b < length self.now.u }
        ensures { result.now ≡ list_at self.now.u b }
    {
        self.u.list(b)
    }

    /// For a cell `b` with a target, the cells `c` with a source that are of its level and don't touch it while their parents do.
    pub fn v_list(&self, b: usize) -> &[u32]
        requires { b < length self.now.v }
        ensures { result.now ≡ list_at self.now.v b }
    {
        self.v.list(b)
    }

    /// For a leaf `b` with a target, the cells `c` with a source that are below its level and don't touch it while their parents do.
    pub fn w_list(&self, b: usize) -> &[u32]
        requires { b < length self.now.w }
        ensures { result.now ≡ list_at self.now.w b }
    {
        self.w.list(b)
    }

    /// For a cell `b` with a target, the leaves `c` with a source that are above its level and that `b` doesn't touch while its parent does.
    pub fn x_list(&self, b: usize) -> &[u32]
        requires { b < length self.now.x }
        ensures { result.now ≡ list_at self.now.x b }
    {
        self.x.list(b)
    }

    /// How many entries of a letter there are.
    pub fn total(&self, letter: Letter) -> u64
        ensures { result ≡ sum_by (λ list. length list) (lists_of self.now letter) }
    {
        match letter {
            Letter::U => self.u.total(),
            Letter::V => self.v.total(),
            Letter::W => self.w.total(),
            Letter::X => self.x.total(),
        }
    }
}
