//! The field that a solve gives.
ghost use Rattle.std.specs.Prelude.{◌≡◌, ◌*◌, ◌^◌, ◌<◌, ◌≤ℤ◌, true, false, length, pos, IfSome, MatchOption};
ghost use Rattle.complex_box.specs.Box.{BoxWithin};
ghost use Rattle.complex_box.specs.Rows.{at};
ghost use Rattle.limits.specs.Limits.{most_box, most_local, most_multipole, most_weight};
ghost use Rattle.field_basis.specs.Place.{place_at};
ghost use Rattle.quadtree.specs.TreeModel.{size, node_of};
ghost use Rattle.row_recursions.specs.Rows.{row_of};
ghost use Rattle.row_recursions.specs.Sizes.{RowWithin};

use crate::places::Places;
use cell_lists::EntryLists;
use complex_box::{CBox, Row};
use field_basis::Basis;
use quadtree::Tree;
use std::marker::Model;

/// The field of a list of points: its tree and lists, the multipole row of each cell with a source, the local row and the radius of each cell
/// with a target, and the box of each target in the order of the list. Ends of boxes and radii count units of 2^-40. Rows and boxes stand in
/// the arena of the solve, which can't be given up while the field is in use.
#[derive(Drop)]
pub struct Field<'a, const P: usize> {
    pub(crate) basis: Basis<P>,
    pub(crate) places: Places<'a, P>,
    pub(crate) translations: u64,
    pub(crate) pairs: u64,
}

impl<'a, const P: usize> Model for Field<'a, P> {
    ghost use Rattle.field_solve.specs.Parts.{FieldParts};

    ghost Value = { FieldParts };

    ghost use Rattle.field_solve.specs.Inside.{field_seen, fits};

    ghost view = { field_seen };

    ghost invariant = { fits };
}

impl<'a, const P: usize> Field<'a, P> {
    /// The leaf capacity that it was made with.
    pub fn cap(&self) -> u32
        ensures { result ≡ self.now.basis.cap }
    {
        self.basis.cap
    }

    /// The tree.
    pub fn tree(&self) -> &Tree
        ensures { result.now ≡ self.now.basis.tree }
    {
        &self.basis.tree
    }

    /// The four lists of each cell.
    pub fn lists(&self) -> &EntryLists
        ensures { result.now ≡ self.now.basis.lists }
    {
        &self.basis.lists
    }

    /// The multipole row of cell `n`, with no end larger in size than the limit of the grid; `None` where the cell has no source. Condition: `n` is
    /// a cell's number.
    pub fn up(&self, n: usize) -> Option<Row<'_, P>>
        requires { n < size self.now.basis.tree }
        ensures has { MatchOption result ((node_of self.now.basis.tree n).has_source ≡ false) (λ row. (node_of self.now.basis.tree n).has_source ≡ true) }
        ensures row { IfSome result (λ row. row.cells.now ≡ (place_at self.now.up n).row) }
        ensures size { IfSome result (λ row. RowWithin P (most_multipole self.now.basis.tree.grid) (row_of row.cells.now)) }
    {
        if !self.basis.tree.has_source(n) {
            return None;
        }
        Some(self.places.up[n].row())
    }

    /// The local row of cell `n`, with no end larger in size than the limit of the grid; `None` where the cell has no target. Condition: `n` is a
    /// cell's number.
    pub fn local(&self, n: usize) -> Option<Row<'_, P>>
        requires { n < size self.now.basis.tree }
        ensures has { MatchOption result ((node_of self.now.basis.tree n).has_target ≡ false) (λ row. (node_of self.now.basis.tree n).has_target ≡ true) }
        ensures row { IfSome result (λ row. row.cells.now ≡ (place_at self.now.local n).row) }
        ensures size { IfSome result (λ row. RowWithin P (most_local self.now.basis.tree.grid) (row_of row.cells.now)) }
    {
        if !self.basis.tree.has_target(n) {
            return None;
        }
        Some(self.places.local[n].row())
    }

    /// The radius of the local row of cell `n`, at most 2^48 times the greatest weight of a list in the grid; 0 where the cell has no target.
    /// Condition: `n` is a cell's number.
    pub fn radius(&self, n: usize) -> i128
        requires { n < size self.now.basis.tree }
        ensures value { result ≡ pos (place_at self.now.local n).radius }
        ensures without { (node_of self.now.basis.tree n).has_target ≡ false → result ≡ pos 0 }
        ensures size { result ≤ℤ pos (2 ^ 48 * most_weight self.now.basis.tree.grid) }
    {
        self.places.local[n].radius()
    }

    /// How many targets there are.
    pub fn targets(&self) -> usize
        ensures { result ≡ length self.now.values }
    {
        self.places.values.len()
    }

    /// The box of the k-th target, counted from 0. Condition: `k < targets()`.
    pub fn value(&self, k: usize) -> CBox
        requires { k < length self.now.values }
        ensures value { result ≡ at self.now.values k }
        ensures size { BoxWithin (most_box self.now.basis.tree.grid) result }
    {
        self.places.values[k].value()
    }

    /// How many translations were made: one for each cell below the root with a source, each V entry and each cell below the root with a target.
    pub fn translations(&self) -> u64
        ensures { result ≡ self.now.translations }
    {
        self.translations
    }

    /// How many pairs of a target and a source at another place were summed.
    pub fn pairs(&self) -> u64
        ensures { result ≡ self.now.pairs }
    {
        self.pairs
    }
}
