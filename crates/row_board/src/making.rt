//! Making a board.
ghost use Rattle.std.specs.Prelude.{◌≡◌, false, length, All, IfOk, IfErr, OnOk};
ghost use Rattle.exact_math.specs.Orders.{IsCapacity, IsOrder};
ghost use Rattle.complex_box.specs.Rows.{IsZero};
ghost use Rattle.field_basis.specs.Basis.{IsBasis};
ghost use Rattle.limits.specs.Limits.{grid_of};
ghost use Rattle.points.specs.Limits.{AreWithin, IsOrderOf, WithinLimits};
ghost use Rattle.quadtree.specs.Faults.{HasTree, IsFaultOf};
ghost use Rattle.quadtree.specs.TreeModel.{IsTreeOf};
ghost use Rattle.row_board.specs.Board.{AreEmptyPlaces, AreUnset, IsBoard, NoneIsMarked};
ghost use Rattle.row_board.specs.Names.{is_filled};
ghost use Rattle.row_board.specs.declared.name.Name.{Name};

use crate::board::Board;
use complex_box::CBox;
use field_basis::{Basis, Place};
use points::{Point, Points};
use quadtree::{Tree, TreeFault};
use std::alloc::{AllocError, Global};

/// So many places with rows of zeros and the radius 0.
fn zero_places<const P: usize>(alloc: Global, count: usize) -> Result<Vec<Place<P>>, AllocError>
    ensures len { IfOk result (λ v. length v.items ≡ count) }
    ensures rows { IfOk result (λ v. All (λ place. All IsZero place.row) v.items) }
    ensures radii { IfOk result (λ v. All (λ place. place.radius ≡ 0) v.items) }
{
    vec![in alloc; Place::zero(); count]
}

/// So many zero boxes.
fn zero_boxes(alloc: Global, count: usize) -> Result<Vec<CBox>, AllocError>
    ensures len { IfOk result (λ v. length v.items ≡ count) }
    ensures zero { IfOk result (λ v. All IsZero v.items) }
{
    vec![in alloc; CBox::zero(); count]
}

/// So many marks, none of them set.
fn no_marks(alloc: Global, count: usize) -> Result<Vec<bool>, AllocError>
    ensures { IfOk result (λ v. AreUnset count v.items) }
{
    vec![in alloc; false; count]
}

/// The rows of a board, and the boxes of its targets.
#[derive(Drop)]
struct Rows<const P: usize> {
    up: Vec<Place<P>>,
    local: Vec<Place<P>>,
    values: Vec<CBox>,
}

impl<const P: usize> Rows<P> {
    /// The rows of a basis and the boxes of its targets, all of them zero.
    fn zero(alloc: Global, basis: &Basis<P>) -> Result<Rows<P>, AllocError>
        ensures { IfOk result (λ rows. AreEmptyPlaces basis.now rows.up.items rows.local.items rows.values.items) }
    {
        let cells = basis.tree.cells().len();
        let up = zero_places(alloc, cells)?;
        let local = zero_places(alloc, cells)?;
        let values = zero_boxes(alloc, basis.targets.len())?;
        Ok(Rows { up, local, values })
    }
}

/// Which places of a board are filled.
#[derive(Drop)]
struct Marks {
    up: Vec<bool>,
    local: Vec<bool>,
    value: Vec<bool>,
}

impl Marks {
    /// The marks of so many cells and targets, none of them set.
    fn unset(alloc: Global, cells: usize, targets: usize) -> Result<Marks, AllocError>
        ensures up { IfOk result (λ marks. AreUnset cells marks.up.items) }
        ensures local { IfOk result (λ marks. AreUnset cells marks.local.items) }
        ensures value { IfOk result (λ marks. AreUnset targets marks.value.items) }
    {
        let up = no_marks(alloc, cells)?;
        let local = no_marks(alloc, cells)?;
        let value = no_marks(alloc, targets)?;
        Ok(Marks { up, local, value })
    }
}

/// What a board has beside its basis.
#[derive(Drop)]
struct Empty<const P: usize> {
    rows: Rows<P>,
    marks: Marks,
}

impl<const P: usize> Empty<P> {
    /// The empty rows of a basis, none of them marked.
    fn of(alloc: Global, basis: &Basis<P>) -> Result<Empty<P>, AllocError>
        ensures rows { IfOk result (λ empty. AreEmptyPlaces basis.now empty.rows.up.items empty.rows.local.items empty.rows.values.items) }
        ensures marks { IfOk result (λ empty. NoneIsMarked basis.now empty.marks.up.items empty.marks.local.items empty.marks.value.items) }
    {
        let rows = Rows::zero(alloc, basis)?;
        let marks = Marks::unset(alloc, rows.up.len(), rows.values.len())?;
        Ok(Empty { rows, marks })
    }
}

impl<const P: usize> Board<P> {
    /// The board of a list of points with a leaf capacity, with no place filled.
    ///
    /// Conditions: the list is within the limits of its version, `P` is one of the orders of that version, and the capacity is 8 to 1024.
    ///
    /// # Errors
    ///
    /// Where more than 4,096 points stand at one place, `Crowded` has the first such place by column and row, and how many they are; otherwise,
    /// where the tree has more cells than `limits::most_cells` of its grid, it is `Cells`. `Memory` is want of memory.
    pub fn new(alloc: Global, points: &Points, cap: u32) -> Result<Board<P>, TreeFault>
        requires list { WithinLimits points.now }
        requires order { IsOrderOf (grid_of points.now.version) P }
        requires capacity { IsCapacity cap }
        ensures board { IfOk result (λ board. IsBoard P board) }
        ensures points { IfOk result (λ board. board.basis.points ≡ points.now.list) }
        ensures cap { IfOk result (λ board. board.basis.cap ≡ cap) }
        ensures empty { IfOk result (λ board. (name : Name) → is_filled board name ≡ false) }
        ensures grid { IfOk result (λ board. board.basis.tree.grid ≡ grid_of points.now.version) }
        ensures has_tree { OnOk result (HasTree (grid_of points.now.version) points.now.list cap) }
        ensures fault { IfErr result (IsFaultOf (grid_of points.now.version) points.now.list cap) }
    {
        let tree = Tree::build(alloc, points, cap)?;
        Ok(Board::over(alloc, points.list.points(), cap, tree)?)
    }

    /// The board over the tree of the points, with no place filled.
    fn over(alloc: Global, points: &[Point], cap: u32, tree: Tree) -> Result<Board<P>, AllocError>
        requires order { IsOrder P }
        requires within { AreWithin tree.grid points.now }
        requires capacity { IsCapacity cap }
        requires tree { IsTreeOf tree points.now cap }
        ensures board { IfOk result (λ board. IsBoard P board) }
        ensures points { IfOk result (λ board. board.basis.points ≡ points.now) }
        ensures cap { IfOk result (λ board. board.basis.cap ≡ cap) }
        ensures grid { IfOk result (λ board. board.basis.tree.grid ≡ tree.grid) }
        ensures empty { IfOk result (λ board. (name : Name) → is_filled board name ≡ false) }
    {
        let basis = Basis::over(alloc, points, cap, tree)?;
        Board::empty(alloc, basis)
    }

    /// The board of a basis, with no place filled.
    fn empty(alloc: Global, basis: Basis<P>) -> Result<Board<P>, AllocError>
        requires { IsBasis P basis }
        ensures board { IfOk result (λ board. IsBoard P board) }
        ensures basis { IfOk result (λ board. board.basis ≡ basis.entry) }
        ensures empty { IfOk result (λ board. (name : Name) → is_filled board name ≡ false) }
    {
        let empty = Empty::of(alloc, &basis)?;
        Ok(Board::unmarked(basis, empty.rows, empty.marks))
    }

    /// The board of a basis with these empty rows and marks.
    fn unmarked(basis: Basis<P>, rows: Rows<P>, marks: Marks) -> Board<P>
        requires basis { IsBasis P basis }
        requires rows { AreEmptyPlaces basis rows.up.items rows.local.items rows.values.items }
        requires marks { NoneIsMarked basis marks.up.items marks.local.items marks.value.items }
        ensures board { IsBoard P result }
        ensures basis { result.basis ≡ basis.entry }
        ensures empty { (name : Name) → is_filled result name ≡ false }
    {
        Board {
            basis,
            up: rows.up,
            local: rows.local,
            values: rows.values,
            has_up: marks.up,
            has_local: marks.local,
            has_value: marks.value,
        }
    }
}
