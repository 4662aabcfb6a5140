//! The board.
ghost use Rattle.std.specs.Prelude.{◌≡◌, false, IsTrue, ◌↔◌, MatchOption, IfSome};
ghost use Rattle.exact_math.specs.Units.{unit};
ghost use Rattle.complex_box.specs.Box.{BoxWithin, BoxContains};
ghost use Rattle.field_basis.specs.Basis.{target_place};
ghost use Rattle.field_basis.specs.FieldPlaces.{IsTargetBox};
ghost use Rattle.limits.specs.Limits.{most_box};
ghost use Rattle.near_field.specs.DirectSum.{direct_sum};
ghost use Rattle.row_board.specs.Board.{IsBoard, IsFilledBox};
ghost use Rattle.row_board.specs.Names.{IsName, is_filled};

use crate::name::Name;
use complex_box::CBox;
use field_basis::{Basis, Place};
use std::marker::Model;

/// A board with a place for the multipole row of each cell with a source, the local row and the radius of each cell with a target, and the box of
/// each target. Ends of boxes and radii count units of 2^-40.
#[derive(Drop)]
pub struct Board<const P: usize> {
    pub(crate) basis: Basis<P>,
    pub(crate) up: Vec<Place<P>>,
    pub(crate) local: Vec<Place<P>>,
    pub(crate) values: Vec<CBox>,
    pub(crate) has_up: Vec<bool>,
    pub(crate) has_local: Vec<bool>,
    pub(crate) has_value: Vec<bool>,
}

impl<const P: usize> Model for Board<P> {
    ghost use Rattle.row_board.specs.Parts.{BoardParts};

    ghost Value = { BoardParts };

    ghost use Rattle.row_board.specs.Inside.{parts, holds_board};

    ghost view = { parts };

    ghost invariant = { holds_board };
}

impl<const P: usize> Board<P> {
    /// Whether there is a place of this name.
    pub fn has(&self, name: Name) -> bool
        ensures { IsTrue result ↔ IsName self.now name }
    {
        let tree = &self.basis.tree;
        match name {
            Name::Up(n) => n < tree.cells().len() && tree.has_source(n),
            Name::Local(n) => n < tree.cells().len() && tree.has_target(n),
            Name::Value(k) => k < self.basis.targets.len(),
        }
    }

    /// Whether the place of this name is filled.
    pub fn filled(&self, name: Name) -> bool
        ensures filled { result ≡ is_filled self.now name }
        ensures board { IsBoard P self.now }
    {
        match name {
            Name::Up(n) => n < self.has_up.len() && self.has_up[n],
            Name::Local(n) => n < self.has_local.len() && self.has_local[n],
            Name::Value(k) => k < self.has_value.len() && self.has_value[k],
        }
    }

    /// The box of the k-th target, counted from 0, which contains the direct sum there; `None` where it isn't filled. Condition: there are more
    /// than `k` targets.
    pub fn value(&self, k: usize) -> Option<CBox>
        requires { IsName self.now (Name.Value k) }
        ensures value { MatchOption result (is_filled self.now (Name.Value k) ≡ false) (IsFilledBox self.now k) }
        ensures field { IfSome result (λ value. IsTargetBox P self.now.basis k value) }
        ensures size { IfSome result (λ value. BoxWithin (most_box self.now.basis.tree.grid) value) }
        ensures contains { IfSome result (λ value. BoxContains unit value (direct_sum (target_place self.now.basis k) self.now.basis.points)) }
    {
        if self.has_value[k] {
            Some(self.values[k])
        } else {
            None
        }
    }
}
