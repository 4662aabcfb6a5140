//! The shift up: the multipole row of a cell about the centre of its parent.
//!
//! With `x` the place of a source in the child's sides from the child's centre, its place in the parent's from the parent's centre is
//! `(2 x + q)/4` for the child's quadrant `q`: so each round replaces one factor `x` of the moments by this one.
#![tactic(auto)]

mod add;
mod rounds;
mod take;

pub use add::shift_up;
pub use take::take_up;
