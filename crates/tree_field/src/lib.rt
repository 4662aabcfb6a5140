//! The field of the method over the adaptive tree: multipole rows, local rows and radii of its cells, and a box for each target, as definitions
//! for any list of points, any capacity of the leaves, any order and any grid; and that each box contains the exact direct sum. Nothing
//! here runs.
//!
//! `specs/` has the cells and entries as lists, the recursions on cells, and the counts of translations and pairs. Rows are those of
//! `row_recursions`, cells and entries are the predicates of `quadtree` and `cell_lists`.
#![tactic(auto)]

mod contents;
mod law;
mod sizes;

pub use contents::{local_rows_hold, multipole_rows_hold, values_hold};
pub use law::{
    boxes_contain_the_sum, rows_of_neighbours, translations_are_few, tree_is_determined,
    trees_of_the_program,
};
pub use sizes::{entries_meet_each_source_once, entries_share_no_source, field_is_bounded};
