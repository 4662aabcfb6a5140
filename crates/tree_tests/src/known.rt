//! The trees that the tests begin with.
use quadtree::Tree;
use std::alloc::Global;
use std::test::Fail;
use test_points::{points_of, wide_points_of};

/// The tree of a list of some lines at capacity 8.
pub fn tree_of(alloc: Global, lines: &[(u32, &str)]) -> Result<Tree, Fail> {
    let points = points_of(alloc, lines)?;
    Ok(Tree::build(alloc, &points, 8)?)
}

/// The same of the lines in a text of version 2.
pub fn wide_tree_of(alloc: Global, lines: &[(u32, &str)]) -> Result<Tree, Fail> {
    let points = wide_points_of(alloc, lines)?;
    Ok(Tree::build(alloc, &points, 8)?)
}
