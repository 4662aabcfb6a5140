//! The tree and what it tells.

ghost use Rattle.std.specs.Prelude.{◌≡◌, ◌-◌, ◌≤◌, ◌<◌, length, slice_index, MatchOption, Contains};
ghost use Rattle.cell_name.specs.Cell.{square};
ghost use Rattle.quadtree.specs.Fields.{child_numbers};
ghost use Rattle.quadtree.specs.TreeModel.{IsTree, IsLevel, size, squares, square_of, node_of, leaf_of};

use crate::children::Children;
use cell_name::Cell;
use std::marker::Model;
use std::ops::Range;

/// What is kept of a cell: its parent's number, its points as a range of positions, what kind of cell it is, and its children's numbers.
#[derive(Clone, Copy)]
pub struct Node {
    pub(crate) parent: usize,
    pub(crate) from: usize,
    pub(crate) to: usize,
    pub(crate) is_leaf: bool,
    pub(crate) has_source: bool,
    pub(crate) has_target: bool,
    pub(crate) children: Children,
}

/// The adaptive quadtree of a list of points with a leaf capacity, on the grid of the list's version.
///
/// A cell is in the tree where it has a point and is the whole grid, or its parent has more points than the capacity.
/// It is a leaf where it has no more than that, or is of the last level.
#[derive(Drop)]
pub struct Tree {
    pub(crate) grid: u8,
    pub(crate) cells: Vec<Cell>,
    pub(crate) nodes: Vec<Node>,
    pub(crate) positions: Vec<u32>,
    pub(crate) leaves: Vec<u32>,
}

impl Model for Tree {
    ghost use Rattle.quadtree.specs.Fields.{tree_of, AreFieldsOfTree};
    ghost use Rattle.quadtree.specs.TreeModel.{TreeModel};

    ghost Value = { TreeModel };

    ghost view = { λ t. tree_of t.grid t.cells.items t.nodes.items t.positions.items t.leaves.items };

    ghost invariant = { λ t. AreFieldsOfTree t.grid t.cells.items t.nodes.items t.positions.items t.leaves.items };
}

impl Tree {
    /// The bits of the grid.
    pub fn grid(&self) -> u8
        ensures { result ≡ self.now.grid }
    {
        self.grid
    }

    /// All cells, ascending by level, column and row. A cell's number is its place here, counted from 0.
    pub fn cells(&self) -> &[Cell]
        ensures all { result.now ≡ self.now.cells }
        ensures tree { IsTree self.now }
    {
        self.cells.as_slice()
    }

    /// The number of a cell, or nothing where it isn't in the tree.
    pub fn find(&self, c: Cell) -> Option<usize>
        ensures { MatchOption result (Contains (squares self.now) (square c) → ⊥) (λ n. (n < size self.now) × (square_of self.now n ≡ square c)) }
    {
        self.cells.binary_search(&c).ok()
    }

    /// What is kept of the cell.
    fn node(&self, n: usize) -> &Node
        requires { n < size self.now }
        ensures parent { result.now.parent ≡ (node_of self.now n).parent }
        ensures ordered { result.now.from ≤ result.now.to }
        ensures count { result.now.to - result.now.from ≡ (node_of self.now n).count }
        ensures leaf { result.now.is_leaf ≡ (node_of self.now n).is_leaf }
        ensures source { result.now.has_source ≡ (node_of self.now n).has_source }
        ensures target { result.now.has_target ≡ (node_of self.now n).has_target }
        ensures few { result.now.children.count ≤ 4 }
        ensures children { child_numbers result.now.children ≡ (node_of self.now n).children }
    {
        &self.nodes[n]
    }

    /// The number of the parent; 0 for cell 0.
    pub fn parent(&self, n: usize) -> usize
        requires { n < size self.now }
        ensures { result ≡ (node_of self.now n).parent }
    {
        self.node(n).parent
    }

    /// The numbers of the cells whose parent the cell is, ascending: those of its quarters that have a point.
    pub fn children(&self, n: usize) -> &[u32]
        requires { n < size self.now }
        ensures { result.now ≡ (node_of self.now n).children }
    {
        self.node(n).children.numbers()
    }

    /// The numbers of the cells of a level.
    pub fn level(&self, level: u8) -> Range<usize>
        ensures { IsLevel self.now level result.start result.end }
    {
        Range {
            start: self.cells.partition_point(|c| c.level < level),
            end: self.cells.partition_point(|c| c.level <= level),
        }
    }

    /// Whether the cell is a leaf.
    pub fn is_leaf(&self, n: usize) -> bool
        requires { n < size self.now }
        ensures { result ≡ (node_of self.now n).is_leaf }
    {
        self.node(n).is_leaf
    }

    /// How many points, sources and targets together, the cell has.
    pub fn count(&self, n: usize) -> u64
        requires { n < size self.now }
        ensures { result ≡ (node_of self.now n).count }
    {
        let node = self.node(n);
        (node.to - node.from) as u64
    }

    /// Whether a source lies in the cell.
    pub fn has_source(&self, n: usize) -> bool
        requires { n < size self.now }
        ensures { result ≡ (node_of self.now n).has_source }
    {
        self.node(n).has_source
    }

    /// Whether a target lies in the cell.
    pub fn has_target(&self, n: usize) -> bool
        requires { n < size self.now }
        ensures { result ≡ (node_of self.now n).has_target }
    {
        self.node(n).has_target
    }

    /// The positions in the list of the points in the cell, ascending.
    pub fn members(&self, n: usize) -> &[u32]
        requires { n < size self.now }
        ensures { result.now ≡ (node_of self.now n).members }
    {
        let node = self.nodes[n];
        &self.positions[node.from..node.to]
    }

    /// The number of the leaf of the k-th point, counted from 0.
    pub fn leaf_of(&self, k: usize) -> usize
        requires { k < length self.now.leaves }
        ensures { result ≡ leaf_of self.now k }
    {
        self.leaves[k] as usize
    }
}
