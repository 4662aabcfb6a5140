//! The basis.
ghost use Rattle.std.specs.Prelude.{◌≡◌, ◌≤◌, length, All, IfOk};
ghost use Rattle.exact_math.specs.Orders.{IsCapacity, IsOrder};
ghost use Rattle.cell_lists.specs.Lists.{AreLists, VListsAreShort};
ghost use Rattle.points.specs.Limits.{AreWithin};
ghost use Rattle.quadtree.specs.TreeModel.{IsTreeOf, size};
ghost use Rattle.field_basis.specs.Basis.{IsBasis};
ghost use Rattle.field_basis.specs.Trees.{IsTreeOfPoints};
ghost use Rattle.field_basis.specs.Weights.{AreCounted, AreWeights, IsWeight};

use crate::targets::target_positions;
use crate::weights::weigh_cells;
use cell_lists::{EntryLists, lists};
use kernel_table::Kernel;
use points::Point;
use quadtree::Tree;
use std::alloc::{AllocError, Global};
use std::marker::Model;

/// What all rows of a field are made from: points within the limits of their grid, the leaf capacity, the tree of the points with its lists, the kernel of
/// the order `P`, the weight of each cell's sources at this order, and the positions of the targets.
#[derive(Drop)]
pub struct Basis<const P: usize> {
    pub points: Vec<Point>,
    pub cap: u32,
    pub tree: Tree,
    pub lists: EntryLists,
    pub kernel: Kernel<P>,
    pub weights: Vec<i128>,
    pub targets: Vec<u32>,
}

impl<const P: usize> Model for Basis<P> {
    ghost use Rattle.field_basis.specs.Basis.{BasisModel};

    ghost Value = { BasisModel };

    ghost use Rattle.field_basis.specs.Inside.{basis_seen, stands};

    ghost view = { basis_seen };

    ghost invariant = { stands };
}

/// The weights of all cells.
fn cell_weights(
    alloc: Global,
    tree: &Tree,
    points: &[Point],
    order: u32,
) -> Result<Vec<i128>, AllocError>
    requires tree { IsTreeOfPoints points.now tree.now }
    requires least { 1 ≤ order }
    requires most { order ≤ 32 }
    ensures len { IfOk result (λ v. length v.items ≡ size tree.now) }
    ensures weights { IfOk result (λ v. AreWeights points.now order tree.now v.items) }
    ensures size { IfOk result (λ v. All IsWeight v.items) }
{
    let mut weights = vec![in alloc; 0i128; tree.cells().len()]?;
    weigh_cells(tree, points, order, &mut weights);
    Ok(weights)
}

/// The copied points, the weight of each cell, and the positions of the targets.
#[derive(Drop)]
struct Counted {
    points: Vec<Point>,
    weights: Vec<i128>,
    targets: Vec<u32>,
}

impl Counted {
    /// What is counted of the points over their tree.
    fn of(alloc: Global, points: &[Point], tree: &Tree, order: u32) -> Result<Counted, AllocError>
        requires tree { IsTreeOfPoints points.now tree.now }
        requires least { 1 ≤ order }
        requires most { order ≤ 32 }
        ensures { IfOk result (λ c. AreCounted points.now order tree.now c.points.items c.weights.items c.targets.items) }
    {
        let weights = cell_weights(alloc, tree, points, order)?;
        let targets = target_positions(alloc, points)?;
        let points = Vec::from_slice(alloc, points)?;
        Ok(Counted {
            points,
            weights,
            targets,
        })
    }
}

/// What a basis has beside its tree.
#[derive(Drop)]
struct Beside<const P: usize> {
    counted: Counted,
    kernel: Kernel<P>,
    lists: EntryLists,
}

impl<const P: usize> Beside<P> {
    /// What a basis of the points has beside their tree.
    fn of(alloc: Global, points: &[Point], tree: &Tree) -> Result<Beside<P>, AllocError>
        requires order { IsOrder P }
        requires tree { IsTreeOfPoints points.now tree.now }
        ensures counted { IfOk result (λ b. AreCounted points.now P tree.now b.counted.points.items b.counted.weights.items b.counted.targets.items) }
        ensures lists { IfOk result (λ b. AreLists tree.now b.lists) }
        ensures short { IfOk result (λ b. VListsAreShort b.lists) }
    {
        let counted = Counted::of(alloc, points, tree, P as u32)?;
        let Ok(kernel) = Kernel::new(alloc) else {
            return Err(AllocError);
        };
        let Ok(lists) = lists(alloc, tree) else {
            return Err(AllocError);
        };
        Ok(Beside {
            counted,
            kernel,
            lists,
        })
    }
}

impl<const P: usize> Basis<P> {
    /// The basis over the tree of the points, which are copied.
    ///
    /// Conditions: `P` is one of the orders, the points are within the limits of the tree's grid, and the tree is theirs at the capacity, which
    /// is 8 to 1024.
    pub fn over(
        alloc: Global,
        points: &[Point],
        cap: u32,
        tree: Tree,
    ) -> Result<Basis<P>, AllocError>
        requires order { IsOrder P }
        requires within { AreWithin tree.grid points.now }
        requires capacity { IsCapacity cap }
        requires tree { IsTreeOf tree points.now cap }
        ensures stands { IfOk result (λ basis. IsBasis P basis) }
        ensures points { IfOk result (λ basis. basis.points ≡ points.now) }
        ensures cap { IfOk result (λ basis. basis.cap ≡ cap) }
        ensures tree { IfOk result (λ basis. basis.tree ≡ tree) }
    {
        let beside = Beside::of(alloc, points, &tree)?;
        let counted = beside.counted;
        Ok(Basis {
            points: counted.points,
            cap,
            tree,
            lists: beside.lists,
            kernel: beside.kernel,
            weights: counted.weights,
            targets: counted.targets,
        })
    }
}
