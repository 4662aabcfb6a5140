//! The walk of the tree that meets each cell that may be in a list.

ghost use Rattle.std.specs.Prelude.{◌≡◌, ◌<◌, ℕ, IsTrue, length, OnOk, Contains};
ghost use Rattle.std.specs.List.Sorted.{IsStrictlyIncreasing};
ghost use Rattle.cell_lists.specs.Walks.{AreNumbers, AreColleagues, IsMet, IsBelow, AddsChildren, HasTouching, KeepsTouching};
ghost use Rattle.quadtree.specs.TreeModel.{size, node_of, IsTree};

use crate::flat::NumberLists;
use quadtree::Tree;
use std::alloc::AllocError;

/// Appends the children of those cells from place `start` on that touch the cell `b`.
fn push_children(
    tree: &Tree,
    found: &mut Vec<u32>,
    start: usize,
    b: usize,
) -> Result<(), AllocError>
    requires cell { b < size tree.now }
    requires numbers { AreNumbers tree.now found.old.items }
    ensures { OnOk result (AddsChildren tree.now b start (length found.old.items) found.old.items found.new.items) }
{
    let cells = tree.cells();
    let end = found.len();
    for at in start..end {
        let c = found[at] as usize;
        if cells[c].touches(cells[b]) {
            found.extend_from_slice(tree.children(c))?;
        }
    }
    Ok(())
}

/// Appends, where `b` is a leaf, the cells below its level whose parents touch it. Those of its level that touch it have been found.
pub(crate) fn push_below(tree: &Tree, found: &mut Vec<u32>, b: usize) -> Result<(), AllocError>
    requires cell { b < size tree.now }
    requires numbers { AreNumbers tree.now found.old.items }
    requires found { HasTouching tree.now b found.old.items }
    ensures numbers { OnOk result (AreNumbers tree.now found.new.items) }
    ensures kept { OnOk result ((c : ℕ) → Contains found.old.items c → Contains found.new.items c) }
    ensures whole { OnOk result (IsTrue (node_of tree.now b).is_leaf → (c : ℕ) → IsBelow tree.now b c → Contains found.new.items c) }
{
    if !tree.is_leaf(b) {
        return Ok(());
    }
    let mut start = 0;
    for _level in tree.cells()[b].level..tree.grid() {
        let end = found.len();
        push_children(tree, found, start, b)?;
        start = end;
    }
    Ok(())
}

/// Finds the cells of the level of `b`, and the leaves above it, that are near its parent; for the whole grid, itself.
pub(crate) fn find_around(
    tree: &Tree,
    near: &NumberLists,
    b: usize,
    found: &mut Vec<u32>,
) -> Result<(), AllocError>
    requires tree { IsTree tree.now }
    requires cell { b < size tree.now }
    requires colleagues { AreColleagues tree.now near.now b }
    ensures numbers { OnOk result (AreNumbers tree.now found.new.items) }
    ensures whole { OnOk result ((c : ℕ) → IsMet tree.now b c → Contains found.new.items c) }
{
    found.clear();
    if b == 0 {
        found.push(0)?;
        return Ok(());
    }
    let colleagues = near.list(tree.parent(b));
    for c in colleagues {
        if tree.is_leaf(*c as usize) {
            found.push(*c)?;
        }
        found.extend_from_slice(tree.children(*c as usize))?;
    }
    Ok(())
}

/// Finds those of the found cells that touch `b`.
pub(crate) fn find_touching(
    tree: &Tree,
    found: &[u32],
    b: usize,
    touching: &mut Vec<u32>,
) -> Result<(), AllocError>
    requires cell { b < size tree.now }
    requires numbers { AreNumbers tree.now found.now }
    ensures numbers { OnOk result (AreNumbers tree.now touching.new.items) }
    ensures whole { OnOk result (KeepsTouching tree.now b found.now touching.new.items) }
{
    touching.clear();
    let cells = tree.cells();
    for c in found {
        if cells[*c as usize].touches(cells[b]) {
            touching.push(*c)?;
        }
    }
    Ok(())
}

/// Puts numbers in ascending order, each once.
pub(crate) fn sort_once(numbers: &mut Vec<u32>)
    ensures ascending { IsStrictlyIncreasing numbers.new.items }
    ensures same { (n : ℕ) → Contains numbers.old.items n → Contains numbers.new.items n }
    ensures no_other { (n : ℕ) → Contains numbers.new.items n → Contains numbers.old.items n }
{
    numbers.sort_unstable();
    numbers.dedup();
}
