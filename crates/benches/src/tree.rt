//! Builds the tree and the lists of a sample of 20,000 points, and counts the cells, the leaves and the entries of each
//! letter; when it is timed it says how long both took.
ghost use Rattle.points.specs.Limits.{WithinLimits};

use crate::no_memory;
use cell_lists::{EntryLists, lists};
use letters::Letter;
use point_sample::sample_points;
use points::Points;
use quadtree::Tree;
use std::io;
use std::time::Instant;

/// How many leaves the tree has.
fn leaf_count(tree: &Tree) -> usize {
    let mut leaves = 0usize;
    for n in 0..tree.cells().len() {
        if tree.is_leaf(n) {
            leaves = leaves.saturating_add(1);
        }
    }
    leaves
}

/// Says what was built.
fn tell(rt: &HostRuntime, tree: &Tree, entries: &EntryLists) -> io::Result<()> {
    let cells = tree.cells().len();
    let leaves = leaf_count(tree);
    let u = entries.total(Letter::U);
    let v = entries.total(Letter::V);
    let w = entries.total(Letter::W);
    let x = entries.total(Letter::X);
    println!(rt; "tree cells {cells} leaves {leaves}")?;
    println!(rt; "lists u {u} v {v} w {w} x {x}")
}

/// The tree of the points, and how many microseconds it took.
fn built(rt: &HostRuntime, points: &Points) -> io::Result<(Tree, u128)>
    requires { WithinLimits points.now }
{
    let start = Instant::now(rt)?;
    let Ok(tree) = Tree::build(rt.alloc(), points, 32) else {
        return Err(io::Error::from(io::ErrorKind::InvalidData));
    };
    let micros = start.elapsed(rt)?.as_micros();
    Ok((tree, micros))
}

/// Makes the lists of the tree, says what was built, and gives how many microseconds the lists took.
fn listed(rt: &HostRuntime, tree: &Tree) -> io::Result<u128> {
    let start = Instant::now(rt)?;
    let Ok(entries) = lists(rt.alloc(), tree) else {
        return Err(no_memory());
    };
    let micros = start.elapsed(rt)?.as_micros();
    tell(rt, tree, &entries)?;
    Ok(micros)
}

pub fn run(rt: &HostRuntime, timed: bool) -> io::Result<()> {
    let Ok(points) = sample_points(rt.alloc(), 7, 20_000) else {
        return Err(no_memory());
    };
    let (tree, built) = built(rt, &points)?;
    let listed = listed(rt, &tree)?;
    if timed {
        println!(rt; "tree in {built} us, lists in {listed} us")?;
    }
    Ok(())
}
