//! The answers.
ghost use Rattle.std.specs.Prelude.{◌≡◌, ℕ, ◌<◌, ◌↔◌, true, false, length, slice_index_or, All, IfOk};
ghost use Rattle.certificate_nodes.specs.Presented.{accounting_of, node_count, EntriesHold};
ghost use Rattle.certificate_tiling.specs.Order.{nodes_of};
ghost use Rattle.certificate_tiling.specs.Walk.{CoversAt, Tells, parents_of};
ghost use Rattle.soundness.specs.Accounts.{is_leaf};
ghost use Rattle.soundness.specs.Rules.{IsTiled};

use crate::lists::{leaves, node_count, parents};
use crate::order::{Visit, visits};
use crate::walk::{enter, go_to};
use certificate_nodes::Presented;
use io_ports::Memory;
use path_cover::Cover;
use std::alloc::{AllocError, Global};

/// The answers at the nodes that are visited, one after the other from node 0 on.
fn answers(
    alloc: Global,
    given: &Presented,
    cover: &mut Cover,
    order: &[Visit],
) -> Result<Vec<bool>, AllocError>
    requires entries { EntriesHold given.now }
    requires some { 0 < node_count given.now }
    requires at { CoversAt (accounting_of given.now) 0 cover.old }
    requires nodes { All (λ n. n < node_count given.now) (nodes_of order.now) }
    ensures len { IfOk result (λ tiled. length tiled.items ≡ node_count given.now) }
    ensures visited { IfOk result (λ tiled. All (Tells (accounting_of given.now) tiled.items) (nodes_of order.now)) }
{
    let mut tiled = vec![in alloc; false; node_count(given) as usize]?;
    let mut at = 0;
    for visit in order {
        let n = visit.node as usize;
        go_to(cover, given, at, n);
        at = n;
        tiled[n] = cover.is_once();
    }
    Ok(tiled)
}

/// The cover at node 0. Condition: there is one.
fn at_root(alloc: Global, given: &Presented, parents: &[u32]) -> Result<Cover, AllocError>
    requires parents { parents.now ≡ parents_of (accounting_of given.now) }
    requires some { 0 < node_count given.now }
    ensures { IfOk result (λ cover. CoversAt (accounting_of given.now) 0 cover) }
{
    let cert = given.cert();
    let leaves = leaves(alloc, given)?;
    let mut cover = Cover::none(alloc, parents, &leaves)?;
    enter(&mut cover, cert, given.entries(0));
    Ok(cover)
}

/// The answers at all nodes.
fn all_answers(alloc: Global, given: &Presented) -> Result<Vec<bool>, AllocError>
    requires entries { EntriesHold given.now }
    ensures len { IfOk result (λ tiled. length tiled.items ≡ node_count given.now) }
    ensures tells { IfOk result (λ tiled. (n : ℕ) → n < node_count given.now → Tells (accounting_of given.now) tiled.items n) }
{
    if node_count(given) == 0 {
        return Ok(Vec::new(alloc));
    }
    let parents = parents(alloc, given)?;
    let order = visits(alloc, &parents)?;
    let mut cover = at_root(alloc, given, &parents)?;
    answers(alloc, given, &mut cover, &order)
}

/// For each node that is a leaf: whether the entries that reach it account for each source exactly once.
///
/// Condition: each entry's line holds. The nodes are visited in an order in which those under a node follow it, and so each entry begins and ceases to cover
/// once, in as many steps as its c is deep: where all nodes' lines hold, in at most as many as the grid has bits.
pub fn tilings(alloc: Global, given: &Presented) -> Result<Vec<bool>, Memory>
    requires entries { EntriesHold given.now }
    ensures len { IfOk result (λ tiled. length tiled.items ≡ node_count given.now) }
    ensures tiled { IfOk result (λ tiled. (n : ℕ) → n < node_count given.now → is_leaf (accounting_of given.now) n ≡ true → slice_index_or tiled.items n false ≡ true ↔ IsTiled (accounting_of given.now) n) }
{
    match all_answers(alloc, given) {
        Ok(tiled) => Ok(tiled),
        Err(_) => Err(Memory),
    }
}
