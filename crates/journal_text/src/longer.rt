ghost use Rattle.std.specs.Prelude.{◌≡◌, ◌++◌, ◌==◌, ◌%◌, ◌<◌, List, length, OnOk, OnErr, IfOk};
ghost use Rattle.journal_text.specs.TextGroups.{is_full_walk, last_walk as last_walk_of};
ghost use Rattle.journal_text.specs.Drafts.{Takes, lengthened, longer_walks, last_listed, last_node_of, are_pairs_full_in, more_listed, with_pairs};

use crate::runs::{NODES_ON_LINE, PAIRS_ON_LINE};
use plain_search::Potential;
use ride_base::{Items, NoMemory};
use road_graph::NodeNo;
use std::alloc::Global;
use std::mem;

/// The most nodes of a walk.
const MOST_NODES: usize = 2_097_152;

/// Puts copies of items at the end. At want of memory nothing changes.
fn extend<T: Copy>(alloc: Global, items: &mut Items<T>, more: &[T]) -> Result<(), NoMemory>
    ensures ok { OnOk result (items.new ≡ items.old ++ more.now) }
    ensures err { OnErr result (items.new ≡ items.old) }
{
    let mut held = mem::replace(items, Items::new(alloc)).into_vec();
    let added = held.extend_from_slice(more);
    *items = Items::from_vec(held);
    added
}

/// Puts nodes at the end of a walk, and answers whether it may have as many. Where it may not, and at want of memory, nothing changes.
pub(crate) fn lengthen(
    alloc: Global,
    walk: &mut Items<NodeNo>,
    nodes: &[NodeNo],
) -> Result<bool, NoMemory>
    ensures ok { IfOk result
        (λ taken. Takes (lengthened walk.old nodes.now) walk.old taken walk.new) }
    ensures err { OnErr result (walk.new ≡ walk.old) }
{
    if walk.len() > MOST_NODES || nodes.len() > MOST_NODES - walk.len() {
        return Ok(false);
    }
    extend(alloc, walk, nodes)?;
    Ok(true)
}

/// The same of the last of some walks.
pub(crate) fn lengthen_last(
    alloc: Global,
    walks: &mut Items<Items<NodeNo>>,
    nodes: &[NodeNo],
) -> Result<bool, NoMemory>
    requires { 0 < length walks.old }
    ensures ok { IfOk result
        (λ taken. Takes (longer_walks walks.old nodes.now) walks.old taken walks.new) }
    ensures err { OnErr result (walks.new ≡ walks.old) }
{
    let mut held = mem::replace(walks, Items::new(alloc)).into_vec();
    let last = held.len() - 1;
    let taken = lengthen(alloc, &mut held[last], nodes);
    *walks = Items::from_vec(held);
    taken
}

/// Puts pairs at the end of those of the last of some potentials. At want of memory nothing changes.
pub(crate) fn list_more(
    alloc: Global,
    potentials: &mut Items<Potential>,
    pairs: &[(NodeNo, u64)],
) -> Result<(), NoMemory>
    requires { 0 < length potentials.old }
    ensures ok { OnOk result (potentials.new ≡ with_pairs potentials.old pairs.now) }
    ensures err { OnErr result (potentials.new ≡ potentials.old) }
{
    let mut held = mem::replace(potentials, Items::new(alloc)).into_vec();
    let last = held.len() - 1;
    let added = extend(alloc, &mut held[last].listed, pairs);
    *potentials = Items::from_vec(held);
    added
}

/// The nodes of the last of some walks; none where there is no walk.
pub(crate) fn last_walk(walks: &Items<Items<NodeNo>>) -> &[NodeNo]
    ensures { result.now ≡ last_walk_of walks.now }
{
    match walks.as_slice().last() {
        Some(walk) => walk.as_slice(),
        None => &[],
    }
}

/// Whether the last line of a walk has as many nodes as it may.
pub(crate) fn is_full(nodes: &[NodeNo]) -> bool
    ensures { result ≡ is_full_walk nodes.now }
{
    !nodes.is_empty() && nodes.len() % NODES_ON_LINE == 0
}

/// The pairs of the last of some potentials; none where there is no potential.
fn pairs_of_last(potentials: &Items<Potential>) -> &[(NodeNo, u64)]
    ensures { result.now ≡ last_listed potentials.now }
{
    match potentials.as_slice().last() {
        Some(potential) => potential.listed.as_slice(),
        None => &[],
    }
}

/// The node of the last pair of the last of some potentials, where there is one.
pub(crate) fn last_node(potentials: &Items<Potential>) -> Option<NodeNo>
    ensures { result ≡ last_node_of (last_listed potentials.now) }
{
    match pairs_of_last(potentials).last() {
        Some((node, _)) => Some(*node),
        None => None,
    }
}

/// Whether there is a potential, and the last line of the last one has as many pairs as it may, or is its first one.
pub(crate) fn are_pairs_full(potentials: &Items<Potential>) -> bool
    ensures { result ≡ are_pairs_full_in potentials.now }
{
    !potentials.is_empty() && pairs_of_last(potentials).len() % PAIRS_ON_LINE == 0
}
