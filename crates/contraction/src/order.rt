ghost use Rattle.std.specs.Prelude.{◌≡◌, ◌+◌, ◌<◌, ◌≤◌, IfOk, length};
ghost use Rattle.road_graph.specs.Roads.{IsNode};
ghost use Rattle.road_graph.specs.Graphs.{IsGraph};
ghost use Rattle.upward_search.specs.Hierarchies.{Fits};
ghost use Rattle.contraction.specs.Queues.{AreBelow, IsNodeTaken, nodes_of};
ghost use Rattle.contraction.specs.Searching.{IsMarked};
ghost use Rattle.contraction.specs.Working.{IsWork, AllDone, AreNumbers, IsNext, AreRows};

use crate::costs::Depths;
use crate::queue::{Candidate, Queue};
use crate::search::Search;
use crate::work::Work;
use ride_base::NoMemory;
use road_graph::{Graph, NodeNo, Steps};
use std::alloc::Global;
use upward_search::Hierarchy;

/// How many nodes are put back before one is taken whose cost may not be the least.
const TRIES: u32 = 4_194_304;

/// A hierarchy that fits the graph. It removes the nodes one after another, those that cost least first. It counts the roads that it
/// reads, also where memory ends; nothing else is left then.
pub fn contract<L>(
    alloc: Global,
    graph: &Graph,
    steps: &mut Steps<L>,
) -> Result<Hierarchy, NoMemory>
    ensures fits { IfOk result (Fits graph.now) }
    ensures asks { steps.new.1 ≡ steps.old.1 }
    ensures steps { steps.old.0 ≤ steps.new.0 }
{
    let mut work = Work::begin(alloc, graph, steps)?;
    let _removed = remove_all(alloc, graph, &mut work)?;
    Hierarchy::assemble(
        alloc,
        graph,
        work.ranks.as_slice(),
        work.climbing.as_slice(),
        work.falling.as_slice(),
    )
}

/// All nodes of a graph, by what they cost at first.
fn first_order(
    alloc: Global,
    graph: &Graph,
    work: &Work,
    search: &mut Search,
    depths: &Depths,
) -> Result<Queue, NoMemory>
    requires rows { AreRows (graph.now.nodes + 1) work.now }
    requires marked { IsMarked (graph.now.nodes + 1) search.old }
    requires depths { length depths.now.each.items ≡ graph.now.nodes + 1 }
    ensures nodes { IfOk result (λ waiting. AreNumbers graph.now.nodes (nodes_of waiting)) }
    ensures marked { IfOk result (λ _. IsMarked (graph.now.nodes + 1) search.new) }
{
    let mut waiting = Queue::new(alloc);
    for number in 0..graph.nodes() {
        let node = NodeNo(number + 1);
        let key = depths.cost(work, search, node)?;
        waiting.push(Candidate { key, node })?;
    }
    Ok(waiting)
}

/// Takes a node that costs no more than the others did when they were last looked at.
fn take_next(
    waiting: &mut Queue,
    work: &Work,
    search: &mut Search,
    depths: &Depths,
) -> Result<Option<NodeNo>, NoMemory>
    requires rows { AreRows (length depths.now.each.items) work.now }
    requires marked { IsMarked (length depths.now.each.items) search.old }
    requires nodes { AreBelow (length depths.now.each.items) (nodes_of waiting.old) }
    ensures taken { IfOk result (λ node. IsNodeTaken waiting.old node waiting.new) }
    ensures marked { IfOk result (λ _. IsMarked (length depths.now.each.items) search.new) }
{
    'trying: for _ in 0..TRIES {
        let Some(first) = waiting.pop() else {
            return Ok(None);
        };
        let node = first.node;
        let key = depths.cost(work, search, node)?;
        if waiting.is_least(key) {
            return Ok(Some(node));
        }
        waiting.push(Candidate { key, node })?;
    }
    let Some(first) = waiting.pop() else {
        return Ok(None);
    };
    Ok(Some(first.node))
}

/// Removes all nodes. It says how many these were.
fn remove_all(alloc: Global, graph: &Graph, work: &mut Work) -> Result<u32, NoMemory>
    requires { IsWork graph.now 0 work.old }
    ensures work { IfOk result (λ count. IsWork graph.now count work.new) }
    ensures all { IfOk result (λ count. AllDone graph.now work.new count) }
{
    let mut search = Search::new(alloc, graph)?;
    let mut depths = Depths::new(alloc, graph)?;
    let mut waiting = first_order(alloc, graph, work, &mut search, &depths)?;
    let mut rank = 0;
    'removing: while let Some(node) = take_next(&mut waiting, work, &mut search, &depths)? {
        depths.deepen(work, node);
        rank = remove_next(alloc, graph, work, &mut search, node, rank)?;
    }
    Ok(rank)
}

/// Removes a node, unless it has been removed. It gives the next rank.
fn remove_next(
    alloc: Global,
    graph: &Graph,
    work: &mut Work,
    search: &mut Search,
    node: NodeNo,
    rank: u32,
) -> Result<u32, NoMemory>
    requires work { IsWork graph.now rank work.old }
    requires marked { IsMarked (graph.now.nodes + 1) search.old }
    requires node { IsNode graph.now node }
    requires room { rank < graph.now.nodes }
    ensures work { IfOk result (λ next. IsWork graph.now next work.new) }
    ensures marked { IfOk result (λ _. IsMarked (graph.now.nodes + 1) search.new) }
    ensures next { IfOk result (λ next. IsNext graph.now work.old work.new node rank next) }
{
    if work.ranks[node.0 as usize] != graph.nodes() {
        return Ok(rank);
    }
    work.remove(alloc, graph, search, node, rank)?;
    Ok(rank + 1)
}
