ghost use Rattle.std.specs.Prelude.{◌≡◌, ◌≤◌, ◌++◌, OnOk, IfOk, option_to_list, length};
ghost use Rattle.road_graph.specs.Roads.{IsNode, ins};
ghost use Rattle.contraction.specs.Starting.{AreFirst, AreInto, IsFirst};

use crate::bridge::push_maybe;
use ride_base::{Items, NoMemory};
use road_graph::{Graph, NodeNo, Steps};
use std::alloc::Global;
use upward_search::RankArc;

/// A road between two nodes as an arc, where no other road between them weighs less.
fn road_arc<L>(
    graph: &Graph,
    from: NodeNo,
    to: NodeNo,
    weight: u32,
    steps: &mut Steps<L>,
) -> Option<RankArc>
    ensures first { IsFirst graph.now from to weight result }
    ensures asks { steps.new.1 ≡ steps.old.1 }
    ensures steps { steps.old.0 ≤ steps.new.0 }
{
    if from == to || graph.joined(from, to, steps) != Some(weight) {
        return None;
    }
    Some(RankArc {
        from,
        to,
        length: u64::from(weight),
        middle: None,
    })
}

/// Adds the roads into a node as arcs.
fn roads_into<L>(
    graph: &Graph,
    node: NodeNo,
    found: &mut Items<RankArc>,
    steps: &mut Steps<L>,
) -> Result<(), NoMemory>
    requires { IsNode graph.now node }
    ensures found { OnOk result
        (AreInto graph.now node (length (ins graph.now node)) found.old found.new) }
    ensures asks { steps.new.1 ≡ steps.old.1 }
    ensures steps { steps.old.0 ≤ steps.new.0 }
{
    for index in 0..graph.in_count(node) {
        let (from, weight) = graph.in_road(node, index, steps);
        push_maybe(found, road_arc(graph, from, node, weight, steps))?;
    }
    Ok(())
}

/// The roads as arcs: between each two nodes that roads join one of the least weight, and none from a node to itself.
pub(crate) fn first_arcs<L>(
    alloc: Global,
    graph: &Graph,
    steps: &mut Steps<L>,
) -> Result<Items<RankArc>, NoMemory>
    ensures found { IfOk result (λ found. AreFirst graph.now graph.now.nodes found) }
    ensures asks { steps.new.1 ≡ steps.old.1 }
    ensures steps { steps.old.0 ≤ steps.new.0 }
{
    let mut found = Items::new(alloc);
    for number in 0..graph.nodes() {
        roads_into(graph, NodeNo(number + 1), &mut found, steps)?;
    }
    Ok(found)
}
