ghost use Rattle.std.specs.Prelude.{◌≡◌, ℕ, ◌+◌, ◌<◌, ◌≤◌, ◌^◌, ◌==◌, List, length, filter, IfOk, IfNone, OnOk, MatchResult, slice_get, Some, None, not};
ghost use Rattle.road_graph.specs.Roads.{IsNode, is_node, outs, ins, least_weight, lighter_of, is_within};
ghost use Rattle.road_graph.specs.Limits.{most_roads, most_walk_nodes};
ghost use Rattle.road_graph.specs.Walks.{walk_length as length_as_walk};
ghost use Rattle.road_graph.specs.Reads.{read_along};
ghost use Rattle.road_graph.specs.Faults.{fault_in, first_outside, IsCause};
ghost use Rattle.road_graph.specs.Graphs.{IsGraph, AreRoadsOf};
ghost use Rattle.road_graph.specs.Listing.{least_in};

use crate::limits::{MOST_NODES, MOST_ROADS};
use crate::road::{NodeNo, Road};
use crate::road_list::RoadList;
use crate::rows::{Rows, Way};
use crate::steps::Steps;
use ride_base::NoMemory;
use std::alloc::Global;
use std::marker::Model;

/// Why no graph was built of a list of roads. Nothing of it is kept.
#[derive(Debug, Clone, Copy, PartialEq, Eq)]
pub enum BuildFault {
    /// There are more than 2,097,152 nodes or more than 8,388,608 roads.
    Large,
    /// The numbers are not too large, and the road at this place of the list, counted from 0, is the first with an end that is no
    /// node.
    Node { at: usize },
    /// There is no memory for the graph, whose numbers are in order.
    NoMemory,
}

impl From<NoMemory> for BuildFault {
    ghost use Rattle.std.specs.Prelude.{◌≡◌};
    ghost use Rattle.road_graph.specs.declared.graph.BuildFault.TheVariants.{NoMemory};

    ghost from_gives = { λ _ e. e ≡ NoMemory };

    fn from(_: NoMemory) -> BuildFault {
        BuildFault::NoMemory
    }
}

/// Roads that go one way between numbered nodes: 0 to 8,388,608 roads, and the nodes 1 to a number, which is 0 to 2,097,152. They stand
/// in flat arrays, row after row, and the list of them in no memory. A graph is never changed.
#[derive(Drop)]
pub struct Graph {
    nodes: u32,
    /// The roads in the order in which they were given, for contracts alone.
    listed: RoadList,
    outs: Rows,
    ins: Rows,
}

impl Model for Graph {
    ghost use Rattle.road_graph.specs.Roads.{Roads};
    ghost use Rattle.road_graph.specs.Rows.{IsRowed};

    ghost Value = { Roads };

    ghost view = { λ g. record { nodes = g.nodes; roads = g.listed.roads } };

    ghost invariant = { λ g.
        IsRowed (record { nodes = g.nodes; roads = g.listed.roads }) g.outs g.ins };
}

impl Graph {
    /// Keeps the roads between the nodes 1 to `n`, in their order. Roads may stand side by side, and lead from a node to itself. It takes
    /// 16 bytes a road and 8 a node. The slice is only read, and after an error nothing is kept.
    pub fn build(alloc: Global, n: u32, roads: &[Road]) -> Result<Graph, BuildFault>
        ensures graph { IfOk result (λ g. g ≡ record { nodes = n; roads = roads.now }) }
        ensures kept { IfOk result (λ g. IsGraph g) }
        ensures fault { MatchResult result
            (λ g. fault_in n roads.now ≡ None) (λ e. IsCause (fault_in n roads.now) e) }
    {
        check(n, roads)?;
        let outs = Rows::sorted(alloc, Way::Out, n, roads)?;
        let ins = Rows::sorted(alloc, Way::In, n, roads)?;
        Ok(Graph {
            nodes: n,
            listed: RoadList::of(roads),
            outs,
            ins,
        })
    }

    /// How many nodes there are, 0 to 2,097,152: they are the nodes 1 to this number.
    pub fn nodes(&self) -> u32
        ensures nodes { result ≡ self.now.nodes }
        ensures kept { IsGraph self.now }
    {
        self.nodes
    }

    /// How many roads there are, 0 to 8,388,608.
    pub fn roads(&self) -> u32
        ensures roads { result ≡ length self.now.roads }
        ensures kept { IsGraph self.now }
    {
        self.outs.count() as u32
    }

    /// Whether it is one of the nodes: its number is 1 to the number of nodes.
    pub fn has(&self, node: NodeNo) -> bool
        ensures node { result ≡ is_node self.now.nodes node }
        ensures kept { IsGraph self.now }
    {
        is_among(self.nodes, node)
    }

    /// How many roads lead out of a node, those to itself among them. It reads no road.
    pub fn out_count(&self, node: NodeNo) -> u32
        requires { IsNode self.now node }
        ensures count { result ≡ length (outs self.now node) }
        ensures few { result ≤ most_roads }
    {
        self.outs_of(node).len() as u32
    }

    /// How many roads lead into a node, those from itself among them. It reads no road.
    pub fn in_count(&self, node: NodeNo) -> u32
        requires { IsNode self.now node }
        ensures count { result ≡ length (ins self.now node) }
        ensures few { result ≤ most_roads }
    {
        self.ins_of(node).len() as u32
    }

    /// The node that a road out of a node leads to, and its weight in the graph's weight units. The place counts from 0 among the roads
    /// out of the node, in the order of the list. It counts one road read.
    pub fn out_road<L>(&self, node: NodeNo, index: u32, steps: &mut Steps<L>) -> (NodeNo, u32)
        requires node { IsNode self.now node }
        requires index { index < length (outs self.now node) }
        ensures road { slice_get (outs self.now node) index ≡ Some result }
        ensures end { IsNode self.now result.0 }
        ensures light { result.1 < 2 ^ 32 }
        ensures steps { steps.new ≡ (steps.old.0 + 1, steps.old.1) }
    {
        steps.tick();
        self.outs_of(node)[index as usize]
    }

    /// The node that a road into a node comes from, and its weight in the graph's weight units. The place counts from 0 among the roads
    /// into the node, in the order of the list. It counts one road read.
    pub fn in_road<L>(&self, node: NodeNo, index: u32, steps: &mut Steps<L>) -> (NodeNo, u32)
        requires node { IsNode self.now node }
        requires index { index < length (ins self.now node) }
        ensures road { slice_get (ins self.now node) index ≡ Some result }
        ensures end { IsNode self.now result.0 }
        ensures light { result.1 < 2 ^ 32 }
        ensures steps { steps.new ≡ (steps.old.0 + 1, steps.old.1) }
    {
        steps.tick();
        self.ins_of(node)[index as usize]
    }

    /// The least weight of the roads from one node to another, in the graph's weight units; none where no road leads so, or where the
    /// first is no node. It reads each road out of the first once, and counts it.
    pub fn joined<L>(&self, from: NodeNo, to: NodeNo, steps: &mut Steps<L>) -> Option<u32>
        ensures weight { result ≡ least_weight self.now.roads from to }
        ensures steps { steps.new ≡ (steps.old.0 + length (outs self.now from), steps.old.1) }
    {
        if !self.has(from) {
            return None;
        }
        least_to(self.outs_of(from), to, steps)
    }

    /// The roads out of a node.
    fn outs_of(&self, node: NodeNo) -> &[(NodeNo, u32)]
        requires { IsNode self.now node }
        ensures outs { result.now ≡ outs self.now node }
        ensures few { length result.now ≤ most_roads }
        ensures kept { IsGraph self.now }
    {
        self.outs.at(node)
    }

    /// The roads into a node.
    fn ins_of(&self, node: NodeNo) -> &[(NodeNo, u32)]
        requires { IsNode self.now node }
        ensures ins { result.now ≡ ins self.now node }
        ensures few { length result.now ≤ most_roads }
        ensures kept { IsGraph self.now }
    {
        self.ins.at(node)
    }

    /// The length of a list of nodes as a walk, in the graph's weight units, where it is one: each node but the last is joined to the
    /// next, and the length is the sum of the least weights of their roads. One node of the graph is a walk of length 0, and no nodes
    /// are none. At most 4,194,304 nodes. It counts the roads out of each node but the last, up to the first that isn't joined to the
    /// next.
    pub fn walk_length<L>(&self, nodes: &[NodeNo], steps: &mut Steps<L>) -> Option<u64>
        requires { length nodes.now ≤ most_walk_nodes }
        ensures length { result ≡ length_as_walk self.now nodes.now }
        ensures steps { steps.new ≡ (steps.old.0 + read_along self.now nodes.now, steps.old.1) }
    {
        let (first, rest) = nodes.split_first()?;
        let mut here = *first;
        let mut length = 0;
        for next in rest {
            length += u64::from(self.joined(here, *next, steps)?);
            here = *next;
        }
        if self.has(here) { Some(length) } else { None }
    }
}

/// Refuses numbers that are no graph's.
fn check(nodes: u32, roads: &[Road]) -> Result<(), BuildFault>
    ensures fault { MatchResult result
        (λ _. fault_in nodes roads.now ≡ None) (λ e. fault_in nodes roads.now ≡ Some e) }
    ensures kept { OnOk result (IsGraph (record { nodes = nodes; roads = roads.now })) }
{
    if nodes > MOST_NODES || roads.len() > MOST_ROADS {
        return Err(BuildFault::Large);
    }
    match outside(nodes, roads) {
        Some(at) => Err(BuildFault::Node { at }),
        None => Ok(()),
    }
}

/// Where the first road stands with an end that is none of so many nodes.
fn outside(nodes: u32, roads: &[Road]) -> Option<usize>
    ensures first { result ≡ first_outside nodes roads.now }
    ensures within { IfNone result (AreRoadsOf (record { nodes = nodes; roads = roads.now })) }
{
    for (at, road) in roads.iter().enumerate() {
        if leaves(nodes, *road) {
            return Some(at);
        }
    }
    None
}

/// Whether it is one of so many nodes.
fn is_among(nodes: u32, node: NodeNo) -> bool
    ensures { result ≡ is_node nodes node }
{
    1 <= node.0 && node.0 <= nodes
}

/// Whether an end of the road is none of so many nodes. A clause over a list knows no range of its weights: the caller has it from
/// `light`.
fn leaves(nodes: u32, road: Road) -> bool
    ensures leaves { result ≡ not (is_within nodes road) }
    ensures light { road.weight < 2 ^ 32 }
{
    !(is_among(nodes, road.from) && is_among(nodes, road.to))
}

/// The least weight in a row of roads that lead to a node.
fn least_to<L>(row: &[(NodeNo, u32)], to: NodeNo, steps: &mut Steps<L>) -> Option<u32>
    ensures weight { result ≡ least_in row.now to }
    ensures steps { steps.new ≡ (steps.old.0 + length row.now, steps.old.1) }
{
    let mut least = None;
    for (end, weight) in row {
        steps.tick();
        if *end == to {
            least = lighter(least, *weight);
        }
    }
    least
}

/// The lesser of two weights of which the first may be absent.
fn lighter(least: Option<u32>, weight: u32) -> Option<u32>
    ensures { result ≡ lighter_of least (Some weight) }
{
    match least {
        Some(least) => Some(least.min(weight)),
        None => Some(weight),
    }
}
