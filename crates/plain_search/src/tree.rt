ghost use Rattle.std.specs.Prelude.{◌≡◌, ℕ, suc, ◌+◌, ◌-◌, ◌*◌, ◌^◌, ◌<◌, ◌≤◌, List, [], length, IfOk, IfSome, MatchOption, None, Some, slice_get};
ghost use Rattle.road_graph.specs.Roads.{Roads, IsNode};
ghost use Rattle.road_graph.specs.Walks.{NoWalk, IsLeastWalk};
ghost use Rattle.road_graph.specs.Reads.{roads_out, roads_into, read_along};
ghost use Rattle.plain_search.specs.declared.reached.Reached.{Reached as ReachedNode};
ghost use Rattle.plain_search.specs.Reaching.{IsReach, AreReached, IsBeyond, IsDistBy, IsInside, IsLeastWalkBy, IsRadius, StandsAt, distance_of, in_way, nodes_of, nodes_found, roads_by, AreWalkReads};
ghost use Rattle.plain_search.specs.declared.reached.Mark.TheVariants.{Settled};
ghost use Rattle.plain_search.specs.Marking.{ArePlaces};
ghost use Rattle.plain_search.specs.Valuing.{IsPotential, IsRising, listed_value};
ghost use Rattle.std.specs.Option.{option_map};
ghost use Rattle.road_graph.specs.declared.road.NodeNo.{NodeNo as NodeNumber};

use crate::marks::Marks;
use crate::nearest::Nearest;
use crate::potential::Potential;
use crate::reached::{Mark, Reached, Way};
use crate::search::{Memory, Search};
use ride_base::{Items, NoMemory};
use road_graph::{Graph, NodeNo, Steps, Walk};
use std::alloc::Global;
use std::marker::Model;

/// The nodes that a search reached, in rising order of distance, with their distances and least walks.
#[derive(Drop)]
pub struct Reach {
    way: Way,
    start: NodeNo,
    radius: Option<u64>,
    listed: Items<Reached>,
    marks: Marks,
    // the queue of the search, whose memory another one may use
    waiting: Nearest,
}

impl Model for Reach {
    ghost use Rattle.plain_search.specs.Reaching.{Listing, IsRadius};
    ghost use Rattle.plain_search.specs.Marking.{ArePlaces};

    ghost Value = { Listing };

    ghost view = { λ r.
        record { way = r.way; start = r.start; radius = r.radius; listed = r.listed } };

    ghost invariant = { λ r. ArePlaces r.listed r.marks × IsRadius r.radius };
}

/// The nodes within a radius from a node, or all that it reaches. It reads each road out of them once, and counts it.
pub fn reach_from<L>(
    alloc: Global,
    graph: &Graph,
    from: NodeNo,
    radius: Option<u64>,
    steps: &mut Steps<L>,
) -> Result<Reach, NoMemory>
    requires node { IsNode graph.now from }
    requires radius { IsRadius radius }
    ensures asked { IfOk result (λ r. (r.way ≡ Way.From) × (r.start ≡ from) × (r.radius ≡ radius)) }
    ensures exact { IfOk result (IsReach graph.now) }
    ensures steps { IfOk result
        (λ r. steps.new.0 ≡ steps.old.0 + roads_out graph.now (nodes_of r.listed)) }
    ensures least { steps.old.0 ≤ steps.new.0 }
    ensures most { steps.new.0 ≤ steps.old.0 + length graph.now.roads }
    ensures asks { steps.new.1 ≡ steps.old.1 }
{
    search_all(Memory::new(alloc), graph, Way::From, from, radius, steps)
}

/// The nodes from which a node is within a radius, or all that reach it. It reads each road into them once, and counts it.
pub fn reach_to<L>(
    alloc: Global,
    graph: &Graph,
    to: NodeNo,
    radius: Option<u64>,
    steps: &mut Steps<L>,
) -> Result<Reach, NoMemory>
    requires node { IsNode graph.now to }
    requires radius { IsRadius radius }
    ensures asked { IfOk result (λ r. (r.way ≡ Way.To) × (r.start ≡ to) × (r.radius ≡ radius)) }
    ensures exact { IfOk result (IsReach graph.now) }
    ensures steps { IfOk result
        (λ r. steps.new.0 ≡ steps.old.0 + roads_into graph.now (nodes_of r.listed)) }
    ensures least { steps.old.0 ≤ steps.new.0 }
    ensures most { steps.new.0 ≤ steps.old.0 + length graph.now.roads }
    ensures asks { steps.new.1 ≡ steps.old.1 }
{
    search_all(Memory::new(alloc), graph, Way::To, to, radius, steps)
}

/// A least walk from one node to another without a repeated node. None where there is no walk. It reads each road into the nodes from
/// which it looks once, and then those out of the nodes of the walk but the last, and counts them.
pub fn least_walk<L>(
    alloc: Global,
    graph: &Graph,
    from: NodeNo,
    to: NodeNo,
    steps: &mut Steps<L>,
) -> Result<Option<Walk>, NoMemory>
    requires from { IsNode graph.now from }
    requires to { IsNode graph.now to }
    ensures walk { IfOk result (λ found. MatchOption found
        (NoWalk graph.now from to) (IsLeastWalk graph.now from to)) }
    ensures steps { IfOk result (λ found. AreWalkReads graph.now to found steps.old.0 steps.new.0) }
    ensures least { steps.old.0 ≤ steps.new.0 }
    ensures most { steps.new.0 ≤ steps.old.0 + 2 * length graph.now.roads }
    ensures asks { steps.new.1 ≡ steps.old.1 }
{
    let mut search = Search::new(Memory::new(alloc), graph, Way::To, to, None)?;
    search.settle_until(graph, from, steps)?;
    Reach::of(search).walk_back(alloc, graph, from, steps)
}

fn search_all<L>(
    memory: Memory,
    graph: &Graph,
    way: Way,
    start: NodeNo,
    radius: Option<u64>,
    steps: &mut Steps<L>,
) -> Result<Reach, NoMemory>
    requires node { IsNode graph.now start }
    requires radius { IsRadius radius }
    ensures asked { IfOk result (λ r. (r.way ≡ way) × (r.start ≡ start) × (r.radius ≡ radius)) }
    ensures exact { IfOk result (IsReach graph.now) }
    ensures steps { IfOk result
        (λ r. steps.new.0 ≡ steps.old.0 + roads_by way graph.now (nodes_of r.listed)) }
    ensures least { steps.old.0 ≤ steps.new.0 }
    ensures most { steps.new.0 ≤ steps.old.0 + length graph.now.roads }
    ensures asks { steps.new.1 ≡ steps.old.1 }
{
    let mut search = Search::new(memory, graph, way, start, radius)?;
    'settling: while search.settle_nearest(graph, steps)? {}
    Ok(Reach::of(search))
}

impl Reach {
    /// Another reach, in the memory of this one: that of a node one way. It reads each road that way at its nodes once, and counts it.
    /// After an error nothing is left of either.
    pub fn renewed<L>(
        self,
        graph: &Graph,
        way: Way,
        start: NodeNo,
        radius: Option<u64>,
        steps: &mut Steps<L>,
    ) -> Result<Reach, NoMemory>
        requires node { IsNode graph.now start }
        requires radius { IsRadius radius }
        ensures asked { IfOk result
            (λ r. (r.way ≡ way) × (r.start ≡ start) × (r.radius ≡ radius)) }
        ensures exact { IfOk result (IsReach graph.now) }
        ensures steps { IfOk result
            (λ r. steps.new.0 ≡ steps.old.0 + roads_by way graph.now (nodes_of r.listed)) }
        ensures least { steps.old.0 ≤ steps.new.0 }
        ensures most { steps.new.0 ≤ steps.old.0 + length graph.now.roads }
        ensures asks { steps.new.1 ≡ steps.old.1 }
    {
        let Reach {
            way: _,
            start: _,
            radius: _,
            listed: reached,
            marks,
            waiting,
        } = self;
        let memory = Memory {
            reached,
            marks,
            waiting,
        };
        search_all(memory, graph, way, start, radius, steps)
    }

    /// The nodes in rising order of distance, the start first.
    pub fn as_slice(&self) -> &[Reached]
        ensures { result.now ≡ self.now.listed }
    {
        self.listed.as_slice()
    }

    /// The distance of a node from or to the start, where the node is listed.
    pub fn distance(&self, node: NodeNo) -> Option<u64>
        ensures listed { result ≡ distance_of self.now.listed node }
        ensures exact { (g : Roads) → IsReach g self.now → MatchOption result
            (IsBeyond self.now.way g self.now.start self.now.radius node)
            (IsDistBy self.now.way g self.now.start node) }
    {
        let place = self.place(node)?;
        Some(self.listed.as_slice()[place].distance)
    }

    /// A least walk between the start and a node, in the way of the search. None where the node isn't listed. It counts the roads out of
    /// the nodes of the walk but the last.
    pub fn walk<L>(
        &self,
        alloc: Global,
        graph: &Graph,
        node: NodeNo,
        steps: &mut Steps<L>,
    ) -> Result<Option<Walk>, NoMemory>
        requires { IsReach graph.now self.now }
        ensures walk { IfOk result (λ found. MatchOption found
            (IsBeyond self.now.way graph.now self.now.start self.now.radius node)
            (IsLeastWalkBy self.now.way graph.now self.now.start node)) }
        ensures steps { IfOk result
            (λ found. steps.new.0 ≡ steps.old.0 + read_along graph.now (nodes_found found)) }
        ensures least { steps.old.0 ≤ steps.new.0 }
        ensures most { steps.new.0 ≤ steps.old.0 + length graph.now.roads }
        ensures asks { steps.new.1 ≡ steps.old.1 }
    {
        self.walk_back(alloc, graph, node, steps)
    }

    /// The distances as values of all nodes: those that aren't listed have the radius and one more.
    pub fn potential(&self, alloc: Global) -> Result<Potential, NoMemory>
        ensures values { IfOk result (λ p. (n : NodeNumber)
            → listed_value p.listed n ≡ distance_of self.now.listed n) }
        ensures rising { IfOk result (λ p. IsRising p.listed) }
        ensures rest { IfOk result (λ p. p.rest ≡ option_map (λ r. r + 1) self.now.radius) }
        ensures valid { IfOk result (λ p. (g : Roads) → IsReach g self.now
            → IsPotential self.now.way g self.now.start p) }
    {
        let mut listed = Items::new(alloc);
        for number in 0..self.marks.len() {
            if let Some(place) = place_of(self.marks.at(number)) {
                let reached = self.listed.as_slice()[place];
                listed.push((reached.node, reached.distance))?;
            }
        }
        Ok(Potential {
            listed,
            rest: first_beyond(self.radius),
        })
    }

    fn of(search: Search) -> Reach
        requires places { ArePlaces search.reached search.marks }
        requires radius { IsRadius search.radius }
        ensures { result ≡ record {
          way = search.way;
          start = search.start;
          radius = search.radius;
          listed = search.reached;
        } }
    {
        let Search {
            way,
            start,
            radius,
            reached,
            marks,
            waiting,
        } = search;
        Reach {
            way,
            start,
            radius,
            listed: reached,
            marks,
            waiting,
        }
    }

    fn walk_back<L>(
        &self,
        alloc: Global,
        graph: &Graph,
        node: NodeNo,
        steps: &mut Steps<L>,
    ) -> Result<Option<Walk>, NoMemory>
        requires { AreReached graph.now self.now }
        ensures walk { IfOk result (λ found. MatchOption found
            (distance_of self.now.listed node ≡ None)
            (IsLeastWalkBy self.now.way graph.now self.now.start node)) }
        ensures steps { IfOk result
            (λ found. steps.new.0 ≡ steps.old.0 + read_along graph.now (nodes_found found)) }
        ensures least { steps.old.0 ≤ steps.new.0 }
        ensures most { steps.new.0 ≤ steps.old.0 + length graph.now.roads }
        ensures asks { steps.new.1 ≡ steps.old.1 }
    {
        let mut nodes = Vec::new(alloc);
        let mut at = self.place(node);
        while let Some(place) = at {
            let reached = self.listed.as_slice()[place];
            nodes.push(reached.node)?;
            at = self.parent_place(reached);
        }
        let nodes = turned(self.way, nodes);
        Walk::made(alloc, graph, nodes.as_slice(), steps)
    }

    /// Where a node stands in the list.
    fn place(&self, node: NodeNo) -> Option<usize>
        ensures { MatchOption result (distance_of self.now.listed node ≡ None)
            (StandsAt self.now.listed node) }
    {
        place_of(self.marks.at(node.0 as usize))
    }

    /// Where the parent of a listed node stands.
    fn parent_place(&self, reached: Reached) -> Option<usize>
        ensures { MatchOption reached.parent (result ≡ None) (λ p. MatchOption result
            (distance_of self.now.listed p ≡ None) (StandsAt self.now.listed p)) }
    {
        self.place(reached.parent?)
    }
}

/// The nodes of a walk that leads to the start, in the way of the search.
fn turned(way: Way, mut nodes: Vec<NodeNo>) -> Vec<NodeNo>
    ensures { result.items ≡ in_way way nodes.items }
{
    if way == Way::From {
        nodes.reverse();
    }
    nodes
}

/// The least distance beyond a radius.
fn first_beyond(radius: Option<u64>) -> Option<u64>
    requires { IsRadius radius }
    ensures { result ≡ option_map (λ r. r + 1) radius }
{
    Some(radius? + 1)
}

/// The place in the list that a mark tells.
fn place_of(mark: Mark) -> Option<usize>
    ensures { MatchOption result ((k : ℕ) → mark ≡ Settled k → ⊥) (λ k. mark ≡ Settled k) }
{
    match mark {
        Mark::Unseen => None,
        Mark::Seen(_) => None,
        Mark::Settled(place) => Some(place as usize),
    }
}
