ghost use Rattle.std.specs.Prelude.{◌≡◌, ℕ, ◌+◌, ◌-◌, ◌^◌, ◌<◌, ◌≤◌, ◌↔◌, ◌⊎◌, List, [], ◌∷◌, ◌++◌, length, IfOk, IfSome, IsTrue, MatchOption, MatchBool, Some, slice_get, slice_set};
ghost use Rattle.road_graph.specs.Roads.{Roads, IsNode, ins};
ghost use Rattle.plain_search.specs.declared.reached.Reached.{Reached as ReachedNode};
ghost use Rattle.plain_search.specs.declared.reached.Mark.TheVariants.{Settled};
ghost use Rattle.plain_search.specs.Marking.{mark_of};
ghost use Rattle.plain_search.specs.Reaching.{IsInside};
ghost use Rattle.plain_search.specs.Searching.{faced, parent_in, reached_by, IsSearch, IsSearchOf, IsSettled, AllOffered, AllOfferedIn, AreOffered, Offers, IsKnownBy, IsNewBy, IsSameSearch, HasOneMore, ReadsListed, ReadsNoMore};

use crate::marks::Marks;
use crate::nearest::{Candidate, Nearest};
use crate::reached::{Reached, Way};
use ride_base::{Items, NoMemory};
use road_graph::{Graph, NodeNo, Steps};
use std::alloc::Global;

/// What a search keeps, so that another one may use its memory.
#[derive(Drop)]
pub(crate) struct Memory {
    pub(crate) reached: Items<Reached>,
    pub(crate) marks: Marks,
    pub(crate) waiting: Nearest,
}

impl Memory {
    /// None yet.
    pub(crate) fn new(alloc: Global) -> Memory {
        Memory {
            reached: Items::new(alloc),
            marks: Marks::new(alloc),
            waiting: Nearest::new(alloc),
        }
    }
}

/// A search that settles nodes in rising order of distance (Dijkstra 1959).
#[derive(Drop)]
pub(crate) struct Search {
    pub(crate) way: Way,
    pub(crate) start: NodeNo,
    pub(crate) radius: Option<u64>,
    pub(crate) reached: Items<Reached>,
    pub(crate) marks: Marks,
    pub(crate) waiting: Nearest,
}

impl Search {
    /// A search in which the start waits, in the memory of another.
    pub(crate) fn new(
        memory: Memory,
        graph: &Graph,
        way: Way,
        start: NodeNo,
        radius: Option<u64>,
    ) -> Result<Search, NoMemory>
        requires { IsNode graph.now start }
        ensures asked { IfOk result (λ s. (s.way ≡ way) × (s.start ≡ start) × (s.radius ≡ radius)) }
        ensures empty { IfOk result (λ s. s.reached ≡ []) }
        ensures begun { IfOk result (IsSearchOf (faced way graph.now)) }
        ensures offered { IfOk result (AllOfferedIn (faced way graph.now)) }
    {
        let Memory {
            reached,
            mut marks,
            mut waiting,
        } = memory;
        marks.reset(graph.nodes() as usize + 1)?;
        marks.see(start, 0);
        waiting.clear();
        waiting.push(Candidate {
            distance: 0,
            node: start,
            parent: NodeNo(0),
        })?;
        Ok(Search {
            way,
            start,
            radius,
            reached: emptied(reached),
            marks,
            waiting,
        })
    }

    /// Settles the nearest node that waits, and reads each of its roads once. False where none is left.
    pub(crate) fn settle_nearest<L>(
        &mut self,
        graph: &Graph,
        steps: &mut Steps<L>,
    ) -> Result<bool, NoMemory>
        requires search { IsSearchOf (faced self.old.way graph.now) self.old }
        requires offered { AllOfferedIn (faced self.old.way graph.now) self.old }
        ensures same { IfOk result (λ _. IsSameSearch self.old self.new) }
        ensures search { IfOk result (λ _. IsSearchOf (faced self.old.way graph.now) self.new) }
        ensures offered { IfOk result (λ _. AllOfferedIn (faced self.old.way graph.now) self.new) }
        ensures more { IfOk result (λ found. MatchBool found (HasOneMore self.old self.new)
            ((self.new.waiting ≡ []) × (self.new.reached ≡ self.old.reached))) }
        ensures steps { IfOk result (λ _.
            ReadsListed self.old.way graph.now self.old self.new steps.old.0 steps.new.0) }
        ensures least { steps.old.0 ≤ steps.new.0 }
        ensures most { ReadsNoMore self.old.way graph.now self.old steps.old.0 steps.new.0 }
        ensures asks { steps.new.1 ≡ steps.old.1 }
    {
        while let Some(nearest) = self.waiting.pop() {
            if !self.marks.is_settled(nearest.node) {
                self.settle(nearest)?;
                self.offer_roads(graph, nearest, steps)?;
                return Ok(true);
            }
        }
        Ok(false)
    }

    /// Settles nodes until a node is among them or none is left.
    pub(crate) fn settle_until<L>(
        &mut self,
        graph: &Graph,
        node: NodeNo,
        steps: &mut Steps<L>,
    ) -> Result<(), NoMemory>
        requires node { IsNode graph.now node }
        requires search { IsSearchOf (faced self.old.way graph.now) self.old }
        requires offered { AllOfferedIn (faced self.old.way graph.now) self.old }
        ensures same { IfOk result (λ _. IsSameSearch self.old self.new) }
        ensures search { IfOk result (λ _. IsSearchOf (faced self.old.way graph.now) self.new) }
        ensures offered { IfOk result (λ _. AllOfferedIn (faced self.old.way graph.now) self.new) }
        ensures ends { IfOk result
            (λ _. IsSettled self.new.marks node ⊎ (self.new.waiting ≡ [])) }
        ensures steps { IfOk result (λ _.
            ReadsListed self.old.way graph.now self.old self.new steps.old.0 steps.new.0) }
        ensures least { steps.old.0 ≤ steps.new.0 }
        ensures most { ReadsNoMore self.old.way graph.now self.old steps.old.0 steps.new.0 }
        ensures asks { steps.new.1 ≡ steps.old.1 }
    {
        'settling: while self.settle_nearest(graph, steps)? {
            if self.marks.is_settled(node) {
                return Ok(());
            }
        }
        Ok(())
    }

    /// Puts a candidate at the end of the list.
    fn settle(&mut self, nearest: Candidate) -> Result<(), NoMemory>
        requires marks { nearest.node.0 < length self.old.marks }
        requires few { length self.old.reached < 2 ^ 32 }
        ensures same { IfOk result (λ _. IsSameSearch self.old self.new) }
        ensures reached { IfOk result
            (λ _. self.new.reached ≡ self.old.reached ++ reached_by nearest ∷ []) }
        ensures marks { IfOk result (λ _. self.new.marks
            ≡ slice_set self.old.marks nearest.node.0 (Settled (length self.old.reached))) }
        ensures waiting { IfOk result (λ _. self.new.waiting ≡ self.old.waiting) }
    {
        let place = self.reached.len() as u32;
        self.reached.push(Reached {
            node: nearest.node,
            distance: nearest.distance,
            parent: parent_of(nearest.parent),
        })?;
        self.marks.settle(nearest.node, place);
        Ok(())
    }

    /// Offers the other ends of the roads of the node that was settled last.
    fn offer_roads<L>(
        &mut self,
        graph: &Graph,
        last: Candidate,
        steps: &mut Steps<L>,
    ) -> Result<(), NoMemory>
        requires search { IsSearchOf (faced self.old.way graph.now) self.old }
        requires last { slice_get self.old.reached (length self.old.reached - 1)
            ≡ Some (reached_by last) }
        requires offered { AreOffered (faced self.old.way graph.now) self.old.radius
            self.old.reached self.old.marks self.old.waiting 0 }
        ensures same { IfOk result (λ _. IsSameSearch self.old self.new) }
        ensures reached { IfOk result (λ _. self.new.reached ≡ self.old.reached) }
        ensures search { IfOk result (λ _. IsSearchOf (faced self.old.way graph.now) self.new) }
        ensures offered { IfOk result (λ _. AllOfferedIn (faced self.old.way graph.now) self.new) }
        ensures steps { IfOk result (λ _. steps.new.0
            ≡ steps.old.0 + length (ins (faced self.old.way graph.now) last.node)) }
        ensures least { steps.old.0 ≤ steps.new.0 }
        ensures most { steps.new.0
            ≤ steps.old.0 + length (ins (faced self.old.way graph.now) last.node) }
        ensures asks { steps.new.1 ≡ steps.old.1 }
    {
        let way = self.way;
        for index in 0..road_count(graph, way, last.node) {
            let (node, weight) = road_at(graph, way, last.node, index, steps);
            self.offer(Candidate {
                distance: last.distance + u64::from(weight),
                node,
                parent: last.node,
            })?;
        }
        Ok(())
    }

    /// Lets a candidate wait, unless its node is settled, is beyond the radius, or waits at no more.
    fn offer(&mut self, candidate: Candidate) -> Result<(), NoMemory>
        requires node { candidate.node.0 < length self.old.marks }
        requires distance { candidate.distance < 2 ^ 63 }
        ensures same { IfOk result (λ _. IsSameSearch self.old self.new) }
        ensures reached { IfOk result (λ _. self.new.reached ≡ self.old.reached) }
        ensures offers { IfOk result (λ _. Offers self.old.radius self.old.marks
            self.new.marks self.old.waiting self.new.waiting candidate) }
    {
        if self.is_known(candidate.node, candidate.distance) {
            return Ok(());
        }
        self.waiting.push(candidate)?;
        self.marks.see(candidate.node, candidate.distance);
        Ok(())
    }

    /// Whether a node needn't be looked for at this distance.
    fn is_known(&self, node: NodeNo, distance: u64) -> bool
        requires node { node.0 < length self.now.marks }
        requires distance { distance < 2 ^ 63 }
        ensures { MatchBool result
            (IsKnownBy self.now.radius (mark_of self.now.marks node) distance)
            (IsNewBy self.now.radius (mark_of self.now.marks node) distance) }
    {
        if self.radius.is_some_and(|radius| radius < distance) {
            return true;
        }
        self.marks.is_known(node, distance)
    }
}

/// The node that a candidate's road comes from, where it has one.
fn parent_of(parent: NodeNo) -> Option<NodeNo>
    ensures { result ≡ parent_in parent }
{
    if parent.0 == 0 { None } else { Some(parent) }
}

/// No nodes, in the memory of these.
fn emptied(reached: Items<Reached>) -> Items<Reached>
    ensures { result ≡ [] }
{
    let mut held = reached.into_vec();
    held.clear();
    Items::from_vec(held)
}

/// How many roads a search follows from a node.
fn road_count(graph: &Graph, way: Way, node: NodeNo) -> u32
    requires { IsNode graph.now node }
    ensures { result ≡ length (ins (faced way graph.now) node) }
{
    match way {
        Way::From => graph.out_count(node),
        Way::To => graph.in_count(node),
    }
}

/// The other end and the weight of one of them.
fn road_at<L>(
    graph: &Graph,
    way: Way,
    node: NodeNo,
    index: u32,
    steps: &mut Steps<L>,
) -> (NodeNo, u32)
    requires node { IsNode graph.now node }
    requires index { index < length (ins (faced way graph.now) node) }
    ensures road { slice_get (ins (faced way graph.now) node) index ≡ Some result }
    ensures end { IsNode graph.now result.0 }
    ensures light { result.1 < 2 ^ 32 }
    ensures steps { steps.new ≡ (steps.old.0 + 1, steps.old.1) }
{
    match way {
        Way::From => graph.out_road(node, index, steps),
        Way::To => graph.in_road(node, index, steps),
    }
}
