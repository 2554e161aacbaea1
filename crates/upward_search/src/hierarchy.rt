ghost use Rattle.std.specs.Prelude.{◌≡◌, ◌+◌, length, IfOk, OnErr, MatchOption};
ghost use Rattle.road_graph.specs.Walks.{IsLeastWalk, NoWalk};
ghost use Rattle.upward_search.specs.Fitting.{IsFitting};
ghost use Rattle.upward_search.specs.Hierarchies.{Fits, HasRank, HasAsMany, IsDistanceOn};
ghost use Rattle.upward_search.specs.Spaces.{AreRankedNodes, AreRestsTo, AreRestsFrom, IsForwardSpace, IsBackwardSpace, ReadsForward, ReadsBackward, IsWithinForward, IsWithinBackward, ReadsBoth, IsWithinBoth};

use crate::arc::RankArc;
use crate::levels::Levels;
use crate::order::{climbing_rungs, falling_rungs, nodes_by_rank, places_of};
use crate::sorting::sorted;
use crate::space::Space;
use crate::way::Way;
use ride_base::{Items, NoMemory};
use road_graph::{Graph, NodeNo, Steps, Walk};
use std::alloc::Global;
use std::marker::Model;

/// Ranked nodes, with arcs that lead to higher ranks and arcs that lead to lower ones (Geisberger and others 2008). It keeps no graph.
#[derive(Drop)]
pub struct Hierarchy {
    levels: Levels,
}

impl Model for Hierarchy {
    ghost use Rattle.upward_search.specs.Hierarchies.{Ranking, ranking_of};

    ghost Value = { Ranking };

    ghost view = { λ h. ranking_of h.levels };
}

impl Hierarchy {
    /// The hierarchy of these arcs, which fits the graph. The rank of a node stands at its number, and number 0 counts for nothing. It takes
    /// 16 bytes an arc and 24 a node. After an error nothing is left of it.
    pub fn assemble(
        alloc: Global,
        graph: &Graph,
        ranks: &[u32],
        climbing: &[RankArc],
        falling: &[RankArc],
    ) -> Result<Hierarchy, NoMemory>
        requires { IsFitting graph.now ranks.now climbing.now falling.now }
        ensures fits { IfOk result (Fits graph.now) }
        ensures many { IfOk result (HasAsMany climbing.now falling.now) }
    {
        let _ = graph.nodes();
        let nodes = nodes_by_rank(alloc, ranks)?;
        let places = places_of(alloc, nodes.as_slice())?;
        let ups = climbing_rungs(alloc, places.as_slice(), climbing)?;
        let downs = falling_rungs(alloc, places.as_slice(), falling)?;
        let count = nodes.len() as u32;
        let climbs = sorted(alloc, count, ups)?;
        let falls = sorted(alloc, count, downs)?;
        Ok(Hierarchy {
            levels: Levels {
                places,
                nodes,
                climbing: climbs,
                falling: falls,
            },
        })
    }

    /// How many arcs there are, climbing and falling ones.
    pub fn arcs(&self) -> u64
        ensures { result ≡ length self.now.climbing + length self.now.falling }
    {
        self.levels.arcs()
    }

    /// The nodes that climbing arcs reach from a node, by rising rank, each with the least length there, where it is below 2^53. It reads each
    /// climbing arc that leaves one of them once, and counts it, and no more of them where memory ends; nothing else is left then.
    pub fn forward_space<L>(
        &self,
        alloc: Global,
        node: NodeNo,
        steps: &mut Steps<L>,
    ) -> Result<Space, NoMemory>
        requires { HasRank self.now node }
        ensures space { IfOk result (IsForwardSpace self.now node) }
        ensures steps { IfOk result (ReadsForward self.now steps.old.0 steps.new.0) }
        ensures spent { OnErr result (IsWithinForward self.now node steps.old.0 steps.new.0) }
        ensures asks { steps.new.1 ≡ steps.old.1 }
    {
        self.levels.laws();
        let place = self.levels.place(node);
        let labels = self.levels.climbed(alloc, Way::From, place, steps)?;
        let listed = self.levels.listed(alloc, labels.as_slice())?;
        Ok(Space { listed })
    }

    /// The nodes from which falling arcs reach a node, by rising rank, each with the least length from there, where it is below 2^53. It reads
    /// each falling arc that enters one of them once, and counts it, and no more of them where memory ends; nothing else is left then.
    pub fn backward_space<L>(
        &self,
        alloc: Global,
        node: NodeNo,
        steps: &mut Steps<L>,
    ) -> Result<Space, NoMemory>
        requires { HasRank self.now node }
        ensures space { IfOk result (IsBackwardSpace self.now node) }
        ensures steps { IfOk result (ReadsBackward self.now steps.old.0 steps.new.0) }
        ensures spent { OnErr result (IsWithinBackward self.now node steps.old.0 steps.new.0) }
        ensures asks { steps.new.1 ≡ steps.old.1 }
    {
        self.levels.laws();
        let place = self.levels.place(node);
        let labels = self.levels.climbed(alloc, Way::To, place, steps)?;
        let listed = self.levels.listed(alloc, labels.as_slice())?;
        Ok(Space { listed })
    }

    /// The distance from one node to another, in the graph's weight units. None where there is no walk. It reads the arcs of the forward space
    /// of the first and of the backward space of the second once, and counts them, and no more of them where memory ends.
    pub fn distance<L>(
        &self,
        alloc: Global,
        from: NodeNo,
        to: NodeNo,
        steps: &mut Steps<L>,
    ) -> Result<Option<u64>, NoMemory>
        requires from { HasRank self.now from }
        requires to { HasRank self.now to }
        ensures distance { IfOk result (IsDistanceOn self.now from to) }
        ensures steps { IfOk result (λ _. ReadsBoth self.now from to steps.old.0 steps.new.0) }
        ensures spent { OnErr result (IsWithinBoth self.now from to steps.old.0 steps.new.0) }
        ensures asks { steps.new.1 ≡ steps.old.1 }
    {
        self.levels.laws();
        let start = self.levels.place(from);
        let end = self.levels.place(to);
        self.levels.between(alloc, Way::From, start, end, steps)
    }

    /// The distance from each node of a space of this hierarchy to a node, in the order of the space. None where there is no walk. Nothing is
    /// left after an error.
    pub fn rest_to<L>(
        &self,
        alloc: Global,
        space: &Space,
        to: NodeNo,
        steps: &mut Steps<L>,
    ) -> Result<Items<Option<u64>>, NoMemory>
        requires space { AreRankedNodes self.now space.now }
        requires to { HasRank self.now to }
        ensures rests { IfOk result (AreRestsTo self.now space.now to) }
        ensures asks { steps.new.1 ≡ steps.old.1 }
    {
        self.levels.laws();
        let rests = self.levels.rests_by(alloc, Way::From, space, to, steps)?;
        Ok(Items::from_vec(rests))
    }

    /// The distance from a node to each node of a space of this hierarchy, in the order of the space. None where there is no walk. Nothing is
    /// left after an error.
    pub fn rest_from<L>(
        &self,
        alloc: Global,
        space: &Space,
        from: NodeNo,
        steps: &mut Steps<L>,
    ) -> Result<Items<Option<u64>>, NoMemory>
        requires space { AreRankedNodes self.now space.now }
        requires from { HasRank self.now from }
        ensures rests { IfOk result (AreRestsFrom self.now space.now from) }
        ensures asks { steps.new.1 ≡ steps.old.1 }
    {
        self.levels.laws();
        let rests = self.levels.rests_by(alloc, Way::To, space, from, steps)?;
        Ok(Items::from_vec(rests))
    }

    /// A least walk from one node to another without a repeated node. None where there is no walk.
    pub fn walk<L>(
        &self,
        alloc: Global,
        graph: &Graph,
        from: NodeNo,
        to: NodeNo,
        steps: &mut Steps<L>,
    ) -> Result<Option<Walk>, NoMemory>
        requires fits { Fits graph.now self.now }
        requires from { HasRank self.now from }
        requires to { HasRank self.now to }
        ensures walk { IfOk result (λ found.
            MatchOption found (NoWalk graph.now from to) (IsLeastWalk graph.now from to)) }
        ensures asks { steps.new.1 ≡ steps.old.1 }
    {
        self.levels.laws();
        let _ = graph.nodes();
        self.levels.walk(alloc, graph, from, to, steps)
    }
}
