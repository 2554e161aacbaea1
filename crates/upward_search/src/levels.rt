ghost use Rattle.std.specs.Prelude.{◌≡◌, ℕ, ◌+◌, ◌<◌, ◌≤◌, ◌^◌, length, IfOk, OnErr, slice_index_or, map};
ghost use Rattle.road_graph.specs.Roads.{Roads};
ghost use Rattle.upward_search.specs.declared.slope.Label.{Label as LabelOf};
ghost use Rattle.upward_search.specs.Climbs.{IsIn, IsRisingWithin, IsSpace, ReadsSpace, IsWithinSpace};
ghost use Rattle.upward_search.specs.Rows.{row as row_at};
ghost use Rattle.upward_search.specs.WaysBack.{IsWayBackFrom};
ghost use Rattle.upward_search.specs.Rests.{AreRests, IsRestAt, IsOverArc};
ghost use Rattle.upward_search.specs.Ladders.{climbs_by, faced, IsLeastTop, ReadsTwoSpaces, IsWithinTwoSpaces, IsNamed, IsAt, IsLadder, AreApart, ArePlaces};
ghost use Rattle.upward_search.specs.Hierarchies.{LadderFits};
ghost use Rattle.upward_search.specs.Rows.{count_rows};
ghost use Rattle.upward_search.specs.Names.{AreListed, AreRising, AreRestsBy, AreIn, label_by, AreNamed};

use crate::backing::{Rung, climb_back};
use crate::climbing::climb;
use crate::finding::{find, length_at};
use crate::meeting::{least_sum, lesser};
use crate::slope::{Arc, Label, Slopes};
use crate::space::Space;
use crate::walking::nodes_at;
use crate::way::Way;
use ride_base::{Items, NoMemory};
use road_graph::{FAR, NodeNo, Steps};
use std::alloc::Global;
use std::marker::Model;

/// The arcs of a contraction hierarchy, whose nodes go by their ranks' places.
#[derive(Drop)]
pub(crate) struct Levels {
    /// The place of each node; number 0 has none.
    pub(crate) places: Items<u32>,
    pub(crate) nodes: Items<NodeNo>,
    pub(crate) climbing: Slopes,
    pub(crate) falling: Slopes,
}

impl Model for Levels {
    ghost use Rattle.upward_search.specs.Ladders.{Ladder, IsLadder, ArePlaces};

    ghost Value = { Ladder };

    ghost view = { λ s.
        record { nodes = s.nodes; places = s.places; climbs = s.climbing; falls = s.falling } };

    ghost invariant = { λ s.
        IsLadder
        (record { nodes = s.nodes; places = s.places; climbs = s.climbing; falls = s.falling })
        × ArePlaces s.nodes s.places };
}

impl Levels {
    /// The distance from each node of a space to a node, or from that node to each of them.
    pub(crate) fn rests_by<L>(
        &self,
        alloc: Global,
        way: Way,
        space: &Space,
        node: NodeNo,
        steps: &mut Steps<L>,
    ) -> Result<Vec<Option<u64>>, NoMemory>
        requires rises { AreRising self.now space.now }
        requires node { IsNamed self.now node }
        ensures rests { IfOk result (λ rests.
            (g : Roads) → LadderFits g self.now → AreRestsBy way g space.now node rests.items) }
        ensures asks { steps.new.1 ≡ steps.old.1 }
    {
        let labels = self.labels(alloc, space.as_slice())?;
        self.rests(alloc, way, labels.as_slice(), self.place(node), steps)
    }

    /// The labels of listed nodes.
    fn labels(&self, alloc: Global, listed: &[(NodeNo, u64)]) -> Result<Vec<Label>, NoMemory>
        requires { AreRising self.now listed.now }
        ensures rise { IfOk result (λ labels.
            IsRisingWithin 0 (length self.now.nodes) labels.items) }
        ensures are { IfOk result (λ labels. AreListed self.now.nodes labels.items listed.now) }
        ensures ladder { IsLadder self.now }
    {
        labels_by(alloc, self.places.as_slice(), listed)
    }

    /// How many arcs there are.
    pub(crate) fn arcs(&self) -> u64
        ensures { result ≡ count_rows self.now.climbs + count_rows self.now.falls }
    {
        self.climbing.count() as u64 + self.falling.count() as u64
    }

    /// What is so of every hierarchy. The call does nothing.
    pub(crate) fn laws(&self)
        ensures ladder { IsLadder self.now }
        ensures apart { AreApart self.now }
        ensures places { ArePlaces self.now.nodes self.now.places }
    {
        let _ = self.nodes.len();
    }

    /// The place of a node.
    pub(crate) fn place(&self, node: NodeNo) -> u32
        requires { IsNamed self.now node }
        ensures at { IsAt self.now result node }
        ensures low { result < length self.now.nodes }
        ensures ladder { IsLadder self.now }
    {
        self.places.as_slice()[node.0 as usize]
    }

    /// The arcs that a search follows.
    fn slopes(&self, way: Way) -> &Slopes
        ensures arcs { result.now ≡ climbs_by way self.now }
        ensures many { length result.now ≡ length self.now.nodes }
        ensures ladder { IsLadder self.now }
    {
        match way {
            Way::From => &self.climbing,
            Way::To => &self.falling,
        }
    }

    /// The climbing arcs from a place, or the falling arcs into it.
    pub(crate) fn row(&self, way: Way, place: u32) -> &[Arc]
        requires { place < length self.now.nodes }
        ensures row { result.now ≡ row_at (climbs_by way self.now) place }
        ensures ladder { IsLadder self.now }
    {
        self.slopes(way).row(place)
    }

    /// The least length over a higher place from the first of two places to the second, or the other way round.
    pub(crate) fn between<L>(
        &self,
        alloc: Global,
        way: Way,
        from: u32,
        to: u32,
        steps: &mut Steps<L>,
    ) -> Result<Option<u64>, NoMemory>
        requires from { from < length self.now.nodes }
        requires to { to < length self.now.nodes }
        ensures least { IfOk result (IsLeastTop (faced way self.now) from to) }
        ensures steps { IfOk result
            (λ _. ReadsTwoSpaces (faced way self.now) from to steps.old.0 steps.new.0) }
        ensures spent { OnErr result
            (IsWithinTwoSpaces (faced way self.now) from to steps.old.0 steps.new.0) }
        ensures asks { steps.new.1 ≡ steps.old.1 }
    {
        let left = self.climbed(alloc, way, from, steps)?;
        let right = self.climbed(alloc, way.turned(), to, steps)?;
        Ok(least_sum(left.as_slice(), right.as_slice()))
    }

    /// The nodes at places.
    pub(crate) fn named(&self, alloc: Global, line: &[Label]) -> Result<Vec<NodeNo>, NoMemory>
        requires { (r : LabelOf) → IsIn line.now r → r.place < length self.now.nodes }
        ensures { IfOk result (λ named. AreNamed self.now.nodes line.now named.items) }
    {
        nodes_at(alloc, self.nodes.as_slice(), line)
    }

    /// The nodes of labels, with their lengths.
    pub(crate) fn listed(
        &self,
        alloc: Global,
        labels: &[Label],
    ) -> Result<Items<(NodeNo, u64)>, NoMemory>
        requires { IsRisingWithin 0 (length self.now.nodes) labels.now }
        ensures { IfOk result (AreListed self.now.nodes labels.now) }
    {
        listed_nodes(alloc, self.nodes.as_slice(), labels)
    }

    /// The space of a place, by the arcs that a search follows.
    pub(crate) fn climbed<L>(
        &self,
        alloc: Global,
        way: Way,
        start: u32,
        steps: &mut Steps<L>,
    ) -> Result<Items<Label>, NoMemory>
        requires { start < length self.now.nodes }
        ensures space { IfOk result (IsSpace (climbs_by way self.now) start) }
        ensures steps { IfOk result
            (ReadsSpace (climbs_by way self.now) steps.old.0 steps.new.0) }
        ensures spent { OnErr result
            (IsWithinSpace (climbs_by way self.now) start steps.old.0 steps.new.0) }
        ensures asks { steps.new.1 ≡ steps.old.1 }
    {
        climb(alloc, self.slopes(way), start, steps)
    }

    /// The arcs of a least way to a label of a space.
    pub(crate) fn climbed_back(
        &self,
        alloc: Global,
        way: Way,
        space: &[Label],
        top: usize,
    ) -> Result<Vec<Rung>, NoMemory>
        requires rising { IsRisingWithin 0 (length (climbs_by way self.now)) space.now }
        requires top { top < length space.now }
        ensures { IfOk result
            (λ rungs. IsWayBackFrom (climbs_by way self.now) space.now top rungs.items) }
    {
        climb_back(alloc, self.slopes(way), space, top)
    }

    /// The least length over a higher place from each place of a rising list to a place, or the other way round.
    fn rests<L>(
        &self,
        alloc: Global,
        way: Way,
        space: &[Label],
        to: u32,
        steps: &mut Steps<L>,
    ) -> Result<Vec<Option<u64>>, NoMemory>
        requires space { IsRisingWithin 0 (length self.now.nodes) space.now }
        requires to { to < length self.now.nodes }
        ensures rests { IfOk result (λ rests.
            AreRests (faced way self.now) to space.now rests.items 0) }
        ensures asks { steps.new.1 ≡ steps.old.1 }
    {
        let down = self.climbed(alloc, way.turned(), to, steps)?;
        let mut rests = vec![in alloc; None; space.len()]?;
        for index in (0..space.len()).rev() {
            let rest = self.rest(
                alloc,
                way,
                space,
                index,
                rests.as_slice(),
                down.as_slice(),
                to,
                steps,
            )?;
            rests[index] = rest;
        }
        Ok(rests)
    }

    /// The same from one of the places, where the rests of the higher ones are known.
    fn rest<L>(
        &self,
        alloc: Global,
        way: Way,
        space: &[Label],
        index: usize,
        rests: &[Option<u64>],
        down: &[Label],
        to: u32,
        steps: &mut Steps<L>,
    ) -> Result<Option<u64>, NoMemory>
        requires space { IsRisingWithin 0 (length self.now.nodes) space.now }
        requires index { index < length space.now }
        requires rests { AreRests (faced way self.now) to space.now rests.now (index + 1) }
        requires down { IsSpace (faced way self.now).falls to down.now }
        requires to { to < length self.now.nodes }
        ensures rest { IfOk result (IsRestAt (faced way self.now) to space.now index) }
        ensures asks { steps.new.1 ≡ steps.old.1 }
    {
        let place = space[index].place;
        let mut least = length_at(down, place);
        for arc in self.row(way, place) {
            steps.tick();
            let far = self.rest_of_end(alloc, way, space, index, rests, arc.to, to, steps)?;
            least = over_arc(least, *arc, far);
        }
        Ok(least)
    }

    /// The same from the end of an arc, which may be none of the places.
    fn rest_of_end<L>(
        &self,
        alloc: Global,
        way: Way,
        space: &[Label],
        index: usize,
        rests: &[Option<u64>],
        end: u32,
        to: u32,
        steps: &mut Steps<L>,
    ) -> Result<Option<u64>, NoMemory>
        requires space { IsRisingWithin 0 (length self.now.nodes) space.now }
        requires index { index < length space.now }
        requires higher { (d : LabelOf) → (slice_index_or space.now index d).place < end }
        requires rests { AreRests (faced way self.now) to space.now rests.now (index + 1) }
        requires end { end < length self.now.nodes }
        requires to { to < length self.now.nodes }
        ensures rest { IfOk result (IsLeastTop (faced way self.now) end to) }
        ensures asks { steps.new.1 ≡ steps.old.1 }
    {
        match find(space, end) {
            Some(at) => Ok(rests[at]),
            None => self.between(alloc, way, end, to, steps),
        }
    }
}

/// The labels that listed nodes have by the places.
fn labels_by(
    alloc: Global,
    places: &[u32],
    listed: &[(NodeNo, u64)],
) -> Result<Vec<Label>, NoMemory>
    requires { AreIn places.now listed.now }
    ensures { IfOk result (λ labels.
        labels.items ≡ map (λ n. label_by places.now n) listed.now) }
{
    let mut labels = Vec::new(alloc);
    for (node, length) in listed {
        labels.push(Label {
            place: places[node.0 as usize],
            length: *length,
        })?;
    }
    Ok(labels)
}

/// The nodes at places, with their lengths.
fn listed_nodes(
    alloc: Global,
    nodes: &[NodeNo],
    labels: &[Label],
) -> Result<Items<(NodeNo, u64)>, NoMemory>
    requires { IsRisingWithin 0 (length nodes.now) labels.now }
    ensures { IfOk result (AreListed nodes.now labels.now) }
{
    let mut listed = Items::new(alloc);
    for label in labels {
        listed.push((nodes[label.place as usize], label.length))?;
    }
    Ok(listed)
}

/// The lesser of a length and of that over an arc, where this counts.
fn over_arc(least: Option<u64>, arc: Arc, far: Option<u64>) -> Option<u64>
    ensures { IsOverArc least arc far result }
{
    let Some(far) = far else { return least };
    if far >= FAR || arc.length >= FAR - far {
        return least;
    }
    Some(lesser(least, arc.length + far))
}
