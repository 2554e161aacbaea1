ghost use Rattle.std.specs.Prelude.{◌≡◌, ℕ, ◌+◌, ◌<◌, ◌≤◌, ◌^◌, List, [], length, IfOk, MatchOption, slice_get, Some, None};
ghost use Rattle.upward_search.specs.declared.slope.Label.{Label as LabelOf};
ghost use Rattle.upward_search.specs.Climbs.{IsRising, IsIn};
ghost use Rattle.upward_search.specs.Ladders.{Ladder, IsLeastTop, IsNamed};
ghost use Rattle.upward_search.specs.Hierarchies.{LadderFits};
ghost use Rattle.upward_search.specs.Names.{AreNamed};
ghost use Rattle.road_graph.specs.Walks.{NoWalk, IsLeastWalk};
ghost use Rattle.upward_search.specs.Sums.{Common};
ghost use Rattle.upward_search.specs.WaysBack.{AreRungs, rungs_length};
ghost use Rattle.upward_search.specs.Parts.{AreWaiting, parts_length};
ghost use Rattle.upward_search.specs.Stacks.{AreStacked, IsLineTo, IsLeastLine};

use crate::backing::Rung;
use crate::levels::Levels;
use crate::line::Line;
use crate::meeting::least_sum;
use crate::slope::Label;
use crate::topping::top_of;
use crate::unpacking::{Part, is_road};
use crate::way::Way;
use ride_base::NoMemory;
use road_graph::{Graph, NodeNo, Steps, Walk};
use std::alloc::Global;

/// The arcs of a way up and of a way down, the last of the way first.
fn stacked(alloc: Global, up: &[Rung], down: Vec<Rung>) -> Result<Vec<Part>, NoMemory>
    ensures { IfOk result (λ parts. AreStacked up.now down.items parts.items) }
{
    let mut parts = fallen(alloc, down)?;
    for rung in up {
        parts.push(Part {
            from: rung.low,
            to: rung.arc.to,
            length: rung.arc.length,
            middle: rung.arc.middle,
        })?;
    }
    Ok(parts)
}

/// The arcs of a way down, the last first.
fn fallen(alloc: Global, mut down: Vec<Rung>) -> Result<Vec<Part>, NoMemory>
    ensures { IfOk result (λ parts. AreStacked [] down.items parts.items) }
{
    let mut parts = Vec::new(alloc);
    'falling: while let Some(rung) = down.pop() {
        parts.push(Part {
            from: rung.arc.to,
            to: rung.low,
            length: rung.arc.length,
            middle: rung.arc.middle,
        })?;
    }
    Ok(parts)
}

impl Levels {
    /// The roads of arcs that lead from one place to another, without rounds of length 0.
    fn unpacked(
        &self,
        alloc: Global,
        from: u32,
        to: u32,
        mut parts: Vec<Part>,
    ) -> Result<Line, NoMemory>
        requires { AreWaiting self.now from to parts.items }
        ensures { IfOk result (λ line.
            IsLineTo self.now from to (parts_length parts.items) line.roads.items line.run) }
    {
        self.laws();
        let mut line = Line::begin(alloc, from)?;
        'unpacking: while let Some(part) = parts.pop() {
            if is_road(part) {
                line.go_on(Label {
                    place: part.to,
                    length: part.length,
                })?;
                continue;
            }
            parts.push(self.climb_part(part.middle, part.to))?;
            parts.push(self.fall_part(part.from, part.middle))?;
        }
        Ok(line)
    }

    /// The roads of a least way from one place to another, without rounds of length 0.
    fn line_between<L>(
        &self,
        alloc: Global,
        from: u32,
        to: u32,
        steps: &mut Steps<L>,
    ) -> Result<Option<Line>, NoMemory>
        requires from { from < length self.now.nodes }
        requires to { to < length self.now.nodes }
        ensures line { IfOk result (λ found. MatchOption found
            (IsLeastTop self.now from to None)
            (λ line. IsLeastLine self.now from to line.roads.items line.run)) }
        ensures asks { steps.new.1 ≡ steps.old.1 }
    {
        let left = self.climbed(alloc, Way::From, from, steps)?;
        let right = self.climbed(alloc, Way::To, to, steps)?;
        let ups = left.as_slice();
        let downs = right.as_slice();
        let Some(total) = least_sum(ups, downs) else {
            return Ok(None);
        };
        let Some((index, other)) = top_of(ups, downs, total) else {
            return Ok(None);
        };
        let up = self.climbed_back(alloc, Way::From, ups, index)?;
        let down = self.climbed_back(alloc, Way::To, downs, other)?;
        let parts = stacked(alloc, up.as_slice(), down)?;
        let line = self.unpacked(alloc, from, to, parts)?;
        Ok(Some(line))
    }

    /// A least walk from one node to another without a repeated node. None where there is no walk.
    pub(crate) fn walk<L>(
        &self,
        alloc: Global,
        graph: &Graph,
        from: NodeNo,
        to: NodeNo,
        steps: &mut Steps<L>,
    ) -> Result<Option<Walk>, NoMemory>
        requires fits { LadderFits graph.now self.now }
        requires from { IsNamed self.now from }
        requires to { IsNamed self.now to }
        ensures walk { IfOk result (λ found.
            MatchOption found (NoWalk graph.now from to) (IsLeastWalk graph.now from to)) }
        ensures asks { steps.new.1 ≡ steps.old.1 }
    {
        self.laws();
        let start = self.place(from);
        let end = self.place(to);
        let Some(line) = self.line_between(alloc, start, end, steps)? else {
            return Ok(None);
        };
        let nodes = self.named(alloc, line.roads.as_slice())?;
        Walk::made(alloc, graph, nodes.as_slice(), steps)
    }
}

/// The nodes at places.
pub(crate) fn nodes_at(
    alloc: Global,
    nodes: &[NodeNo],
    line: &[Label],
) -> Result<Vec<NodeNo>, NoMemory>
    requires { (r : LabelOf) → IsIn line.now r → r.place < length nodes.now }
    ensures { IfOk result (λ named. AreNamed nodes.now line.now named.items) }
{
    let mut named = Vec::new(alloc);
    for label in line {
        named.push(nodes[label.place as usize])?;
    }
    Ok(named)
}
