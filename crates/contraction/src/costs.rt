ghost use Rattle.std.specs.Prelude.{◌≡◌, ◌+◌, ◌<◌, length, IfOk};
ghost use Rattle.contraction.specs.Searching.{IsMarked};
ghost use Rattle.contraction.specs.Rows.{AreHere};
ghost use Rattle.contraction.specs.Working.{AreRows};

use crate::bridge::count_from;
use crate::rows::{End, far};
use crate::search::Search;
use crate::work::Work;
use ride_base::NoMemory;
use road_graph::{Graph, NodeNo};
use std::alloc::Global;
use upward_search::RankArc;

/// The cost of a node that changes no count of arcs and has no removed node below it, from which arcs that go are taken off.
const EVEN: u64 = 4_294_967_296;

/// How long the longest chain of removed nodes below each node is. The cost of a node stands on it, and no contract on the cost.
#[derive(Drop)]
pub(crate) struct Depths {
    pub(crate) each: Vec<u32>,
}

impl Depths {
    /// None for each node.
    pub(crate) fn new(alloc: Global, graph: &Graph) -> Result<Depths, NoMemory>
        ensures { IfOk result (λ d. length d.each.items ≡ graph.now.nodes + 1) }
    {
        Ok(Depths {
            each: vec![in alloc; 0; graph.nodes() as usize + 1]?,
        })
    }

    /// What it costs to remove a node: four for each arc that seems to be needed, less four for each that goes, and three for each
    /// removed node of the longest chain below.
    pub(crate) fn cost(
        &self,
        work: &Work,
        search: &mut Search,
        node: NodeNo,
    ) -> Result<u64, NoMemory>
        requires rows { AreRows (length self.now.each.items) work.now }
        requires marked { IsMarked (length self.now.each.items) search.old }
        requires node { node.0 < length self.now.each.items }
        ensures { IfOk result (λ _. IsMarked (length self.now.each.items) search.new) }
    {
        let place = node.0 as usize;
        let come = count_needed(work, search, node)?;
        let ins = work.ins[place].as_slice().len() as u64;
        let outs = work.outs[place].as_slice().len() as u64;
        let rise = (come as u64)
            .saturating_mul(4)
            .saturating_add(u64::from(self.each[place]) * 3)
            .saturating_add(EVEN);
        Ok(rise.saturating_sub(ins.saturating_add(outs).saturating_mul(4)))
    }

    /// Counts a node that is about to be removed below its neighbours.
    pub(crate) fn deepen(&mut self, work: &Work, node: NodeNo)
        requires rows { AreRows (length self.old.each.items) work.now }
        requires node { node.0 < length self.old.each.items }
        ensures { length self.new.each.items ≡ length self.old.each.items }
    {
        let place = node.0 as usize;
        let depth = self.each[place].saturating_add(1);
        self.raise(work.outs[place].as_slice(), End::From, depth);
        self.raise(work.ins[place].as_slice(), End::To, depth);
    }

    /// Raises the other ends of these arcs to this depth.
    fn raise(&mut self, arcs: &[RankArc], end: End, depth: u32)
        requires { AreHere (length self.old.each.items) arcs.now }
        ensures { length self.new.each.items ≡ length self.old.each.items }
    {
        for arc in arcs {
            let place = far(end, *arc).0 as usize;
            self.each[place] = self.each[place].max(depth);
        }
    }
}

/// How many arcs seem to be needed over a node.
fn count_needed(work: &Work, search: &mut Search, node: NodeNo) -> Result<usize, NoMemory>
    requires rows { AreRows (length work.now.outs.items) work.now }
    requires marked { IsMarked (length work.now.outs.items) search.old }
    requires node { node.0 < length work.now.outs.items }
    ensures { IfOk result (λ _. IsMarked (length work.now.outs.items) search.new) }
{
    let rows = work.outs.as_slice();
    let place = node.0 as usize;
    let outs = rows[place].as_slice();
    let mut count: usize = 0;
    for down in work.ins[place].as_slice() {
        count = count.saturating_add(count_from(node, *down, outs, rows, search)?);
    }
    Ok(count)
}
