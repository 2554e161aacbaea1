ghost use Rattle.std.specs.Prelude.{◌≡◌, ◌+◌, ◌<◌, ◌≤◌, OnOk, IfOk};
ghost use Rattle.road_graph.specs.Roads.{IsNode};
ghost use Rattle.road_graph.specs.Graphs.{IsGraph};
ghost use Rattle.upward_search.specs.Fitting.{rank_of};
ghost use Rattle.contraction.specs.Removing.{IsNextRank};
ghost use Rattle.contraction.specs.Searching.{IsMarked};
ghost use Rattle.contraction.specs.Working.{IsWork, AreEmpty};

use crate::bridge::bridges;
use crate::rows::{End, detach, put, take_row};
use crate::search::Search;
use crate::start::first_arcs;
use ride_base::{Items, NoMemory};
use road_graph::{Graph, NodeNo, Steps};
use std::alloc::Global;
use upward_search::RankArc;

/// A graph of which some nodes have been removed.
#[derive(Drop)]
pub(crate) struct Work {
    /// The rank of each node that was removed, at its number, and the number of nodes for each other.
    pub(crate) ranks: Vec<u32>,
    pub(crate) climbing: Vec<RankArc>,
    /// The arcs between nodes that are left, in rows by the node that they lead out of, and by the node that they lead into.
    pub(crate) outs: Vec<Items<RankArc>>,
    pub(crate) ins: Vec<Items<RankArc>>,
    pub(crate) falling: Vec<RankArc>,
}

impl Work {
    /// The graph before any node is removed.
    pub(crate) fn begin<L>(
        alloc: Global,
        graph: &Graph,
        steps: &mut Steps<L>,
    ) -> Result<Work, NoMemory>
        ensures work { IfOk result (λ w. IsWork graph.now 0 w) }
        ensures kept { IfOk result (λ _. IsGraph graph.now) }
        ensures asks { steps.new.1 ≡ steps.old.1 }
        ensures steps { steps.old.0 ≤ steps.new.0 }
    {
        let arcs = first_arcs(alloc, graph, steps)?;
        let ranks = vec![in alloc; graph.nodes(); graph.nodes() as usize + 1]?;
        let mut outs = empty_rows(alloc, graph)?;
        let mut ins = empty_rows(alloc, graph)?;
        put(alloc, &mut outs, &mut ins, arcs.as_slice())?;
        Ok(Work {
            ranks,
            climbing: Vec::new(alloc),
            outs,
            ins,
            falling: Vec::new(alloc),
        })
    }

    /// Removes a node, which gets this rank. After an error the work is of no more use.
    pub(crate) fn remove(
        &mut self,
        alloc: Global,
        graph: &Graph,
        search: &mut Search,
        node: NodeNo,
        rank: u32,
    ) -> Result<(), NoMemory>
        requires work { IsWork graph.now rank self.old }
        requires marked { IsMarked (graph.now.nodes + 1) search.old }
        requires node { IsNode graph.now node }
        requires left { rank_of self.old.ranks.items node ≡ graph.now.nodes }
        requires room { rank < graph.now.nodes }
        ensures work { OnOk result (IsWork graph.now (rank + 1) self.new) }
        ensures marked { OnOk result (IsMarked (graph.now.nodes + 1) search.new) }
        ensures ranks { OnOk result
            (IsNextRank self.old.ranks.items self.new.ranks.items node rank) }
    {
        let outs = take_row(alloc, &mut self.outs, node);
        let ins = take_row(alloc, &mut self.ins, node);
        detach(alloc, &mut self.outs, ins.as_slice(), End::From, node);
        detach(alloc, &mut self.ins, outs.as_slice(), End::To, node);
        let found = bridges(
            alloc,
            node,
            ins.as_slice(),
            outs.as_slice(),
            self.outs.as_slice(),
            search,
        )?;
        put(alloc, &mut self.outs, &mut self.ins, found.as_slice())?;
        self.climbing.extend_from_slice(outs.as_slice())?;
        self.falling.extend_from_slice(ins.as_slice())?;
        self.ranks[node.0 as usize] = rank;
        Ok(())
    }
}

/// An empty row for each number up to the last node's.
fn empty_rows(alloc: Global, graph: &Graph) -> Result<Vec<Items<RankArc>>, NoMemory>
    ensures { IfOk result (λ rows. AreEmpty (graph.now.nodes + 1) rows.items) }
{
    let mut rows = Vec::new(alloc);
    let many = graph.nodes() as usize + 1;
    'empty: for _ in 0..many {
        rows.push(Items::new(alloc))?;
    }
    Ok(rows)
}
