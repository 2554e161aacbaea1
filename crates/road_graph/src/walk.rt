ghost use Rattle.std.specs.Prelude.{◌≡◌, ℕ, ◌+◌, ◌-◌, ◌<◌, ◌≤◌, List, [], length, IfOk, MatchOption, slice_index, Some, None};
ghost use Rattle.road_graph.specs.Limits.{most_walk_nodes};
ghost use Rattle.road_graph.specs.Paths.{Path, length_of, IsPath};
ghost use Rattle.road_graph.specs.Walks.{walk_length, IsMeasured};
ghost use Rattle.road_graph.specs.Reads.{read_along};
ghost use Rattle.road_graph.specs.Offsets.{AreOffsets};

use crate::graph::Graph;
use crate::road::NodeNo;
use crate::short::Short;
use crate::steps::Steps;
use ride_base::NoMemory;
use std::alloc::Global;
use std::default::MadeWith;
use std::marker::Model;

/// A walk of one node or more, and how far each of its nodes is from the first along it, in the graph's weight units. The offsets begin
/// at 0 and never fall. A walk of one node takes no memory beside itself. It doesn't keep the graph that it is a walk of.
#[derive(Debug, PartialEq, Eq, Drop)]
pub struct Walk {
    nodes: Short<NodeNo>,
    offsets: Short<u64>,
}

impl Model for Walk {
    ghost use Rattle.road_graph.specs.Paths.{Path, IsPath};

    ghost Value = { Path };

    ghost view = { λ w. record { nodes = w.nodes; offsets = w.offsets } };

    ghost inverse = { λ p. record { nodes = p.nodes; offsets = p.offsets } };

    ghost invariant = { λ w. IsPath (record { nodes = w.nodes; offsets = w.offsets }) };
}

impl Walk {
    /// The nodes as a walk of the graph; none where they are no walk of it, as where there are none. Of parallel roads it takes the
    /// least weight. At most 4,194,304 nodes. It counts the roads out of each node but the last, up to the first that isn't joined to
    /// the next, and no more of them where memory ends; nothing else is left then.
    pub fn made<L>(
        alloc: Global,
        graph: &Graph,
        nodes: &[NodeNo],
        steps: &mut Steps<L>,
    ) -> Result<Option<Walk>, NoMemory>
        requires { length nodes.now ≤ most_walk_nodes }
        ensures walk { IfOk result (λ made. MatchOption made
            (walk_length graph.now nodes.now ≡ None)
            (λ w. (w.nodes ≡ nodes.now) × IsMeasured graph.now w)) }
        ensures steps { IfOk result
            (λ _. steps.new ≡ (steps.old.0 + read_along graph.now nodes.now, steps.old.1)) }
        ensures least { steps.old.0 ≤ steps.new.0 }
        ensures most { steps.new.0 ≤ steps.old.0 + read_along graph.now nodes.now }
        ensures asks { steps.new.1 ≡ steps.old.1 }
    {
        let Some(offsets) = offsets_of(alloc, graph, nodes, steps)? else {
            return Ok(None);
        };
        let nodes = Short::from_slice(alloc, nodes)?;
        Ok(Some(Walk { nodes, offsets }))
    }

    /// The nodes in their order, at least one. A node may stand more than once.
    pub fn nodes(&self) -> &[NodeNo]
        ensures nodes { result.now ≡ self.now.nodes }
        ensures path { IsPath self.now }
    {
        self.nodes.as_slice()
    }

    /// How far the node at a place, counted from 0, is from the first along the walk, in the graph's weight units.
    pub fn offset(&self, k: usize) -> u64
        requires { k < length self.now.nodes }
        ensures offset { result ≡ slice_index self.now.offsets k }
        ensures path { IsPath self.now }
    {
        self.offsets.as_slice()[k]
    }

    /// How far the last node is from the first along the walk, in the graph's weight units; 0 for one node.
    pub fn length(&self) -> u64
        ensures length { result ≡ length_of self.now }
        ensures path { IsPath self.now }
    {
        let offsets = self.offsets.as_slice();
        offsets[offsets.len() - 1]
    }

    /// An equal walk. After an error nothing is left of it, and this walk is as it was.
    pub fn share(&self, alloc: Global) -> Result<Walk, NoMemory>
        ensures { IfOk result (λ w. w ≡ self.now) }
    {
        Ok(Walk {
            nodes: Short::from_slice(alloc, self.nodes.as_slice())?,
            offsets: Short::from_slice(alloc, self.offsets.as_slice())?,
        })
    }
}

impl MadeWith<Global> for Walk {
    ghost use Rattle.std.specs.Prelude.{◌≡◌, [], ◌∷◌};
    ghost use Rattle.road_graph.specs.Roads.{node};

    ghost is_made_with = { λ w. (w.nodes ≡ node 1 ∷ []) × (w.offsets ≡ 0 ∷ []) };

    /// Node 1 alone, for a place that holds no walk yet. It takes no memory.
    fn made_with(alloc: Global) -> Walk {
        Walk {
            nodes: Short::one(alloc, NodeNo::default()),
            offsets: Short::one(alloc, 0),
        }
    }
}

/// How far each node is from the first, where the nodes are a walk.
fn offsets_of<L>(
    alloc: Global,
    graph: &Graph,
    nodes: &[NodeNo],
    steps: &mut Steps<L>,
) -> Result<Option<Short<u64>>, NoMemory>
    requires { length nodes.now ≤ most_walk_nodes }
    ensures offsets { IfOk result (λ made. MatchOption made
        (walk_length graph.now nodes.now ≡ None)
        (λ offsets. AreOffsets graph.now nodes.now offsets)) }
    ensures steps { IfOk result
        (λ _. steps.new ≡ (steps.old.0 + read_along graph.now nodes.now, steps.old.1)) }
    ensures least { steps.old.0 ≤ steps.new.0 }
    ensures most { steps.new.0 ≤ steps.old.0 + read_along graph.now nodes.now }
    ensures asks { steps.new.1 ≡ steps.old.1 }
{
    let Some((first, rest)) = nodes.split_first() else {
        return Ok(None);
    };
    if !graph.has(*first) {
        return Ok(None);
    }
    let mut offsets = Short::new(alloc);
    offsets.push(0)?;
    let mut here = *first;
    let mut length = 0;
    for next in rest {
        let Some(weight) = graph.joined(here, *next, steps) else {
            return Ok(None);
        };
        length += u64::from(weight);
        offsets.push(length)?;
        here = *next;
    }
    Ok(Some(offsets))
}
