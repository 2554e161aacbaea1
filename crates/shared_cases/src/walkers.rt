use plain_search::least_walk;
use ride_base::NoMemory;
use road_graph::{Graph, NodeNo, Steps, Walk};
use std::alloc::Global;
use stop_removal::Walker;

/// Finds least walks by searches of a graph.
#[derive(Clone, Copy)]
pub struct GraphWalker<'g> {
    graph: &'g Graph,
}

impl<'g> GraphWalker<'g> {
    ghost use Rattle.std.specs.Prelude.{◌≡◌};

    /// A walker over this graph.
    pub fn new(graph: &'g Graph) -> GraphWalker<'g>
        ensures { result.graph.now ≡ graph.now }
    {
        GraphWalker { graph }
    }
}

impl<'g> Walker for GraphWalker<'g> {
    ghost graph = { λ w. w.graph.now };

    fn least<L>(
        &self,
        alloc: Global,
        from: NodeNo,
        to: NodeNo,
        steps: &mut Steps<L>,
    ) -> Result<Option<Walk>, NoMemory> {
        let _ = self.graph.nodes();
        least_walk(alloc, self.graph, from, to, steps)
    }
}
