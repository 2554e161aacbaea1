use insertion_cost::Distances;
use plain_search::least_walk;
use ride_base::NoMemory;
use road_graph::{Graph, NodeNo, Steps};
use std::alloc::Global;
use std::thread::Threads;

/// The distances of a graph, each by a search.
#[derive(Drop)]
pub struct Searched<'g> {
    graph: &'g Graph,
    steps: Steps<()>,
}

impl<'g> Searched<'g> {
    ghost use Rattle.std.specs.Prelude.{◌≡◌};

    /// Those of this graph.
    pub fn new<R: Threads>(rt: &R, graph: &'g Graph) -> Searched<'g>
        ensures { result.graph.now ≡ graph.now }
    {
        Searched {
            graph,
            steps: Steps::start(rt, ()),
        }
    }
}

impl<'g> Distances for Searched<'g> {
    ghost graph = { λ d. d.graph.now };

    fn between(
        &mut self,
        alloc: Global,
        from: NodeNo,
        to: NodeNo,
    ) -> Result<Option<u64>, NoMemory> {
        let _ = self.graph.nodes();
        match least_walk(alloc, self.graph, from, to, &mut self.steps)? {
            None => Ok(None),
            Some(walk) => Ok(Some(walk.length())),
        }
    }
}
