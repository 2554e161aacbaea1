ghost use Rattle.std.specs.Prelude.{◌≡◌, ◌≤◌, IfOk};
ghost use Rattle.road_graph.specs.Graphs.{IsGraph};
ghost use Rattle.road_graph.specs.Roads.{Roads, IsNode};
ghost use Rattle.road_graph.specs.Walks.{IsLeastWalkOrNone};

use ride_base::NoMemory;
use road_graph::{NodeNo, Steps, Walk};
use std::alloc::Global;

/// What finds least walks of one graph, which is its meaning.
pub trait Walker {
    /// The graph.
    ghost graph: { Self → Roads };

    /// A least walk without a repeated node, or none exactly where there is no walk. It counts the roads that it reads, also where
    /// memory ends.
    fn least<L>(
        &self,
        alloc: Global,
        from: NodeNo,
        to: NodeNo,
        steps: &mut Steps<L>,
    ) -> Result<Option<Walk>, NoMemory>
        requires from { IsNode (graph self.now) from }
        requires to { IsNode (graph self.now) to }
        ensures walk { IfOk result (IsLeastWalkOrNone (graph self.now) from to) }
        ensures kept { IsGraph (graph self.now) }
        ensures steps { steps.old.0 ≤ steps.new.0 }
        ensures asks { steps.new.1 ≡ steps.old.1 };
}
