ghost use Rattle.std.specs.Prelude.{◌≡◌, ◌≤◌, ◌∷◌, map, OnOk, IfOk};
ghost use Rattle.road_graph.specs.Roads.{IsNode};
ghost use Rattle.road_graph.specs.Walks.{IsLeastWalkOrNone};
ghost use Rattle.plain_search.specs.Reaching.{distance_of};
ghost use Rattle.insertion_cost.specs.Searches.{AreSearchesOf};
ghost use Rattle.insertion_cost.specs.Searches.{ways_at, ways_along};

use crate::node_ways::NodeWays;
use plain_search::{Reach, Way, least_walk, reach_from, reach_to};
use ride_base::NoMemory;
use road_graph::{Graph, NodeNo, Steps, Walk};
use std::alloc::Global;
use stop_schedule::{Front, Request, Stop};

/// What searches of a whole graph reach, from and to both nodes of a request.
#[derive(Drop)]
pub struct Searches {
    to_pickup: Reach,
    from_pickup: Reach,
    to_dropoff: Reach,
    from_dropoff: Reach,
}

impl Searches {
    /// Searches the whole graph from and to both nodes.
    pub fn of<L>(
        alloc: Global,
        graph: &Graph,
        request: &Request,
        steps: &mut Steps<L>,
    ) -> Result<Searches, NoMemory>
        requires pickup { IsNode graph.now request.now.pickup }
        requires dropoff { IsNode graph.now request.now.dropoff }
        ensures searches { IfOk result (AreSearchesOf graph.now request.now) }
        ensures steps { steps.old.0 ≤ steps.new.0 }
        ensures asks { steps.new.1 ≡ steps.old.1 }
    {
        Ok(Searches {
            to_pickup: reach_to(alloc, graph, request.pickup, None, steps)?,
            from_pickup: reach_from(alloc, graph, request.pickup, None, steps)?,
            to_dropoff: reach_to(alloc, graph, request.dropoff, None, steps)?,
            from_dropoff: reach_from(alloc, graph, request.dropoff, None, steps)?,
        })
    }

    /// Searches the whole graph for another request, in the memory of these searches. After an error nothing is left of either.
    pub fn renewed<L>(
        self,
        graph: &Graph,
        request: &Request,
        steps: &mut Steps<L>,
    ) -> Result<Searches, NoMemory>
        requires pickup { IsNode graph.now request.now.pickup }
        requires dropoff { IsNode graph.now request.now.dropoff }
        ensures searches { IfOk result (AreSearchesOf graph.now request.now) }
        ensures steps { steps.old.0 ≤ steps.new.0 }
        ensures asks { steps.new.1 ≡ steps.old.1 }
    {
        let Searches {
            to_pickup,
            from_pickup,
            to_dropoff,
            from_dropoff,
        } = self;
        let (pickup, dropoff) = (request.pickup, request.dropoff);
        Ok(Searches {
            to_pickup: to_pickup.renewed(graph, Way::To, pickup, None, steps)?,
            from_pickup: from_pickup.renewed(graph, Way::From, pickup, None, steps)?,
            to_dropoff: to_dropoff.renewed(graph, Way::To, dropoff, None, steps)?,
            from_dropoff: from_dropoff.renewed(graph, Way::From, dropoff, None, steps)?,
        })
    }

    /// The distance from the pickup to a node. None where there is no walk.
    pub fn from_pickup(&self, node: NodeNo) -> Option<u64>
        ensures { result ≡ distance_of self.now.from_pickup.listed node }
    {
        self.from_pickup.distance(node)
    }

    /// A least walk between two nodes, read off the searches where one of them is a node of the request at that end, and else searched. None
    /// where there is no walk.
    pub fn walk<L>(
        &self,
        alloc: Global,
        graph: &Graph,
        request: &Request,
        from: NodeNo,
        to: NodeNo,
        steps: &mut Steps<L>,
    ) -> Result<Option<Walk>, NoMemory>
        requires searches { AreSearchesOf graph.now request.now self.now }
        requires from { IsNode graph.now from }
        requires to { IsNode graph.now to }
        ensures walk { IfOk result (IsLeastWalkOrNone graph.now from to) }
        ensures steps { steps.old.0 ≤ steps.new.0 }
        ensures asks { steps.new.1 ≡ steps.old.1 }
    {
        if to == request.pickup {
            self.to_pickup.walk(alloc, graph, from, steps)
        } else if from == request.pickup {
            self.from_pickup.walk(alloc, graph, to, steps)
        } else if to == request.dropoff {
            self.to_dropoff.walk(alloc, graph, from, steps)
        } else if from == request.dropoff {
            self.from_dropoff.walk(alloc, graph, to, steps)
        } else {
            least_walk(alloc, graph, from, to, steps)
        }
    }

    /// The distances between a node and the two nodes of the request.
    pub fn ways_at(&self, node: NodeNo) -> NodeWays
        ensures { result ≡ ways_at self.now node }
    {
        NodeWays {
            to_pickup: self.to_pickup.distance(node),
            from_pickup: self.from_pickup.distance(node),
            to_dropoff: self.to_dropoff.distance(node),
            from_dropoff: self.from_dropoff.distance(node),
        }
    }
}

/// Puts the distances of the front's node and of each stop's in the place of what was there.
pub fn gather(
    searches: &Searches,
    front: &Front,
    stops: &[Stop],
    ways: &mut Vec<NodeWays>,
) -> Result<(), NoMemory>
    ensures { OnOk result (ways.new.items ≡ ways_along searches.now front.now stops.now) }
{
    ways.clear();
    ways.push(searches.ways_at(front.node))?;
    for stop in stops {
        ways.push(searches.ways_at(stop.node))?;
    }
    Ok(())
}
