ghost use Rattle.std.specs.Prelude.{◌≡◌, ◌+◌, ◌<◌, length, IfOk, OnOk};
ghost use Rattle.road_graph.specs.Graphs.{IsGraph};
ghost use Rattle.road_graph.specs.Roads.{Roads, IsNode};
ghost use Rattle.road_graph.specs.Walks.{IsDist};
ghost use Rattle.stop_schedule.specs.Fleets.{IsGoodFleet, IsGoodView};
ghost use Rattle.insertion_cost.specs.NodeWays.{AreNodesOf, AreWaysOf, AreWaysTo, IsDistOrNone};
ghost use Rattle.insertion_cost.specs.Offers.{IsBestOrNone};
ghost use Rattle.insertion_cost.specs.Pricers.{IsBestAt, IsRequestIn};

use crate::behind::Behind;
use crate::node_ways::NodeWays;
use crate::offer::{Offer, first_of_two};
use crate::pairs::{PlacedVehicle, best_from};
use ride_base::NoMemory;
use road_graph::NodeNo;
use std::alloc::Global;
use stop_schedule::{FleetView, Front, Request, Stop};

/// The distances of one graph, which is its meaning.
pub trait Distances {
    /// The graph.
    ghost graph: { Self → Roads };

    /// The distance from one node to another, in the units of the roads' weights. None where there is no walk. The graph stays, whatever
    /// it answers.
    fn between(&mut self, alloc: Global, from: NodeNo, to: NodeNo) -> Result<Option<u64>, NoMemory>
        requires from { IsNode (graph self.old) from }
        requires to { IsNode (graph self.old) to }
        ensures lawful { IsGraph (graph self.new) }
        ensures kept { graph self.new ≡ graph self.old }
        ensures distance { IfOk result (IsDistOrNone (graph self.old) from to) };
}

/// The distances between a node and the two nodes of a request.
fn ways_of<D: Distances>(
    alloc: Global,
    request: &Request,
    node: NodeNo,
    distances: &mut D,
) -> Result<NodeWays, NoMemory>
    requires node { IsNode (D.graph distances.old) node }
    requires request { IsRequestIn (D.graph distances.old) request.now }
    ensures kept { D.graph distances.new ≡ D.graph distances.old }
    ensures ways { IfOk result (AreWaysOf (D.graph distances.old) request.now node) }
{
    Ok(NodeWays {
        to_pickup: distances.between(alloc, node, request.pickup)?,
        from_pickup: distances.between(alloc, request.pickup, node)?,
        to_dropoff: distances.between(alloc, node, request.dropoff)?,
        from_dropoff: distances.between(alloc, request.dropoff, node)?,
    })
}

/// Puts the distances of the front's node and of each stop's in the place of what was there.
fn gather_ways<D: Distances>(
    alloc: Global,
    request: &Request,
    front: &Front,
    stops: &[Stop],
    distances: &mut D,
    ways: &mut Vec<NodeWays>,
) -> Result<(), NoMemory>
    requires nodes { AreNodesOf (D.graph distances.old) front.now stops.now }
    requires request { IsRequestIn (D.graph distances.old) request.now }
    ensures kept { D.graph distances.new ≡ D.graph distances.old }
    ensures ways { OnOk result (AreWaysTo (D.graph distances.old) request.now front.now stops.now
        (length stops.now + 1) ways.new.items) }
{
    ways.clear();
    ways.push(ways_of(alloc, request, front.node, distances)?)?;
    for stop in stops {
        ways.push(ways_of(alloc, request, stop.node, distances)?)?;
    }
    Ok(())
}

/// The best offer of the vehicle in a place of a view over all pairs of places, where the direct way is so long. None where no pair is
/// feasible.
fn best_at<F: FleetView, D: Distances>(
    alloc: Global,
    view: &F,
    place: usize,
    request: &Request,
    direct: u64,
    distances: &mut D,
    ways: &mut Vec<NodeWays>,
    rows: &mut Vec<Behind>,
) -> Result<Option<Offer>, NoMemory>
    requires graph { IsGraph (D.graph distances.old) }
    requires fleet { IsGoodFleet (D.graph distances.old) (F.fleet view.now) }
    requires request { IsRequestIn (D.graph distances.old) request.now }
    requires direct { IsDist (D.graph distances.old) request.now.pickup request.now.dropoff direct }
    requires place { place < length (F.fleet view.now).cars }
    ensures kept { D.graph distances.new ≡ D.graph distances.old }
    ensures best { IfOk result
        (IsBestAt (D.graph distances.old) (F.fleet view.now) request.now place) }
{
    let schedule = view.schedule(place);
    let front = schedule.front(view.clock());
    gather_ways(alloc, request, &front, schedule.stops(), distances, ways)?;
    let vehicle = PlacedVehicle {
        no: view.no(place),
        place,
    };
    let params = view.params();
    best_from(
        vehicle, schedule, &front, params, request, direct, ways, rows,
    )
}

/// The best offer over all vehicles of a view and all pairs of places, by distances alone. None where no insertion is feasible.
pub fn best_plain<F: FleetView, D: Distances>(
    alloc: Global,
    view: &F,
    request: &Request,
    distances: &mut D,
) -> Result<Option<Offer>, NoMemory>
    requires view { IsGoodView (F.Index.fits (F.index_of view.now)) (D.graph distances.old)
        (F.fleet view.now) }
    requires request { IsRequestIn (D.graph distances.old) request.now }
    ensures kept { D.graph distances.new ≡ D.graph distances.old }
    ensures best { IfOk result
        (IsBestOrNone (D.graph distances.old) (F.fleet view.now) request.now) }
{
    let direct = distances.between(alloc, request.pickup, request.dropoff)?;
    let Some(direct) = direct else {
        return Ok(None);
    };
    let mut ways = Vec::new(alloc);
    let mut rows = Vec::new(alloc);
    let mut best = None;
    for place in 0..view.count() {
        let offer = best_at(
            alloc, view, place, request, direct, distances, &mut ways, &mut rows,
        )?;
        best = first_of_two(best, offer);
    }
    Ok(best)
}
