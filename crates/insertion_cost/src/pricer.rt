ghost use Rattle.std.specs.Prelude.{◌≡◌, ◌+◌, ◌<◌, ◌≤◌, length, IsOk, IfOk};
ghost use Rattle.road_graph.specs.Graphs.{IsGraph};
ghost use Rattle.road_graph.specs.Roads.{Roads};
ghost use Rattle.stop_schedule.specs.Distances.{AreLeastWalks};
ghost use Rattle.stop_schedule.specs.Fleets.{IsGoodView};
ghost use Rattle.stop_schedule.specs.Fronts.{front_of};
ghost use Rattle.stop_schedule.specs.Lists.{changed_ends};
ghost use Rattle.insertion_cost.specs.Candidates.{AreFresh, Decides};
ghost use Rattle.insertion_cost.specs.NodeWays.{IsDistOrNone};
ghost use Rattle.insertion_cost.specs.Offers.{IsOffer};
ghost use Rattle.insertion_cost.specs.Pricers.{AreWalksOf, IsBestAt, IsRequestIn};

use crate::candidates::Candidates;
use crate::offer::Offer;
use ride_base::NoMemory;
use road_graph::Steps;
use std::alloc::Global;
use stop_schedule::{FleetView, NewWalks, Request};

/// What prices requests over one graph, which is its meaning. The view of each call is good over that graph, and both nodes of the
/// request are in it. Each call counts what it is asked for, and the roads that it reads.
pub trait Pricer<F: FleetView> {
    /// The graph.
    ghost graph: { Self → Roads };

    /// Candidates of the view's version and fronts, which are enough to tell the best insertion.
    fn price<L>(
        &self,
        alloc: Global,
        view: &F,
        request: &Request,
        steps: &mut Steps<L>,
    ) -> Result<Candidates, NoMemory>
        requires view { IsGoodView
            (F.Index.fits (F.index_of view.now)) (graph self.now) (F.fleet view.now) }
        requires request { IsRequestIn (graph self.now) request.now }
        ensures graph { IsGraph (graph self.now) }
        ensures fresh { IfOk result (AreFresh (graph self.now) (F.fleet view.now) request.now) }
        ensures decides { IfOk result Decides }
        ensures steps { steps.old.0 ≤ steps.new.0 }
        ensures asks { IsOk result → steps.new.1 ≡ steps.old.1 + length (F.fleet view.now).cars }
        ensures few { steps.new.1 ≤ steps.old.1 + length (F.fleet view.now).cars }
        ensures kept { steps.old.1 ≤ steps.new.1 };

    /// The best offer of the vehicle at a place. None where none of its insertions is feasible.
    fn one<L>(
        &self,
        alloc: Global,
        view: &F,
        place: usize,
        request: &Request,
        steps: &mut Steps<L>,
    ) -> Result<Option<Offer>, NoMemory>
        requires view { IsGoodView
            (F.Index.fits (F.index_of view.now)) (graph self.now) (F.fleet view.now) }
        requires request { IsRequestIn (graph self.now) request.now }
        requires place { place < length (F.fleet view.now).cars }
        ensures graph { IsGraph (graph self.now) }
        ensures best { IfOk result
            (IsBestAt (graph self.now) (F.fleet view.now) request.now place) }
        ensures steps { steps.old.0 ≤ steps.new.0 }
        ensures asks { IsOk result → steps.new.1 ≡ steps.old.1 + 1 }
        ensures few { steps.new.1 ≤ steps.old.1 + 1 }
        ensures kept { steps.old.1 ≤ steps.new.1 };

    /// The distance from the pickup to the dropoff. None exactly where there is no walk.
    fn direct<L>(
        &self,
        alloc: Global,
        request: &Request,
        steps: &mut Steps<L>,
    ) -> Result<Option<u64>, NoMemory>
        requires request { IsRequestIn (graph self.now) request.now }
        ensures graph { IsGraph (graph self.now) }
        ensures direct { IfOk result
            (IsDistOrNone (graph self.now) request.now.pickup request.now.dropoff) }
        ensures steps { steps.old.0 ≤ steps.new.0 }
        ensures asks { IsOk result → steps.new.1 ≡ steps.old.1 + 1 }
        ensures few { steps.new.1 ≤ steps.old.1 + 1 }
        ensures kept { steps.old.1 ≤ steps.new.1 };

    /// Least walks of the legs that a feasible offer changes, in rising order of leg.
    fn walks<L>(
        &self,
        alloc: Global,
        view: &F,
        request: &Request,
        offer: &Offer,
        steps: &mut Steps<L>,
    ) -> Result<NewWalks, NoMemory>
        requires view { IsGoodView
            (F.Index.fits (F.index_of view.now)) (graph self.now) (F.fleet view.now) }
        requires request { IsRequestIn (graph self.now) request.now }
        requires offer { IsOffer (graph self.now) (F.fleet view.now) request.now offer.now }
        ensures graph { IsGraph (graph self.now) }
        ensures walks { IfOk result
            (AreWalksOf (graph self.now) (F.fleet view.now) request.now offer.now) }
        ensures steps { steps.old.0 ≤ steps.new.0 }
        ensures asks { IsOk result → steps.new.1 ≡ steps.old.1 + 1 }
        ensures few { steps.new.1 ≤ steps.old.1 + 1 }
        ensures kept { steps.old.1 ≤ steps.new.1 };
}
