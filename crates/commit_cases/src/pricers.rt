use insertion_cost::{Candidates, Offer, PlainPricer, Pricer};
use ride_base::NoMemory;
use road_graph::{Graph, Steps};
use std::alloc::Global;
use std::cell::Cell;
use stop_schedule::{FleetView, NewWalks, Request};

/// Prices by plain searches, and counts how often whole fleets and single vehicles are priced.
#[derive(Drop)]
pub struct CountedPricer<'g> {
    graph: &'g Graph,
    fleets: Cell<u64>,
    vehicles: Cell<u64>,
}

impl<'g> CountedPricer<'g> {
    ghost use Rattle.std.specs.Prelude.{◌≡◌};

    /// One over this graph, which has priced nothing.
    pub fn new(graph: &'g Graph) -> CountedPricer<'g>
        ensures { result.graph.now ≡ graph.now }
    {
        CountedPricer {
            graph,
            fleets: Cell::new(0),
            vehicles: Cell::new(0),
        }
    }

    /// How many whole fleets, and how many single vehicles were priced.
    pub fn counts(&self) -> (u64, u64) {
        (self.fleets.get(), self.vehicles.get())
    }
}

impl<'g, F: FleetView> Pricer<F> for CountedPricer<'g> {
    ghost graph = { λ p. p.graph.now };

    fn price<L>(
        &self,
        alloc: Global,
        view: &F,
        request: &Request,
        steps: &mut Steps<L>,
    ) -> Result<Candidates, NoMemory> {
        self.fleets.set(self.fleets.get().saturating_add(1));
        PlainPricer::new(self.graph).price(alloc, view, request, steps)
    }

    fn one<L>(
        &self,
        alloc: Global,
        view: &F,
        place: usize,
        request: &Request,
        steps: &mut Steps<L>,
    ) -> Result<Option<Offer>, NoMemory> {
        self.vehicles.set(self.vehicles.get().saturating_add(1));
        PlainPricer::new(self.graph).one(alloc, view, place, request, steps)
    }

    fn direct<L>(
        &self,
        alloc: Global,
        request: &Request,
        steps: &mut Steps<L>,
    ) -> Result<Option<u64>, NoMemory> {
        let pricer = PlainPricer::new(self.graph);
        <PlainPricer as Pricer<F>>::direct(&pricer, alloc, request, steps)
    }

    fn walks<L>(
        &self,
        alloc: Global,
        view: &F,
        request: &Request,
        offer: &Offer,
        steps: &mut Steps<L>,
    ) -> Result<NewWalks, NoMemory> {
        PlainPricer::new(self.graph).walks(alloc, view, request, offer, steps)
    }
}
