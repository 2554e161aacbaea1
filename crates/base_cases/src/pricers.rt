ghost use Rattle.std.specs.Prelude.{◌≡◌, length, IfOk};
ghost use Rattle.road_graph.specs.Paths.{length_of};
ghost use Rattle.road_graph.specs.Roads.{IsNode};
ghost use Rattle.road_graph.specs.Walks.{IsLeastWalk};
ghost use Rattle.stop_schedule.specs.Fleets.{IsGoodFleet, IsGoodView};
ghost use Rattle.stop_schedule.specs.Samples.{ride};
ghost use Rattle.insertion_cost.specs.Offers.{IsOffer};
ghost use Rattle.insertion_cost.specs.Pricers.{IsRequestIn};
ghost use Rattle.base_cases.specs.OneVehicle.{first_over, one_vehicle};

use crate::cities::{FOUR, ONE, THREE, TWO, line};
use crate::plans::at;
use insertion_cost::{Distances, Floor, Offer, PlainPricer, Pricer, best_listed, best_plain};
use plain_search::least_walk;
use ride_base::{NoMemory, RequestNo, VehicleNo};
use road_graph::{Graph, NodeNo, Steps, Walk};
use std::alloc::Global;
use std::process::Abort;
use std::test::Fail;
use stop_schedule::{
    FleetView, Front, NewWalks, NoIndex, Params, Promise, Request, Schedule, Vehicle,
};

/// Vehicle 1 alone at the clock 0, with a schedule that changed at version 2.
#[derive(Clone, Copy)]
struct OneVehicle<'s> {
    schedule: &'s Schedule,
    params: Params,
    index: NoIndex,
}

impl<'s> FleetView for OneVehicle<'s> {
    type Index = NoIndex;

    ghost fleet = { λ v. record (one_vehicle v.schedule.now) { rates = v.params } };

    ghost index_of = { λ v. v.index };

    fn count(&self) -> usize {
        1
    }

    fn no(&self, _place: usize) -> VehicleNo {
        VehicleNo(1)
    }

    fn schedule(&self, _place: usize) -> &Schedule {
        self.schedule
    }

    fn stamp(&self, _place: usize) -> u64 {
        2
    }

    fn version(&self) -> u64 {
        2
    }

    fn clock(&self) -> u64 {
        0
    }

    fn params(&self) -> &Params {
        &self.params
    }

    fn index(&self) -> &NoIndex {
        &self.index
    }
}

/// A request of one rider at the moment 0.
fn request(number: u64, pickup: NodeNo, dropoff: NodeNo) -> Request
    ensures { result ≡ ride number pickup.0 dropoff.0 0 1 }
{
    Request {
        no: RequestNo(number),
        pickup,
        dropoff,
        moment: 0,
        riders: 1,
        spaces: 0,
    }
}

/// The distances of a graph, by a search for each.
#[derive(Drop)]
struct Searched<'g> {
    graph: &'g Graph,
    steps: Steps<()>,
}

impl<'g> Distances for Searched<'g> {
    ghost graph = { λ d. d.graph.now };

    fn between(
        &mut self,
        alloc: Global,
        from: NodeNo,
        to: NodeNo,
    ) -> Result<Option<u64>, NoMemory> {
        let _ = self.graph.nodes();
        let pricer = PlainPricer::new(self.graph);
        <PlainPricer as Pricer<OneVehicle>>::direct(
            &pricer,
            alloc,
            &request(0, from, to),
            &mut self.steps,
        )
    }
}

/// A least walk of this length.
fn least(
    alloc: Global,
    graph: &Graph,
    from: NodeNo,
    to: NodeNo,
    length: u64,
    steps: &mut Steps<()>,
) -> Result<Walk, Fail>
    requires from { IsNode graph.now from }
    requires to { IsNode graph.now to }
    ensures least { IfOk result (IsLeastWalk graph.now from to) }
    ensures length { IfOk result (λ w. length_of w ≡ length) }
{
    match least_walk(alloc, graph, from, to, steps)? {
        Some(walk) => of_length(walk, length),
        None => Err("no walk".into()),
    }
}

/// The walk, which has this length.
fn of_length(walk: Walk, length: u64) -> Result<Walk, Fail>
    ensures same { IfOk result (λ w. w ≡ walk) }
    ensures length { IfOk result (λ w. length_of w ≡ length) }
{
    if walk.length() == length {
        Ok(walk)
    } else {
        Err("another length".into())
    }
}

/// The schedule of a vehicle at node 1 that takes a first request over these walks.
fn first_over(alloc: Global, into: Walk, onward: Walk) -> Result<Schedule, NoMemory>
    requires into { length_of into ≡ 10 }
    requires onward { length_of onward ≡ 20 }
    ensures { IfOk result (λ s. s ≡ first_over into onward) }
{
    let vehicle = Vehicle {
        no: VehicleNo(1),
        start: ONE,
        seats: 2,
        from: 0,
        until: 1000,
        spaces: 0,
    };
    let opened = Schedule::opening(alloc, &vehicle);
    let mut walks = NewWalks::new(alloc);
    walks.push(into);
    walks.push(onward);
    let front = Front {
        node: ONE,
        time: 0,
        offset: 0,
    };
    let promise = Promise {
        pickup: 20,
        arrival: 50,
    };
    opened.inserted(
        alloc,
        &front,
        &request(1, TWO, FOUR),
        at(0, 0),
        &promise,
        &walks,
    )
}

/// The same on the line.
fn first_on(alloc: Global, graph: &Graph, steps: &mut Steps<()>) -> Result<Schedule, Fail>
    requires { graph.now.nodes ≡ 4 }
    ensures { IfOk result (λ s. IsGoodFleet graph.now (one_vehicle s)) }
{
    let into = least(alloc, graph, ONE, TWO, 10, steps)?;
    let onward = least(alloc, graph, TWO, FOUR, 20, steps)?;
    Ok(first_over(alloc, into, onward)?)
}

/// What the second request, from node 3 to 4, is offered: both stops between the older ones.
fn second_offer() -> Offer {
    Offer {
        cost: 10,
        no: VehicleNo(1),
        place: 0,
        at: at(1, 1),
        leave: 24,
        arrive: 34,
    }
}

/// The candidates, and the best one listed.
fn check_candidates<F: FleetView>(
    rt: &impl Abort,
    alloc: Global,
    graph: &Graph,
    view: &F,
    steps: &mut Steps<()>,
) -> Result<(), Fail>
    requires four { graph.now.nodes ≡ 4 }
    requires view { IsGoodView (F.Index.fits (F.index_of view.now)) graph.now (F.fleet view.now) }
{
    let pricer = PlainPricer::new(graph);
    let candidates = pricer.price(alloc, view, &request(2, THREE, FOUR), steps)?;
    assert_eq!(rt; candidates.base, 2);
    assert_eq!(rt; candidates.floor, Floor::All);
    assert_eq!(rt; candidates.entries.len(), 1);
    assert_eq!(rt; best_listed(&candidates), Some(second_offer()));
    Ok(())
}

/// The vehicle alone, and the direct way.
fn check_one<F: FleetView>(
    rt: &impl Abort,
    alloc: Global,
    graph: &Graph,
    view: &F,
    steps: &mut Steps<()>,
) -> Result<(), Fail>
    requires four { graph.now.nodes ≡ 4 }
    requires one { length (F.fleet view.now).cars ≡ 1 }
    requires view { IsGoodView (F.Index.fits (F.index_of view.now)) graph.now (F.fleet view.now) }
{
    let pricer = PlainPricer::new(graph);
    let request = request(2, THREE, FOUR);
    let one = pricer.one(alloc, view, 0, &request, steps)?;
    assert_eq!(rt; one, Some(second_offer()));
    let direct = <PlainPricer as Pricer<F>>::direct(&pricer, alloc, &request, steps)?;
    assert_eq!(rt; direct, Some(10));
    Ok(())
}

/// Whether the walks are over these lists of nodes.
fn are_over(walks: &[Walk], lists: &[&[NodeNo]]) -> bool {
    if walks.len() != lists.len() {
        return false;
    }
    for (walk, nodes) in walks.iter().zip(lists) {
        if walk.nodes() != *nodes {
            return false;
        }
    }
    true
}

/// The best offer by distances, where there is one.
fn best<F: FleetView>(
    alloc: Global,
    view: &F,
    request: &Request,
    distances: &mut Searched,
) -> Result<Offer, Fail>
    requires request { IsRequestIn distances.old.graph.now request.now }
    requires view { IsGoodView (F.Index.fits (F.index_of view.now)) distances.old.graph.now
        (F.fleet view.now) }
    ensures offer { IfOk result
        (IsOffer distances.old.graph.now (F.fleet view.now) request.now) }
{
    match best_plain(alloc, view, request, distances)? {
        Some(offer) => Ok(offer),
        None => Err("no offer".into()),
    }
}

/// The walks of the legs that an offer changes.
fn check_walks<F: FleetView>(
    rt: &impl Abort,
    alloc: Global,
    graph: &Graph,
    view: &F,
    offer: &Offer,
    steps: &mut Steps<()>,
) -> Result<(), Fail>
    requires four { graph.now.nodes ≡ 4 }
    requires view { IsGoodView (F.Index.fits (F.index_of view.now)) graph.now (F.fleet view.now) }
    requires offer { IsOffer graph.now (F.fleet view.now) (ride 2 3 4 0 1) offer.now }
{
    let pricer = PlainPricer::new(graph);
    let walks = pricer.walks(alloc, view, &request(2, THREE, FOUR), offer, steps)?;
    assert!(rt; are_over(walks.as_slice(), &[&[TWO, THREE], &[THREE, FOUR], &[FOUR]]));
    Ok(())
}

/// Whoever prices the second request finds the same.
fn check_all(
    rt: &impl Abort,
    alloc: Global,
    graph: &Graph,
    schedule: &Schedule,
    distances: &mut Searched,
    steps: &mut Steps<()>,
) -> Result<(), Fail>
    requires same { distances.old.graph.now ≡ graph.now }
    requires four { graph.now.nodes ≡ 4 }
    requires good { IsGoodFleet graph.now (one_vehicle schedule.now) }
{
    let view = OneVehicle {
        schedule,
        params: Params::usual(),
        index: NoIndex,
    };
    let offer = best(alloc, &view, &request(2, THREE, FOUR), distances)?;
    assert_eq!(rt; offer, second_offer());
    check_candidates(rt, alloc, graph, &view, steps)?;
    check_one(rt, alloc, graph, &view, steps)?;
    check_walks(rt, alloc, graph, &view, &offer, steps)
}

#[test]
fn the_second_request_of_the_line(rt: HostRuntime) -> Result<(), Fail> {
    let graph = line(rt.alloc())?;
    let mut steps = Steps::start(&rt, ());
    let schedule = first_on(rt.alloc(), &graph, &mut steps)?;
    let mut distances = Searched {
        graph: &graph,
        steps: Steps::start(&rt, ()),
    };
    check_all(
        &rt,
        rt.alloc(),
        &graph,
        &schedule,
        &mut distances,
        &mut steps,
    )
}
