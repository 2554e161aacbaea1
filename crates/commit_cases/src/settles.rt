ghost use Rattle.std.specs.Prelude.{◌≡◌, IfOk};
ghost use Rattle.insertion_cost.specs.Candidates.{AreSound};
ghost use Rattle.insertion_cost.specs.Pricers.{IsRequestIn};
ghost use Rattle.board_core.specs.BoardViews.{board_of};
ghost use Rattle.commit_cases.specs.Ready.{IsReady};

use crate::cities::{CAR, FOUR, THREE, TWO, line, ride};
use crate::plays::is_in;
use crate::pricers::CountedPricer;
use crate::worlds::{opened, play};
use commit_check::settle;
use insertion_cost::{Candidates, Decision, PlainPricer, Pricer};
use interleave_core::{Event, World};
use ride_base::VehicleNo;
use road_graph::{Graph, Steps};
use std::alloc::Global;
use std::process::Abort;
use std::test::Fail;
use std::thread::Threads;
use stop_schedule::{FleetView, NoIndex, Request, Vehicle};

/// A vehicle at each end of the line.
const CARS: [Vehicle; 2] = [
    CAR,
    Vehicle {
        no: VehicleNo(2),
        start: FOUR,
        ..CAR
    },
];

/// The vehicle and the cost of an answer.
fn told(decision: &Decision) -> Option<(u32, u64)> {
    match decision {
        Decision::Assigned(assigned) => Some((assigned.offer.no.0, assigned.offer.cost)),
        Decision::Nobody => None,
    }
}

/// Candidates of the fleet of a world as it is.
fn priced(
    alloc: Global,
    graph: &Graph,
    world: &World<NoIndex>,
    request: &Request,
    steps: &mut Steps<()>,
) -> Result<Candidates, Fail>
    requires { IsReady graph.now 1 world.now }
    ensures { IfOk result
        (AreSound graph.now (board_of world.now.board).fleet request.now) }
{
    if !is_in(graph.nodes(), request) {
        return Err("a node that isn't there".into());
    }
    let pricer = PlainPricer::new(graph);
    Ok(pricer.price(alloc, world.board().fleet(), request, steps)?)
}

/// Settles candidates on the fleet of a world as it is, and compares the vehicle and the cost of the answer, and how many whole fleets
/// and single vehicles were priced for it.
fn check_settled<R: Threads + Abort>(
    rt: &R,
    alloc: Global,
    graph: &Graph,
    world: &World<NoIndex>,
    request: &Request,
    candidates: &Candidates,
    answer: (u32, u64),
    counts: (u64, u64),
) -> Result<(), Fail>
    requires ready { IsReady graph.now 1 world.now }
    requires sound { AreSound graph.now
        (board_of world.now.board).fleet request.now candidates.now }
{
    if !is_in(graph.nodes(), request) {
        return Err("a node that isn't there".into());
    }
    let pricer = CountedPricer::new(graph);
    let mut steps = Steps::start(rt, ());
    let fleet = world.board().fleet();
    let decision = settle(alloc, fleet, candidates, request, &pricer, &mut steps)?;
    assert_eq!(rt; told(&decision), Some(answer));
    assert_eq!(rt; pricer.counts(), counts);
    Ok(())
}

/// Candidates from which nothing is known, settled on the fleet of a world.
fn check_unknown<R: Threads + Abort>(
    rt: &R,
    alloc: Global,
    graph: &Graph,
    world: &World<NoIndex>,
    request: &Request,
    answer: (u32, u64),
) -> Result<(), Fail>
    requires { IsReady graph.now 1 world.now }
{
    let none = Candidates::none(alloc, world.board().fleet().version());
    check_settled(rt, alloc, graph, world, request, &none, answer, (1, 0))
}

/// The events by which the actor answers a request.
fn answered(request: Request) -> [Event; 4] {
    [
        Event::Submit(request),
        Event::Claim(0),
        Event::Price(0),
        Event::Commit(0),
    ]
}

/// Candidates of a fleet without rides: unchanged, after a ride was given to the first vehicle, and at a later clock.
fn check_ways<R: Threads + Abort>(
    rt: &R,
    alloc: Global,
    graph: &Graph,
    world: &mut World<NoIndex>,
) -> Result<(), Fail>
    requires { IsReady graph.now 1 world.old }
{
    let request = ride(9, TWO, THREE);
    let mut steps = Steps::start(rt, ());
    let candidates = priced(alloc, graph, world, &request, &mut steps)?;
    check_settled(
        rt,
        alloc,
        graph,
        world,
        &request,
        &candidates,
        (1, 24),
        (0, 0),
    )?;
    check_unknown(rt, alloc, graph, world, &request, (1, 24))?;
    play(
        alloc,
        graph,
        world,
        1,
        &answered(ride(1, TWO, FOUR)),
        &mut steps,
    )?;
    check_settled(
        rt,
        alloc,
        graph,
        world,
        &request,
        &candidates,
        (1, 2),
        (0, 1),
    )?;
    play(alloc, graph, world, 1, &[Event::Advance(50)], &mut steps)?;
    check_settled(
        rt,
        alloc,
        graph,
        world,
        &request,
        &candidates,
        (1, 138),
        (0, 2),
    )?;
    check_unknown(rt, alloc, graph, world, &request, (1, 138))
}

#[test]
fn what_changed_is_priced_anew(rt: HostRuntime) -> Result<(), Fail> {
    let graph = line(rt.alloc())?;
    let mut world = opened(rt.alloc(), &graph, &CARS, 1)?;
    check_ways(&rt, rt.alloc(), &graph, &mut world)
}

/// Candidates of two idle vehicles, which turn later.
fn check_fronts<R: Threads + Abort>(
    rt: &R,
    alloc: Global,
    graph: &Graph,
    world: &mut World<NoIndex>,
) -> Result<(), Fail>
    requires { IsReady graph.now 1 world.old }
{
    let request = ride(9, TWO, THREE);
    let mut steps = Steps::start(rt, ());
    let candidates = priced(alloc, graph, world, &request, &mut steps)?;
    play(alloc, graph, world, 1, &[Event::Advance(50)], &mut steps)?;
    check_settled(
        rt,
        alloc,
        graph,
        world,
        &request,
        &candidates,
        (1, 108),
        (0, 2),
    )?;
    check_unknown(rt, alloc, graph, world, &request, (1, 108))
}

#[test]
fn later_fronts_are_priced_anew(rt: HostRuntime) -> Result<(), Fail> {
    let graph = line(rt.alloc())?;
    let mut world = opened(rt.alloc(), &graph, &CARS, 1)?;
    check_fronts(&rt, rt.alloc(), &graph, &mut world)
}

/// The second of two requests, priced and unknown, after the first was answered.
fn check_second<R: Threads + Abort>(
    rt: &R,
    alloc: Global,
    graph: &Graph,
    world: &mut World<NoIndex>,
) -> Result<(), Fail>
    requires { IsReady graph.now 1 world.old }
{
    let request = ride(2, THREE, FOUR);
    let mut steps = Steps::start(rt, ());
    play(
        alloc,
        graph,
        world,
        1,
        &answered(ride(1, TWO, FOUR)),
        &mut steps,
    )?;
    let candidates = priced(alloc, graph, world, &request, &mut steps)?;
    check_settled(
        rt,
        alloc,
        graph,
        world,
        &request,
        &candidates,
        (1, 10),
        (0, 0),
    )?;
    check_unknown(rt, alloc, graph, world, &request, (1, 10))
}

#[test]
fn priced_and_unknown_candidates_settle_to_the_same(rt: HostRuntime) -> Result<(), Fail> {
    let graph = line(rt.alloc())?;
    let mut world = opened(rt.alloc(), &graph, &[CAR], 1)?;
    check_second(&rt, rt.alloc(), &graph, &mut world)
}
