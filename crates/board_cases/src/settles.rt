ghost use Rattle.std.specs.Prelude.{◌<◌, ◌≤◌, IfOk, OnOk};
ghost use Rattle.stop_schedule.specs.Fleets.{IsGoodFleet};
ghost use Rattle.stop_schedule.specs.Limits.{latest_moment};
ghost use Rattle.insertion_cost.specs.Candidates.{AreSound};
ghost use Rattle.insertion_cost.specs.Pricers.{IsRequestIn};
ghost use Rattle.board_core.specs.BoardViews.{board_of};
ghost use Rattle.board_core.specs.FleetViews.{cars_of};
ghost use Rattle.board_cases.specs.Playing.{IsPlayed};

use crate::boards::{advance, answer, cancel, opened, wait};
use crate::cities::{CAR, FOUR, THREE, TWO, line, ride};
use crate::distances::Searched;
use board_core::{Board, Cancelled, Fleet, candidates_stay_sound, fleets_stay_good};
use commit_check::settle;
use insertion_cost::{Candidates, Decision, Offer, PlainPricer, Pricer, best_plain};
use ride_base::{Items, NoMemory, RequestNo, VehicleNo};
use road_graph::{Graph, NodeNo, Steps};
use std::alloc::Global;
use std::process::Abort;
use std::test::Fail;
use std::thread::Threads;
use stop_schedule::{FleetView, NoIndex, Request, Vehicle};

/// Three vehicles on the line, the last one with one seat.
const CARS: [Vehicle; 3] = [
    CAR,
    Vehicle {
        no: VehicleNo(2),
        start: FOUR,
        ..CAR
    },
    Vehicle {
        no: VehicleNo(5),
        start: TWO,
        seats: 1,
        ..CAR
    },
];

/// How many boards are drawn.
const BOARDS: u64 = 80;

/// What is played: the nodes of the rides that are answered, which are numbered from 0, the moment to which the clock moves then, the
/// nodes of the ride that is priced, the numbers that cancel, and how many of them are taken off.
type Case = (&'static [(u32, u32)], u64, (u32, u32), &'static [u64], u64);

const CASES: &[(&str, Case)] = &[
    ("the only rider", (&[(2, 4)], 0, (2, 3), &[0], 1)),
    ("on the way to him", (&[(2, 4)], 5, (3, 4), &[0], 1)),
    ("once he is picked up", (&[(2, 4)], 10, (3, 4), &[0], 0)),
    ("twice", (&[(2, 4)], 0, (3, 1), &[0, 0], 1)),
    ("the first of two", (&[(2, 4), (3, 4)], 0, (2, 4), &[0], 1)),
    ("the second of two", (&[(2, 4), (3, 4)], 0, (2, 4), &[1], 1)),
    (
        "the second of two, once the first is picked up",
        (&[(2, 4), (3, 4)], 10, (3, 4), &[0, 1], 1),
    ),
    (
        "all three",
        (&[(2, 4), (3, 4), (3, 1)], 0, (1, 2), &[2, 0, 1], 3),
    ),
    ("a number that nobody has", (&[(2, 4)], 0, (2, 4), &[7], 0)),
    ("nobody", (&[(2, 4)], 0, (2, 4), &[], 0)),
];

/// Candidates of a fleet.
fn priced_on(
    alloc: Global,
    graph: &Graph,
    fleet: &Fleet<NoIndex>,
    request: &Request,
    steps: &mut Steps<()>,
) -> Result<Candidates, NoMemory>
    requires good { IsGoodFleet graph.now (cars_of fleet.now) }
    requires request { IsRequestIn graph.now request.now }
    ensures { IfOk result (AreSound graph.now (cars_of fleet.now) request.now) }
{
    PlainPricer::new(graph).price(alloc, fleet, request, steps)
}

/// Candidates of the fleet of a board as it is.
fn priced(
    alloc: Global,
    graph: &Graph,
    board: &Board<NoIndex>,
    request: &Request,
    steps: &mut Steps<()>,
) -> Result<Candidates, Fail>
    requires played { IsPlayed graph.now (board_of board.now) }
    requires request { IsRequestIn graph.now request.now }
    ensures { IfOk result (AreSound graph.now (board_of board.now).fleet request.now) }
{
    fleets_stay_good();
    Ok(priced_on(alloc, graph, board.fleet(), request, steps)?)
}

/// Takes the riders of a number off the board after candidates were priced. It tells whether they were taken off.
fn cancel_after(
    alloc: Global,
    graph: &Graph,
    board: &mut Board<NoIndex>,
    number: u64,
    request: &Request,
    candidates: &Candidates,
    steps: &mut Steps<()>,
) -> Result<bool, Fail>
    requires played { IsPlayed graph.now (board_of board.old) }
    requires sound { AreSound graph.now
        (board_of board.old).fleet request.now candidates.now }
    ensures played { OnOk result (IsPlayed graph.now (board_of board.new)) }
    ensures sound { OnOk result (AreSound graph.now
        (board_of board.new).fleet request.now candidates.now) }
{
    fleets_stay_good();
    candidates_stay_sound();
    let told = cancel(alloc, graph, board, RequestNo(number), steps)?;
    Ok(matches!(told, Cancelled::Removed(_)))
}

/// What candidates settle to on a fleet.
fn settled_on(
    alloc: Global,
    graph: &Graph,
    fleet: &Fleet<NoIndex>,
    candidates: &Candidates,
    request: &Request,
    steps: &mut Steps<()>,
) -> Result<Decision, NoMemory>
    requires good { IsGoodFleet graph.now (cars_of fleet.now) }
    requires request { IsRequestIn graph.now request.now }
    requires sound { AreSound graph.now (cars_of fleet.now) request.now candidates.now }
{
    settle(
        alloc,
        fleet,
        candidates,
        request,
        &PlainPricer::new(graph),
        steps,
    )
}

/// The best insertion into a fleet, by distances alone.
fn best_on<R: Threads>(
    rt: &R,
    alloc: Global,
    graph: &Graph,
    fleet: &Fleet<NoIndex>,
    request: &Request,
) -> Result<Option<Offer>, NoMemory>
    requires good { IsGoodFleet graph.now (cars_of fleet.now) }
    requires request { IsRequestIn graph.now request.now }
{
    best_plain(alloc, fleet, request, &mut Searched::new(rt, graph))
}

/// The offer of an answer.
fn offer_of(decision: &Decision) -> Option<Offer> {
    match decision {
        Decision::Assigned(assigned) => Some(assigned.offer),
        Decision::Nobody => None,
    }
}

/// Compares what candidates settle to with the best insertion into the fleet of a board as it is. It tells the vehicle and the cost.
fn check_settled<R: Threads + Abort>(
    rt: &R,
    alloc: Global,
    graph: &Graph,
    board: &Board<NoIndex>,
    candidates: &Candidates,
    request: &Request,
) -> Result<Option<(u32, u64)>, Fail>
    requires played { IsPlayed graph.now (board_of board.now) }
    requires request { IsRequestIn graph.now request.now }
    requires sound { AreSound graph.now
        (board_of board.now).fleet request.now candidates.now }
{
    fleets_stay_good();
    let mut steps = Steps::start(rt, ());
    let decision = settled_on(alloc, graph, board.fleet(), candidates, request, &mut steps)?;
    let best = best_on(rt, alloc, graph, board.fleet(), request)?;
    assert_eq!(rt; offer_of(&decision), best);
    Ok(best.map(|offer: Offer| (offer.no.0, offer.cost)))
}

/// Candidates for a second rider are priced where a first one has a place, and the first one cancels: with whom he would have shared the
/// way he has the vehicle alone.
fn check_shared_way<R: Threads + Abort>(
    rt: &R,
    alloc: Global,
    graph: &Graph,
    board: &mut Board<NoIndex>,
) -> Result<(), Fail>
    requires { IsPlayed graph.now (board_of board.old) }
{
    let mut steps = Steps::start(rt, ());
    let request = ride(9, TWO, THREE);
    answer(alloc, graph, board, &ride(1, TWO, FOUR), &mut steps)?;
    wait(graph, board, &request)?;
    let candidates = priced(alloc, graph, board, &request, &mut steps)?;
    let before = check_settled(rt, alloc, graph, board, &candidates, &request)?;
    assert_eq!(rt; before, Some((1, 2)));
    let gone = cancel_after(alloc, graph, board, 1, &request, &candidates, &mut steps)?;
    assert!(rt; gone);
    let after = check_settled(rt, alloc, graph, board, &candidates, &request)?;
    assert_eq!(rt; after, Some((1, 24)));
    Ok(())
}

#[test]
fn candidates_outlast_a_cancellation(rt: HostRuntime) -> Result<(), Fail> {
    let graph = line(rt.alloc())?;
    let mut board = opened(rt.alloc(), &graph, &[CAR])?;
    check_shared_way(&rt, rt.alloc(), &graph, &mut board)
}

/// Answers requests one after another.
fn answer_all(
    alloc: Global,
    graph: &Graph,
    board: &mut Board<NoIndex>,
    requests: &[Request],
    steps: &mut Steps<()>,
) -> Result<(), Fail>
    requires { IsPlayed graph.now (board_of board.old) }
    ensures { OnOk result (IsPlayed graph.now (board_of board.new)) }
{
    for request in requests {
        answer(alloc, graph, board, request, steps)?;
    }
    Ok(())
}

/// Lets riders cancel one after another, and settles the candidates after each. It tells how many were taken off.
fn check_cancelled<R: Threads + Abort>(
    rt: &R,
    alloc: Global,
    graph: &Graph,
    board: &mut Board<NoIndex>,
    candidates: &Candidates,
    request: &Request,
    numbers: &[u64],
) -> Result<u64, Fail>
    requires played { IsPlayed graph.now (board_of board.old) }
    requires request { IsRequestIn graph.now request.now }
    requires sound { AreSound graph.now
        (board_of board.old).fleet request.now candidates.now }
{
    let mut steps = Steps::start(rt, ());
    let mut gone: u64 = 0;
    check_settled(rt, alloc, graph, board, candidates, request)?;
    for number in numbers {
        let off = cancel_after(
            alloc, graph, board, *number, request, candidates, &mut steps,
        )?;
        check_settled(rt, alloc, graph, board, candidates, request)?;
        gone = gone.saturating_add(u64::from(off));
    }
    Ok(gone)
}

/// Answers requests, moves the clock, prices one more request, and lets riders cancel. It tells how many were taken off.
fn check_priced_before<R: Threads + Abort>(
    rt: &R,
    alloc: Global,
    graph: &Graph,
    board: &mut Board<NoIndex>,
    answered: &[Request],
    now: u64,
    request: &Request,
    numbers: &[u64],
) -> Result<u64, Fail>
    requires played { IsPlayed graph.now (board_of board.old) }
    requires moment { now ≤ latest_moment }
{
    let mut steps = Steps::start(rt, ());
    answer_all(alloc, graph, board, answered, &mut steps)?;
    advance(alloc, graph, board, now, &mut steps)?;
    wait(graph, board, request)?;
    let candidates = priced(alloc, graph, board, request, &mut steps)?;
    check_cancelled(rt, alloc, graph, board, &candidates, request, numbers)
}

/// The rides of a case.
fn rides(alloc: Global, nodes: &[(u32, u32)]) -> Result<Items<Request>, NoMemory> {
    let mut rides = Items::new(alloc);
    for (at, (pickup, dropoff)) in nodes.iter().enumerate() {
        rides.push(ride(at as u64, NodeNo(*pickup), NodeNo(*dropoff)))?;
    }
    Ok(rides)
}

/// Plays a case on a board of two vehicles.
fn check_case<R: Threads + Abort>(
    rt: &R,
    alloc: Global,
    name: &str,
    case: &Case,
) -> Result<(), Fail> {
    let (answered, now, (pickup, dropoff), numbers, taken_off) = *case;
    if now > 1000 {
        return Err("too late".into());
    }
    let graph = line(alloc)?;
    let mut board = opened(alloc, &graph, &[CARS[0], CARS[1]])?;
    let request = Request {
        moment: now,
        ..ride(99, NodeNo(pickup), NodeNo(dropoff))
    };
    let rides = rides(alloc, answered)?;
    let gone = check_priced_before(
        rt,
        alloc,
        &graph,
        &mut board,
        rides.as_slice(),
        now,
        &request,
        numbers,
    )?;
    assert_eq!(rt; gone, taken_off, "{name}");
    Ok(())
}

#[test]
fn candidates_outlast_cancellations(rt: HostRuntime) -> Result<(), Fail> {
    for (name, case) in CASES {
        check_case(&rt, rt.alloc(), name, case)?;
    }
    Ok(())
}

/// Numbers that look random, by a linear congruence modulo 2^64.
#[derive(Drop)]
struct Numbers {
    state: u64,
}

impl Numbers {
    /// A number below this one.
    fn draw(&mut self, many: u32) -> u32
        requires { 0 < many }
        ensures { result < many }
    {
        self.state = self
            .state
            .wrapping_mul(6364136223846793005)
            .wrapping_add(1442695040888963407);
        (self.state >> 33) as u32 % many
    }

    /// A request of this number for one or two riders, for a moment soon after this one.
    fn request(&mut self, number: u64, now: u64) -> Request {
        Request {
            no: RequestNo(number),
            pickup: NodeNo(self.draw(4) + 1),
            dropoff: NodeNo(self.draw(4) + 1),
            moment: now.saturating_add(u64::from(self.draw(20))),
            riders: self.draw(2) + 1,
            spaces: 0,
        }
    }

    /// One of six numbers.
    fn number(&mut self) -> u64 {
        u64::from(self.draw(6))
    }
}

/// Plays on a board of three vehicles what is drawn. It tells how many riders were taken off.
fn play_drawn<R: Threads + Abort>(
    rt: &R,
    alloc: Global,
    graph: &Graph,
    seed: u64,
) -> Result<u64, Fail> {
    let mut board = opened(alloc, graph, &CARS)?;
    let mut numbers = Numbers { state: seed };
    let mut answered = [ride(0, TWO, FOUR); 6];
    for (at, request) in answered.iter_mut().enumerate() {
        *request = numbers.request(at as u64, 0);
    }
    let now = u64::from(numbers.draw(40));
    let request = numbers.request(99, now);
    let cancel = [numbers.number(), numbers.number(), numbers.number()];
    check_priced_before(
        rt, alloc, graph, &mut board, &answered, now, &request, &cancel,
    )
}

#[test]
fn candidates_outlast_drawn_cancellations(rt: HostRuntime) -> Result<(), Fail> {
    let graph = line(rt.alloc())?;
    let mut gone: u64 = 0;
    for seed in 0..BOARDS {
        gone = gone.saturating_add(play_drawn(&rt, rt.alloc(), &graph, seed)?);
    }
    assert!(&rt; gone > 50, "{gone} riders were taken off");
    Ok(())
}
