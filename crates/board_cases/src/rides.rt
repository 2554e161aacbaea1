ghost use Rattle.std.specs.Prelude.{◌≤◌, IfOk, OnOk};
ghost use Rattle.board_core.specs.BoardViews.{board_of};
ghost use Rattle.board_cases.specs.Playing.{IsPlayed};

use crate::boards::{advance, answer, apply, decide, has_room, opened, wait};
use crate::cities::{CAR, FOUR, ONE, THREE, TWO, is_planned, line, ride, stamp_at, stop, walk};
use board_core::{Advanced, Board, Fleet, Reason, Submitted};
use insertion_cost::{Assigned, Decision, Offer};
use ride_base::{Items, NoMemory, RequestNo, VehicleNo};
use road_graph::{Graph, NodeNo, Steps};
use std::alloc::Global;
use std::process::Abort;
use std::test::Fail;
use std::thread::Threads;
use stop_advance::Served;
use stop_schedule::{FleetView, Insertion, NewWalks, NoIndex, Request, StopKind};

/// Vehicle 1 takes request 1 from node 2 to 4, by 1 and 2, and by 2, 3 and 4.
fn first_answer<R: Threads>(rt: &R, alloc: Global) -> Result<Decision, Fail> {
    let offer = Offer {
        cost: 34,
        no: VehicleNo(1),
        place: 0,
        at: Insertion { i: 0, j: 0 },
        leave: 12,
        arrive: 32,
    };
    let mut walks = NewWalks::new(alloc);
    walks.push(walk(rt, alloc, &[ONE, TWO])?);
    walks.push(walk(rt, alloc, &[TWO, THREE, FOUR])?);
    Ok(Decision::Assigned(Assigned { offer, walks }))
}

/// Whether a request has this answer.
fn is_answer(board: &Board<NoIndex>, number: u64, expected: &Decision) -> bool {
    match board.answer(RequestNo(number)) {
        None => false,
        Some(decision) => *decision == *expected,
    }
}

/// A stop that vehicle 1 served.
fn served(kind: StopKind, node: NodeNo, arr: u64, dep: u64) -> (VehicleNo, Served) {
    let stop = Served {
        kind,
        no: RequestNo(1),
        node,
        arr,
        dep,
    };
    (VehicleNo(1), stop)
}

/// Moves the clock, and compares what is told, and a share of it, with stops that were reached.
fn check_moved<R: Threads + Abort>(
    rt: &R,
    alloc: Global,
    graph: &Graph,
    board: &mut Board<NoIndex>,
    now: u64,
    stops: &[(VehicleNo, Served)],
) -> Result<(), Fail>
    requires played { IsPlayed graph.now (board_of board.old) }
    requires moment { now ≤ 1000 }
    ensures { OnOk result (IsPlayed graph.now (board_of board.new)) }
{
    let told = advance(alloc, graph, board, now, &mut Steps::start(rt, ()))?;
    assert_eq!(rt; told.share(alloc)?, told);
    assert_eq!(rt; told, Advanced::Moved(Items::from_slice(alloc, stops)?));
    assert_eq!(rt; board.fleet().clock(), now);
    Ok(())
}

/// Compares the first vehicle's list with that of the first request alone, which has this stamp.
fn check_first_plan<R: Threads + Abort>(
    rt: &R,
    alloc: Global,
    board: &Board<NoIndex>,
) -> Result<(), Fail> {
    let stops = [
        stop(StopKind::Pickup, 1, TWO, 20),
        stop(StopKind::Dropoff, 1, FOUR, 50),
    ];
    let first = walk(rt, alloc, &[ONE, TWO])?;
    let second = walk(rt, alloc, &[TWO, THREE, FOUR])?;
    assert!(rt; is_planned(board.fleet(), 0, &stops, &[first, second]));
    assert_eq!(rt; stamp_at(board.fleet(), 0), Some(2));
    assert_eq!(rt; board.fleet().version(), 2);
    Ok(())
}

/// Submits the first request, and gives it its answer.
fn check_first<R: Threads + Abort>(
    rt: &R,
    alloc: Global,
    graph: &Graph,
    board: &mut Board<NoIndex>,
) -> Result<(), Fail>
    requires { IsPlayed graph.now (board_of board.old) }
{
    let request = ride(1, TWO, FOUR);
    let mut steps = Steps::start(rt, ());
    wait(graph, board, &request)?;
    assert_eq!(rt; board.waiting(), Some(&request));
    assert!(rt; board.answer(RequestNo(1)).is_none());
    let (decision, direct) = decide(alloc, graph, board, &request, &mut steps)?;
    assert_eq!(rt; direct, 20);
    apply(alloc, graph, board, &request, decision, direct, &mut steps)?;
    assert_eq!(rt; board.waiting(), None);
    assert!(rt; is_answer(board, 1, &first_answer(rt, alloc)?));
    check_first_plan(rt, alloc, board)
}

#[test]
fn a_request_is_answered(rt: HostRuntime) -> Result<(), Fail> {
    let graph = line(rt.alloc())?;
    let mut board = opened(rt.alloc(), &graph, &[CAR])?;
    check_first(&rt, rt.alloc(), &graph, &mut board)
}

/// Answers the first request.
fn first_board<R: Threads>(rt: &R, alloc: Global, graph: &Graph) -> Result<Board<NoIndex>, Fail>
    ensures { IfOk result (λ b. IsPlayed graph.now (board_of b)) }
{
    let mut board = opened(alloc, graph, &[CAR])?;
    let request = ride(1, TWO, FOUR);
    answer(
        alloc,
        graph,
        &mut board,
        &request,
        &mut Steps::start(rt, ()),
    )?;
    Ok(board)
}

/// Moves the clock to 12, then to 11, and to 40.
fn check_moves<R: Threads + Abort>(
    rt: &R,
    alloc: Global,
    graph: &Graph,
    board: &mut Board<NoIndex>,
) -> Result<(), Fail>
    requires { IsPlayed graph.now (board_of board.old) }
{
    let pickup = served(StopKind::Pickup, TWO, 10, 12);
    check_moved(rt, alloc, graph, board, 12, &[pickup])?;
    let told = advance(alloc, graph, board, 11, &mut Steps::start(rt, ()))?;
    assert_eq!(rt; told.share(alloc)?, told);
    assert_eq!(rt; told, Advanced::Back { clock: 12 });
    assert_eq!(rt; board.fleet().clock(), 12);
    let dropoff = served(StopKind::Dropoff, FOUR, 32, 34);
    check_moved(rt, alloc, graph, board, 40, &[dropoff])?;
    assert!(rt; is_planned(board.fleet(), 0, &[], &[]));
    check_moved(rt, alloc, graph, board, 40, &[])
}

#[test]
fn stops_are_served(rt: HostRuntime) -> Result<(), Fail> {
    let graph = line(rt.alloc())?;
    let mut board = first_board(&rt, rt.alloc(), &graph)?;
    check_moves(&rt, rt.alloc(), &graph, &mut board)
}

/// Whether two fleets are alike, vehicle by vehicle.
fn is_alike(one: &Fleet<NoIndex>, other: &Fleet<NoIndex>) -> bool {
    let count = one.count();
    if other.count() != count || other.version() != one.version() || other.clock() != one.clock() {
        return false;
    }
    for place in 0..count {
        let numbered = one.no(place) == other.no(place) && one.stamp(place) == other.stamp(place);
        if !numbered || *one.schedule(place) != *other.schedule(place) {
            return false;
        }
    }
    *one.params() == *other.params()
}

/// Whether what a board holds is shared as it is: its fleet, an answer and the walks of that.
fn is_shared(alloc: Global, board: &Board<NoIndex>, number: u64) -> Result<bool, NoMemory> {
    let fleet = board.fleet().share(alloc)?;
    let Some(decision) = board.answer(RequestNo(number)) else {
        return Ok(false);
    };
    let Decision::Assigned(assigned) = decision else {
        return Ok(false);
    };
    let walks = assigned.walks.share(alloc)? == assigned.walks;
    Ok(is_alike(board.fleet(), &fleet) && walks && decision.share(alloc)? == *decision)
}

#[test]
fn shares_are_equal(rt: HostRuntime) -> Result<(), Fail> {
    let graph = line(rt.alloc())?;
    let board = first_board(&rt, rt.alloc(), &graph)?;
    assert!(rt; is_shared(rt.alloc(), &board, 1)?);
    Ok(())
}

/// Answers a request of three riders.
fn check_nobody<R: Threads + Abort>(
    rt: &R,
    alloc: Global,
    graph: &Graph,
    board: &mut Board<NoIndex>,
) -> Result<(), Fail>
    requires { IsPlayed graph.now (board_of board.old) }
{
    let mut request = ride(1, TWO, FOUR);
    request.riders = 3;
    answer(alloc, graph, board, &request, &mut Steps::start(rt, ()))?;
    assert!(rt; is_answer(board, 1, &Decision::Nobody));
    assert!(rt; is_planned(board.fleet(), 0, &[], &[]));
    Ok(())
}

#[test]
fn nobody_takes_more_riders_than_seats(rt: HostRuntime) -> Result<(), Fail> {
    let graph = line(rt.alloc())?;
    let mut board = opened(rt.alloc(), &graph, &[CAR])?;
    check_nobody(&rt, rt.alloc(), &graph, &mut board)
}

/// The second request of the line, from node 3 to 4, which was made so.
fn changed(number: u64, pickup: u32, riders: u32, moment: u64) -> Request {
    let mut request = ride(number, NodeNo(pickup), FOUR);
    request.riders = riders;
    request.moment = moment;
    request
}

/// Compares what becomes of a request with what should.
fn check_submit(
    rt: &impl Abort,
    board: &mut Board<NoIndex>,
    request: Request,
    expected: Submitted,
) -> Result<(), Fail> {
    has_room(board)?;
    let version = board.fleet().version();
    assert_eq!(rt; board.submit(request)?, expected);
    assert_eq!(rt; board.fleet().version(), version + 1);
    Ok(())
}

/// Requests that are refused after the first one, by the first reason that holds: their node, riders and moment.
const REFUSED: &[(u32, u32, u64, Reason)] = &[
    (0, 0, 1 << 41, Reason::Place),
    (5, 1, 0, Reason::Place),
    (3, 0, 1 << 41, Reason::Riders),
    (3, 17, 0, Reason::Riders),
    (3, 1, (1 << 40) + 1, Reason::Moment),
    (3, 16, 1 << 40, Reason::Repeated),
];

/// Submits a first request, then those that are refused, and one of the largest numbers that are taken.
fn check_refused(
    rt: &impl Abort,
    board: &mut Board<NoIndex>,
    cases: &[(u32, u32, u64, Reason)],
) -> Result<(), Fail> {
    check_submit(rt, board, changed(1, 2, 1, 0), Submitted::Accepted)?;
    for case in cases {
        let request = changed(1, case.0, case.1, case.2);
        check_submit(rt, board, request, Submitted::Refused(case.3))?;
    }
    check_submit(rt, board, changed(2, 1, 16, 1 << 40), Submitted::Accepted)
}

#[test]
fn requests_are_refused(rt: HostRuntime) -> Result<(), Fail> {
    let graph = line(rt.alloc())?;
    let mut board = opened(rt.alloc(), &graph, &[CAR])?;
    check_refused(&rt, &mut board, REFUSED)
}

/// Moves the clock to 40, and submits a request of the moment before and one of that moment.
fn check_late<R: Threads + Abort>(
    rt: &R,
    alloc: Global,
    graph: &Graph,
    board: &mut Board<NoIndex>,
) -> Result<(), Fail>
    requires { IsPlayed graph.now (board_of board.old) }
{
    check_moved(rt, alloc, graph, board, 40, &[])?;
    let late = Submitted::Refused(Reason::Moment);
    check_submit(rt, board, changed(1, 3, 1, 39), late)?;
    check_submit(rt, board, changed(1, 3, 1, 40), Submitted::Accepted)
}

#[test]
fn a_request_behind_the_clock_is_refused(rt: HostRuntime) -> Result<(), Fail> {
    let graph = line(rt.alloc())?;
    let mut board = opened(rt.alloc(), &graph, &[CAR])?;
    check_late(&rt, rt.alloc(), &graph, &mut board)
}

/// Closes a board, if it is open.
fn shut(board: &mut Board<NoIndex>) -> Result<(), Fail> {
    has_room(board)?;
    if !board.is_closed() {
        board.shut();
    }
    Ok(())
}

/// Closes an open board, and submits a request.
fn check_shut(rt: &impl Abort, board: &mut Board<NoIndex>) -> Result<(), Fail> {
    assert!(rt; !board.is_closed());
    shut(board)?;
    assert!(rt; board.is_closed());
    let closed = Submitted::Refused(Reason::Closed);
    check_submit(rt, board, changed(1, 0, 0, 0), closed)
}

#[test]
fn a_closed_board_takes_no_request(rt: HostRuntime) -> Result<(), Fail> {
    let graph = line(rt.alloc())?;
    let mut board = opened(rt.alloc(), &graph, &[CAR])?;
    check_shut(&rt, &mut board)
}

/// Gives a desk the oldest waiting request, and takes it back.
fn claim_and_back(
    rt: &impl Abort,
    board: &mut Board<NoIndex>,
    desk: u64,
    oldest: &Request,
) -> Result<(), Fail> {
    has_room(board)?;
    let Some(request) = board.claim(desk) else {
        return Err("nothing waits".into());
    };
    assert_eq!(rt; request, *oldest);
    has_room(board)?;
    board.back(request.no);
    Ok(())
}

/// Gives a desk a request.
fn check_claim(
    rt: &impl Abort,
    board: &mut Board<NoIndex>,
    desk: u64,
    expected: Option<Request>,
) -> Result<(), Fail> {
    has_room(board)?;
    assert_eq!(rt; board.claim(desk), expected);
    Ok(())
}

/// Submits two requests, and gives the first to a desk, takes it back, and gives both to others.
fn check_claims(rt: &impl Abort, board: &mut Board<NoIndex>) -> Result<(), Fail> {
    let (first, second) = (ride(9, TWO, FOUR), ride(3, ONE, TWO));
    check_claim(rt, board, 5, None)?;
    assert_eq!(rt; board.fleet().version(), 0);
    check_submit(rt, board, first, Submitted::Accepted)?;
    check_submit(rt, board, second, Submitted::Accepted)?;
    claim_and_back(rt, board, 5, &first)?;
    assert_eq!(rt; board.waiting(), Some(&first));
    check_claim(rt, board, 7, Some(first))?;
    assert_eq!(rt; board.waiting(), Some(&second));
    check_claim(rt, board, 8, Some(second))?;
    check_claim(rt, board, 9, None)?;
    assert_eq!(rt; board.waiting(), None);
    assert_eq!(rt; board.fleet().version(), 6);
    Ok(())
}

#[test]
fn the_oldest_request_is_claimed(rt: HostRuntime) -> Result<(), Fail> {
    let graph = line(rt.alloc())?;
    let mut board = opened(rt.alloc(), &graph, &[CAR])?;
    check_claims(&rt, &mut board)
}
