ghost use Rattle.std.specs.Prelude.{◌≡◌, OnOk};
ghost use Rattle.board_core.specs.BoardViews.{board_of};
ghost use Rattle.board_cases.specs.Playing.{IsPlayed};

use crate::boards::{advance, answer, cancel, opened, wait};
use crate::cities::{CAR, FOUR, ONE, THREE, TWO, is_planned, line, ride, stamp_at, stop, walk};
use crate::twins::{answer_twice, cancel_twice, opened_twice};
use board_core::{Board, CancelReason, Cancelled};
use ride_base::{RequestNo, VehicleNo};
use road_graph::{Graph, Steps};
use std::alloc::Global;
use std::process::Abort;
use std::test::Fail;
use std::thread::Threads;
use stop_removal::{Joins, Removal};
use stop_schedule::{FleetView, NoIndex, StopKind};

/// Compares the list of the one vehicle, after the first of two requests was taken out at the version 5.
fn check_second_alone<R: Threads + Abort>(
    rt: &R,
    alloc: Global,
    board: &Board<NoIndex>,
) -> Result<(), Fail> {
    let stops = [
        stop(StopKind::Pickup, 2, THREE, 24),
        stop(StopKind::Dropoff, 2, FOUR, 34),
    ];
    let first = walk(rt, alloc, &[ONE, TWO, THREE])?;
    let second = walk(rt, alloc, &[THREE, FOUR])?;
    assert!(rt; is_planned(board.fleet(), 0, &stops, &[first, second]));
    assert_eq!(rt; stamp_at(board.fleet(), 0), Some(5));
    assert_eq!(rt; board.fleet().version(), 5);
    assert!(rt; board.cancelled(RequestNo(1)));
    assert!(rt; !board.cancelled(RequestNo(2)));
    assert!(rt; board.answer(RequestNo(1)).is_some());
    Ok(())
}

/// The removal of the first request, around whose pickup one walk is joined.
fn first_removal<R: Threads>(rt: &R, alloc: Global) -> Result<Removal, Fail> {
    let mut walks = Joins::new(alloc);
    walks.push(walk(rt, alloc, &[ONE, TWO, THREE])?);
    Ok(Removal {
        no: VehicleNo(1),
        pickup: 1,
        dropoff: 4,
        walks,
    })
}

/// The first of two riders cancels on one board, and his removal is applied to the other one.
fn check_removed<R: Threads + Abort>(
    rt: &R,
    alloc: Global,
    graph: &Graph,
    one: &mut Board<NoIndex>,
    other: &mut Board<NoIndex>,
) -> Result<(), Fail>
    requires played { IsPlayed graph.now (board_of one.old) }
    requires alike { board_of other.old ≡ board_of one.old }
{
    let mut steps = Steps::start(rt, ());
    answer_twice(alloc, graph, one, other, &ride(1, TWO, FOUR), &mut steps)?;
    answer_twice(alloc, graph, one, other, &ride(2, THREE, FOUR), &mut steps)?;
    assert!(rt; !one.cancelled(RequestNo(1)));
    let removal = cancel_twice(alloc, graph, one, other, RequestNo(1), &mut steps)?;
    assert_eq!(rt; removal, first_removal(rt, alloc)?);
    assert_eq!(rt; removal.walks.share(alloc)?, removal.walks);
    check_second_alone(rt, alloc, one)?;
    check_second_alone(rt, alloc, other)
}

#[test]
fn a_rider_is_taken_out(rt: HostRuntime) -> Result<(), Fail> {
    let graph = line(rt.alloc())?;
    let (mut one, mut other) = opened_twice(rt.alloc(), &graph, &[CAR])?;
    check_removed(&rt, rt.alloc(), &graph, &mut one, &mut other)
}

/// Compares what becomes of a cancellation with what should.
fn check_cancel<R: Threads + Abort>(
    rt: &R,
    alloc: Global,
    graph: &Graph,
    board: &mut Board<NoIndex>,
    number: u64,
    expected: Cancelled,
) -> Result<(), Fail>
    requires { IsPlayed graph.now (board_of board.old) }
    ensures { OnOk result (IsPlayed graph.now (board_of board.new)) }
{
    let version = board.fleet().version();
    let mut steps = Steps::start(rt, ());
    let told = cancel(alloc, graph, board, RequestNo(number), &mut steps)?;
    assert_eq!(rt; told, expected);
    assert_eq!(rt; board.fleet().version(), version.saturating_add(1));
    Ok(())
}

/// The only rider of the one vehicle is taken out, and no walk is joined.
fn only_rider(alloc: Global) -> Cancelled {
    Cancelled::Removed(Removal {
        no: VehicleNo(1),
        pickup: 1,
        dropoff: 2,
        walks: Joins::new(alloc),
    })
}

/// A first rider cancels twice.
fn check_twice<R: Threads + Abort>(
    rt: &R,
    alloc: Global,
    graph: &Graph,
    board: &mut Board<NoIndex>,
) -> Result<(), Fail>
    requires { IsPlayed graph.now (board_of board.old) }
{
    let mut steps = Steps::start(rt, ());
    answer(alloc, graph, board, &ride(1, TWO, FOUR), &mut steps)?;
    check_cancel(rt, alloc, graph, board, 1, only_rider(alloc))?;
    assert!(rt; is_planned(board.fleet(), 0, &[], &[]));
    let again = Cancelled::Refused(CancelReason::Cancelled);
    check_cancel(rt, alloc, graph, board, 1, again)
}

#[test]
fn a_rider_cancels_once(rt: HostRuntime) -> Result<(), Fail> {
    let graph = line(rt.alloc())?;
    let mut board = opened(rt.alloc(), &graph, &[CAR])?;
    check_twice(&rt, rt.alloc(), &graph, &mut board)
}

/// Riders cancel who can't: nobody, one whom no vehicle takes, one who was picked up, and one who waits.
fn check_refused<R: Threads + Abort>(
    rt: &R,
    alloc: Global,
    graph: &Graph,
    board: &mut Board<NoIndex>,
) -> Result<(), Fail>
    requires { IsPlayed graph.now (board_of board.old) }
{
    let mut steps = Steps::start(rt, ());
    let unknown = Cancelled::Refused(CancelReason::Unknown);
    check_cancel(rt, alloc, graph, board, 7, unknown)?;
    let mut many = ride(2, THREE, FOUR);
    many.riders = 3;
    answer(alloc, graph, board, &many, &mut steps)?;
    let nobody = Cancelled::Refused(CancelReason::Nobody);
    check_cancel(rt, alloc, graph, board, 2, nobody)?;
    answer(alloc, graph, board, &ride(1, TWO, FOUR), &mut steps)?;
    advance(alloc, graph, board, 12, &mut steps)?;
    let served = Cancelled::Refused(CancelReason::Served);
    check_cancel(rt, alloc, graph, board, 1, served)?;
    let mut later = ride(3, THREE, FOUR);
    later.moment = 12;
    wait(graph, board, &later)?;
    let waiting = Cancelled::Refused(CancelReason::Waiting);
    check_cancel(rt, alloc, graph, board, 3, waiting)
}

#[test]
fn cancellations_are_refused(rt: HostRuntime) -> Result<(), Fail> {
    let graph = line(rt.alloc())?;
    let mut board = opened(rt.alloc(), &graph, &[CAR])?;
    check_refused(&rt, rt.alloc(), &graph, &mut board)
}
