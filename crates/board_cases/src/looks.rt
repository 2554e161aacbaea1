ghost use Rattle.std.specs.Prelude.{OnOk};
ghost use Rattle.board_core.specs.BoardViews.{board_of};
ghost use Rattle.board_cases.specs.Playing.{IsPlayed};

use crate::boards::{answer, opened};
use crate::cities::{CAR, ride, ring, stop};
use board_core::{Board, Fleet};
use ride_base::VehicleNo;
use road_graph::{Graph, NodeNo, Steps};
use std::alloc::Global;
use std::process::Abort;
use std::test::Fail;
use std::thread::Threads;
use stop_schedule::{FleetView, NoIndex, StopKind, Vehicle};

/// How many requests are answered.
const RIDES: u32 = 40;

/// A vehicle at each node of the ring.
fn cars() -> [Vehicle; 200] {
    let mut cars = [CAR; 200];
    for (place, car) in cars.iter_mut().enumerate() {
        car.no = VehicleNo(place as u32 + 1);
        car.start = NodeNo(place as u32 + 1);
    }
    cars
}

/// The rides begin at each fifth node, and end at the next one.
fn answer_all<R: Threads>(
    rt: &R,
    alloc: Global,
    graph: &Graph,
    board: &mut Board<NoIndex>,
) -> Result<(), Fail>
    requires { IsPlayed graph.now (board_of board.old) }
{
    let mut steps = Steps::start(rt, ());
    for at in 0..RIDES {
        let request = ride(u64::from(at), NodeNo(5 * at + 1), NodeNo(5 * at + 2));
        answer(alloc, graph, board, &request, &mut steps)?;
    }
    Ok(())
}

/// Whether all vehicles stand where they stood at first.
fn is_untouched(fleet: &Fleet<NoIndex>) -> bool {
    if fleet.version() != 0 || fleet.clock() != 0 || fleet.count() != 200 {
        return false;
    }
    for place in 0..fleet.count() {
        let schedule = fleet.schedule(place);
        let stands = schedule.place().0 as usize == place + 1 && schedule.departure() == 0;
        if fleet.stamp(place) != 0 || !stands || !schedule.stops().is_empty() {
            return false;
        }
    }
    true
}

/// Whether the vehicle at a place has the ride that begins at its node, or no ride, as the place should.
fn has_its_ride(fleet: &Fleet<NoIndex>, place: usize) -> bool {
    if place >= fleet.count() || place >= 200 {
        return false;
    }
    let stops = fleet.schedule(place).stops();
    let at = place as u64 / 5;
    if place % 5 != 0 {
        return stops.is_empty() && fleet.stamp(place) == 0;
    }
    let node = place as u32 + 1;
    let ride = [
        stop(StopKind::Pickup, at, NodeNo(node), 20),
        stop(StopKind::Dropoff, at, NodeNo(node + 1), 30),
    ];
    stops == ride.as_slice() && fleet.stamp(place) == 2 * at + 2
}

/// How many vehicles have the ride that they should have, or none.
fn count_right(fleet: &Fleet<NoIndex>) -> usize {
    let mut right = 0;
    for place in 0..200usize {
        if has_its_ride(fleet, place) && right < 200 {
            right += 1;
        }
    }
    right
}

/// Takes a look at a fleet, changes 40 of its vehicles, and looks again.
fn check_look<R: Threads + Abort>(
    rt: &R,
    alloc: Global,
    graph: &Graph,
    board: &mut Board<NoIndex>,
) -> Result<(), Fail>
    requires { IsPlayed graph.now (board_of board.old) }
{
    let look = board.fleet().share(alloc)?;
    answer_all(rt, alloc, graph, board)?;
    assert!(rt; is_untouched(&look));
    assert_eq!(rt; board.fleet().version(), 80);
    assert_eq!(rt; count_right(board.fleet()), 200);
    Ok(())
}

#[test]
fn a_look_stays_as_it_was(rt: HostRuntime) -> Result<(), Fail> {
    let graph = ring(rt.alloc())?;
    let mut board = opened(rt.alloc(), &graph, &cars())?;
    check_look(&rt, rt.alloc(), &graph, &mut board)
}

/// Whether a value may be sent to other threads and looked at by them: a type that may not doesn't compile.
fn crosses_threads<T: Send + Sync>(_value: &T) {}

#[test]
fn boards_and_fleets_cross_threads(rt: HostRuntime) -> Result<(), Fail> {
    let graph = ring(rt.alloc())?;
    let board = opened(rt.alloc(), &graph, &cars())?;
    let look = board.fleet().share(rt.alloc())?;
    crosses_threads(&board);
    crosses_threads(&look);
    Ok(())
}
