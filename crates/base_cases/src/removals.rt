ghost use Rattle.std.specs.Prelude.{◌≡◌, ◌<◌, length, IfOk, IsTrue};
ghost use Rattle.stop_schedule.specs.Bounds.{AreShortLegs, AreSmallStops, IsSmallStop};

use crate::cities::{FOUR, ONE, THREE, TWO, walk};
use crate::plans::{front, opened};
use crate::schedules::are_short;
use ride_base::{NoMemory, RequestNo, VehicleNo};
use road_graph::{NodeNo, Walk};
use std::alloc::Global;
use std::process::Abort;
use std::test::Fail;
use std::thread::Threads;
use stop_removal::{Joins, Removal, joints, removed};
use stop_schedule::{
    END_OF_TIME, Front, LATEST_FRONT, LATEST_MOMENT, MOST_RIDERS, MOST_STOPS, Schedule, Stop,
    StopKind,
};

/// A stop of one rider.
fn stop(number: u64, kind: StopKind, node: NodeNo, limit: u64) -> Stop {
    Stop {
        node,
        kind,
        no: RequestNo(number),
        riders: 1,
        ready: 0,
        limit,
        spaces: 0,
    }
}

/// Whether the numbers of a stop are small enough for a schedule.
fn is_small(stop: &Stop) -> bool
    ensures { IsTrue result → IsSmallStop stop.now }
{
    stop.ready <= LATEST_MOMENT
        && stop.limit < END_OF_TIME
        && stop.riders <= MOST_RIDERS
        && stop.spaces <= MOST_RIDERS
}

/// Whether those of each stop are.
fn are_small(stops: &[Stop]) -> bool
    ensures { IsTrue result → AreSmallStops stops.now }
{
    for stop in stops {
        if !is_small(stop) {
            return false;
        }
    }
    true
}

/// The schedule of a vehicle of two seats that leaves a node then for these stops, over these walks.
fn plan(
    alloc: Global,
    node: NodeNo,
    departure: u64,
    stops: &[Stop],
    legs: &[Walk],
) -> Result<Schedule, Fail> {
    if stops.len() > MOST_STOPS || legs.len() != stops.len() || departure > LATEST_FRONT {
        return Err("no schedule".into());
    }
    if !are_small(stops) || !are_short(legs) {
        return Err("large numbers".into());
    }
    let opened = opened(alloc, 2, 0);
    Ok(Schedule::from_parts(alloc, &opened, node, departure, false, stops, legs)?)
}

/// The first rider from node 2 to node 4, and the second from node 3 to node 4, who gets off first.
fn both_on<R: Threads>(rt: &R, alloc: Global) -> Result<Schedule, Fail> {
    let stops = [
        stop(1, StopKind::Pickup, TWO, 20),
        stop(2, StopKind::Pickup, THREE, 24),
        stop(2, StopKind::Dropoff, FOUR, 36),
        stop(1, StopKind::Dropoff, FOUR, 50),
    ];
    let legs = [
        walk(rt, alloc, &[ONE, TWO])?,
        walk(rt, alloc, &[TWO, THREE])?,
        walk(rt, alloc, &[THREE, FOUR])?,
        walk(rt, alloc, &[FOUR])?,
    ];
    plan(alloc, ONE, 0, &stops, &legs)
}

/// The first rider alone.
fn first_alone<R: Threads>(rt: &R, alloc: Global) -> Result<Schedule, Fail> {
    let stops = [
        stop(1, StopKind::Pickup, TWO, 20),
        stop(1, StopKind::Dropoff, FOUR, 50),
    ];
    let legs = [
        walk(rt, alloc, &[ONE, TWO])?,
        walk(rt, alloc, &[TWO, THREE, FOUR])?,
    ];
    plan(alloc, ONE, 0, &stops, &legs)
}

/// The second rider alone, to whom the vehicle drives at once.
fn second_alone<R: Threads>(rt: &R, alloc: Global) -> Result<Schedule, Fail> {
    let stops = [
        stop(2, StopKind::Pickup, THREE, 24),
        stop(2, StopKind::Dropoff, FOUR, 36),
    ];
    let legs = [
        walk(rt, alloc, &[ONE, TWO, THREE])?,
        walk(rt, alloc, &[THREE, FOUR])?,
    ];
    plan(alloc, ONE, 0, &stops, &legs)
}

/// The one walk of a joined leg.
fn joined(alloc: Global, walk: Walk) -> Joins {
    let mut walks = Joins::new(alloc);
    walks.push(walk);
    walks
}

/// The ends of the joined legs, where the positions are ones of a removal.
fn ends_of(
    schedule: &Schedule,
    front: &Front,
    pickup: usize,
    dropoff: usize,
) -> Option<[Option<(NodeNo, NodeNo)>; 2]> {
    if pickup == 0 || dropoff <= pickup || dropoff > schedule.stops().len() {
        return None;
    }
    Some(joints(schedule, front, pickup, dropoff))
}

/// What is left, where the positions and the walks are those of a removal.
fn without(
    alloc: Global,
    schedule: &Schedule,
    front: &Front,
    pickup: usize,
    dropoff: usize,
    walks: &Joins,
) -> Result<Schedule, Fail> {
    if pickup == 0 || dropoff <= pickup || dropoff > schedule.stops().len() {
        return Err("other positions".into());
    }
    let many = match joints(schedule, front, pickup, dropoff) {
        [None, None] => 0,
        [Some(_), Some(_)] => 2,
        _ => 1,
    };
    if walks.as_slice().len() != many || front.time > LATEST_FRONT {
        return Err("other walks".into());
    }
    if !are_short(walks.as_slice()) {
        return Err("long walks".into());
    }
    Ok(removed(alloc, schedule, front, pickup, dropoff, walks)?)
}

fn check_ends(rt: &impl Abort, schedule: &Schedule) {
    let waits = front(ONE, 0, 0);
    assert_eq!(rt;
        ends_of(schedule, &waits, 1, 4),
        Some([Some((ONE, THREE)), None])
    );
    assert_eq!(rt;
        ends_of(schedule, &waits, 2, 3),
        Some([Some((TWO, FOUR)), None])
    );
    let turns = front(TWO, 10, 10);
    assert_eq!(rt;
        ends_of(schedule, &turns, 1, 4),
        Some([Some((TWO, THREE)), None])
    );
}

#[test]
fn the_next_stop_is_joined(rt: HostRuntime) -> Result<(), Fail> {
    check_ends(&rt, &both_on(&rt, rt.alloc())?);
    Ok(())
}

fn leaves(
    alloc: Global,
    schedule: &Schedule,
    front: &Front,
    pickup: usize,
    dropoff: usize,
    walks: &Joins,
    rest: &Schedule,
) -> Result<bool, Fail> {
    Ok(without(alloc, schedule, front, pickup, dropoff, walks)? == *rest)
}

#[test]
fn the_first_rider_cancels(rt: HostRuntime) -> Result<(), Fail> {
    let alloc = rt.alloc();
    let walks = joined(alloc, walk(&rt, alloc, &[ONE, TWO, THREE])?);
    let rest = second_alone(&rt, alloc)?;
    assert!(rt;
        leaves(
            alloc,
            &both_on(&rt, alloc)?,
            &front(ONE, 0, 0),
            1,
            4,
            &walks,
            &rest
        )?
    );
    Ok(())
}

#[test]
fn the_second_rider_cancels(rt: HostRuntime) -> Result<(), Fail> {
    let alloc = rt.alloc();
    let walks = joined(alloc, walk(&rt, alloc, &[TWO, THREE, FOUR])?);
    let rest = first_alone(&rt, alloc)?;
    assert!(rt;
        leaves(
            alloc,
            &both_on(&rt, alloc)?,
            &front(TWO, 10, 10),
            2,
            3,
            &walks,
            &rest
        )?
    );
    Ok(())
}

/// Under way at 5 the only rider cancels, and the vehicle is free at node 2.
#[test]
fn the_only_rider_cancels(rt: HostRuntime) -> Result<(), Fail> {
    let alloc = rt.alloc();
    let rest = plan(alloc, TWO, 10, &[], &[])?;
    assert!(rt;
        leaves(
            alloc,
            &first_alone(&rt, alloc)?,
            &front(TWO, 10, 10),
            1,
            2,
            &Joins::new(alloc),
            &rest
        )?
    );
    Ok(())
}

fn is_shared(alloc: Global, removal: &Removal) -> Result<bool, NoMemory> {
    let same = removal.share(alloc)?;
    let walks = removal.walks.share(alloc)?;
    Ok(same == *removal && walks == removal.walks && walks.as_slice().len() == 1)
}

#[test]
fn a_removal_is_shared(rt: HostRuntime) -> Result<(), Fail> {
    let alloc = rt.alloc();
    let removal = Removal {
        no: VehicleNo(1),
        pickup: 1,
        dropoff: 4,
        walks: joined(alloc, walk(&rt, alloc, &[ONE, TWO, THREE])?),
    };
    assert!(rt; is_shared(alloc, &removal)?);
    Ok(())
}
