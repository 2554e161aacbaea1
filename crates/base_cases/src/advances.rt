ghost use Rattle.std.specs.Prelude.{◌≡◌, true, IfOk};
ghost use Rattle.road_graph.specs.Paths.{length_of};
ghost use Rattle.stop_schedule.specs.Keeping.{keeps};
ghost use Rattle.stop_schedule.specs.Rates.{usual};

use crate::cities::{FOUR, ONE, THREE, TWO, walk};
use crate::plans::opened;
use ride_base::{NoMemory, RequestNo};
use road_graph::{NodeNo, Walk};
use std::alloc::Global;
use std::process::Abort;
use std::test::Fail;
use std::thread::Threads;
use stop_advance::{Served, advanced, reaches};
use stop_schedule::{Params, Schedule, Stop, StopKind};

/// A stop of one rider, number 1.
fn stop(kind: StopKind, node: NodeNo, limit: u64) -> Stop
    ensures { result ≡ record {
      node = node;
      kind = kind;
      no = record { 0 = 1 };
      riders = 1;
      ready = 0;
      limit = limit;
      spaces = 0;
    } }
{
    Stop {
        node,
        kind,
        no: RequestNo(1),
        riders: 1,
        ready: 0,
        limit,
        spaces: 0,
    }
}

/// The walk, where it is so long.
fn so_long(walk: Walk, length: u64) -> Result<Walk, Fail>
    ensures { IfOk result (λ w. length_of w ≡ length) }
{
    if walk.length() == length {
        Ok(walk)
    } else {
        Err("another length".into())
    }
}

/// The schedule of a vehicle that leaves node 1 at 0 for a rider at node 2, and drives him to node 4.
fn to_a_rider(alloc: Global, like: &Schedule, into: Walk, out: Walk) -> Result<Schedule, NoMemory>
    requires seats { like.now.seats ≡ 2 }
    requires spaces { like.now.spaces ≡ 1 }
    requires until { like.now.until ≡ 1000 }
    requires into { length_of into ≡ 10 }
    requires out { length_of out ≡ 20 }
    ensures { IfOk result (λ s. keeps usual s ≡ true) }
{
    let stops = [
        stop(StopKind::Pickup, TWO, 20),
        stop(StopKind::Dropoff, FOUR, 50),
    ];
    let legs = [into, out];
    Schedule::from_parts(alloc, like, ONE, 0, false, &stops, &legs)
}

fn begun<R: Threads>(rt: &R, alloc: Global) -> Result<Schedule, Fail>
    ensures { IfOk result (λ s. keeps usual s ≡ true) }
{
    let into = so_long(walk(rt, alloc, &[ONE, TWO])?, 10)?;
    let out = so_long(walk(rt, alloc, &[TWO, THREE, FOUR])?, 20)?;
    Ok(to_a_rider(alloc, &opened(alloc, 2, 0), into, out)?)
}

/// Whether a schedule starts there, at this time, and drives to so many stops, of which the first is at this node.
fn drives_on(schedule: &Schedule, place: NodeNo, departure: u64, nodes: &[NodeNo]) -> bool {
    let stops = schedule.stops();
    if stops.len() != nodes.len() || schedule.legs().len() != nodes.len() {
        return false;
    }
    for k in 0..stops.len() {
        if stops[k].node != nodes[k] {
            return false;
        }
    }
    schedule.place() == place && schedule.departure() == departure
}

#[test]
fn a_schedule_has_its_parts(rt: HostRuntime) -> Result<(), Fail> {
    let schedule = begun(&rt, rt.alloc())?;
    assert!(rt; drives_on(&schedule, ONE, 0, &[TWO, FOUR]));
    assert!(rt; !schedule.halt());
    Ok(())
}

#[test]
fn a_stop_is_reached_at_its_arrival(rt: HostRuntime) -> Result<(), Fail> {
    let schedule = begun(&rt, rt.alloc())?;
    assert!(rt; !reaches(&schedule, &Params::usual(), 9));
    assert!(rt; reaches(&schedule, &Params::usual(), 10));
    Ok(())
}

/// The pickup, which is reached at 10 and left at 12, and the dropoff, which is reached at 32.
fn both() -> [Served; 2] {
    [
        Served {
            kind: StopKind::Pickup,
            no: RequestNo(1),
            node: TWO,
            arr: 10,
            dep: 12,
        },
        Served {
            kind: StopKind::Dropoff,
            no: RequestNo(1),
            node: FOUR,
            arr: 32,
            dep: 34,
        },
    ]
}

/// Whether these are the first of the stops above, and so many.
fn are_first(served: &[Served], count: usize) -> bool {
    let all = both();
    if count > 2 || served.len() != count {
        return false;
    }
    for k in 0..count {
        if served[k] != all[k] {
            return false;
        }
    }
    true
}

/// Whether at a clock so many stops are served and the vehicle drives on from there.
fn advances(
    alloc: Global,
    schedule: &Schedule,
    now: u64,
    count: usize,
    place: NodeNo,
    departure: u64,
    nodes: &[NodeNo],
) -> Result<bool, NoMemory>
    requires { keeps usual schedule.now ≡ true }
{
    let (left, served) = advanced(alloc, schedule, &Params::usual(), now)?;
    let halts = left.halt() == (count > 0);
    Ok(halts && are_first(served.as_slice(), count) && drives_on(&left, place, departure, nodes))
}

fn check_advanced(rt: &impl Abort, alloc: Global, schedule: &Schedule) -> Result<(), Fail>
    requires { keeps usual schedule.now ≡ true }
{
    assert!(rt; advances(alloc, schedule, 5, 0, ONE, 0, &[TWO, FOUR])?);
    assert!(rt; advances(alloc, schedule, 12, 1, TWO, 12, &[FOUR])?);
    assert!(rt; advances(alloc, schedule, 40, 2, FOUR, 34, &[])?);
    Ok(())
}

#[test]
fn reached_stops_are_served(rt: HostRuntime) -> Result<(), Fail> {
    let schedule = begun(&rt, rt.alloc())?;
    check_advanced(&rt, rt.alloc(), &schedule)
}
