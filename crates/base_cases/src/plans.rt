ghost use Rattle.std.specs.Prelude.{◌≡◌, ◌≤◌, [], length, IfOk};
ghost use Rattle.stop_schedule.specs.Bounds.{AreShortLegs};
ghost use Rattle.stop_schedule.specs.Limits.{latest_moment, most_riders};

use crate::cities::{FOUR, ONE, THREE, TWO, walk};
use ride_base::{RequestNo, VehicleNo};
use road_graph::NodeNo;
use std::alloc::Global;
use std::test::Fail;
use std::thread::Threads;
use stop_schedule::{Front, Insertion, NewWalks, Promise, Request, Schedule, Vehicle};

/// A vehicle at node 1 with no stop yet, and with one wheelchair space.
pub fn opened(alloc: Global, seats: u32, from: u64) -> Schedule
    requires { from ≤ latest_moment }
    ensures none { result.stops ≡ [] }
    ensures seats { result.seats ≡ seats }
    ensures spaces { result.spaces ≡ 1 }
    ensures until { result.until ≡ 1000 }
{
    let vehicle = Vehicle {
        no: VehicleNo(1),
        start: ONE,
        seats,
        from,
        until: 1000,
        spaces: 1,
    };
    Schedule::opening(alloc, &vehicle)
}

/// A ride of one rider.
pub fn ride(number: u64, pickup: NodeNo, dropoff: NodeNo, moment: u64) -> Request
    ensures moment { result.moment ≡ moment }
    ensures riders { result.riders ≡ 1 }
    ensures spaces { result.spaces ≡ 0 }
{
    Request {
        no: RequestNo(number),
        pickup,
        dropoff,
        moment,
        riders: 1,
        spaces: 0,
    }
}

/// A ride of so many riders in wheelchair spaces.
pub fn ride_in_spaces(number: u64, pickup: NodeNo, dropoff: NodeNo, spaces: u32) -> Request
    ensures moment { result.moment ≡ 0 }
    ensures riders { result.riders ≡ 0 }
    ensures spaces { result.spaces ≡ spaces }
{
    Request {
        no: RequestNo(number),
        pickup,
        dropoff,
        moment: 0,
        riders: 0,
        spaces,
    }
}

pub fn front(node: NodeNo, time: u64, offset: u64) -> Front
    ensures time { result.time ≡ time }
    ensures offset { result.offset ≡ offset }
{
    Front { node, time, offset }
}

pub fn at(i: usize, j: usize) -> Insertion
    ensures { result ≡ record { i = i; j = j } }
{
    Insertion { i, j }
}

/// The walks of the first request: from node 1 to 2, and from there by 3 to 4.
pub fn first_walks<R: Threads>(rt: &R, alloc: Global) -> Result<NewWalks, Fail>
    ensures two { IfOk result (λ l. length l ≡ 2) }
    ensures short { IfOk result AreShortLegs }
{
    let mut walks = NewWalks::new(alloc);
    walks.push(walk(rt, alloc, &[ONE, TWO])?);
    walks.push(walk(rt, alloc, &[TWO, THREE, FOUR])?);
    Ok(walks)
}

/// The limits that are promised to it.
pub fn promised() -> Promise
    ensures pickup { result.pickup ≡ 20 }
    ensures arrival { result.arrival ≡ 50 }
{
    Promise {
        pickup: 20,
        arrival: 50,
    }
}

/// The schedule with no stop yet that takes a request over these walks.
fn with_ride(
    alloc: Global,
    opened: &Schedule,
    request: &Request,
    walks: &NewWalks,
) -> Result<Schedule, Fail>
    requires none { opened.now.stops ≡ [] }
    requires moment { request.now.moment ≤ latest_moment }
    requires riders { request.now.riders ≤ most_riders }
    requires spaces { request.now.spaces ≤ most_riders }
    requires two { length walks.now ≡ 2 }
    requires short { AreShortLegs walks.now }
    ensures { IfOk result (λ s. length s.stops ≡ 2) }
{
    Ok(opened.inserted(
        alloc,
        &front(ONE, 0, 0),
        request,
        at(0, 0),
        &promised(),
        walks,
    )?)
}

/// The schedule of a vehicle that takes a first request from node 2 to 4.
pub fn first<R: Threads>(rt: &R, alloc: Global, seats: u32, moment: u64) -> Result<Schedule, Fail>
    requires { moment ≤ latest_moment }
    ensures { IfOk result (λ s. length s.stops ≡ 2) }
{
    let walks = first_walks(rt, alloc)?;
    let request = ride(1, TWO, FOUR, moment);
    with_ride(alloc, &opened(alloc, seats, 0), &request, &walks)
}

/// The same of a first rider in a wheelchair space.
pub fn first_in_a_space<R: Threads>(rt: &R, alloc: Global, seats: u32) -> Result<Schedule, Fail>
    ensures { IfOk result (λ s. length s.stops ≡ 2) }
{
    let walks = first_walks(rt, alloc)?;
    let request = ride_in_spaces(1, TWO, FOUR, 1);
    with_ride(alloc, &opened(alloc, seats, 0), &request, &walks)
}
