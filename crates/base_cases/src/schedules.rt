ghost use Rattle.std.specs.Prelude.{◌≡◌, ◌<◌, ◌≤◌, ◌^◌, [], length, IfOk, IsTrue};
ghost use Rattle.stop_schedule.specs.Bounds.{AreShortLegs};
ghost use Rattle.stop_schedule.specs.Limits.{latest_front, latest_moment};
ghost use Rattle.stop_schedule.specs.Lists.{IsInsertionInto};

use crate::cities::{FOUR, ONE, THREE, TWO, walk};
use crate::plans::{at, first, first_in_a_space, front, opened, promised, ride};
use ride_base::NoMemory;
use road_graph::{NodeNo, Walk};
use std::alloc::Global;
use std::process::Abort;
use std::test::Fail;
use std::thread::Threads;
use stop_schedule::{Insertion, NewWalks, Params, Schedule};

/// Whether the stops are at these nodes, are reached at these times, and so many are aboard on seats on the legs to them.
fn runs(schedule: &Schedule, nodes: &[NodeNo], times: &[u64], riders: &[u32]) -> bool {
    let stops = schedule.stops();
    let count = stops.len();
    if nodes.len() != count || times.len() != count || riders.len() != count {
        return false;
    }
    let params = Params::usual();
    for k in 0..count {
        if stops[k].node != nodes[k] || schedule.arr(&params, k + 1) != times[k] {
            return false;
        }
        if schedule.aboard(k) != riders[k] {
            return false;
        }
    }
    true
}

/// Whether so many are aboard in wheelchair spaces on the legs to the stops.
fn carries(schedule: &Schedule, spaces: &[u32]) -> bool {
    let count = schedule.stops().len();
    if spaces.len() != count {
        return false;
    }
    for k in 0..count {
        if schedule.aboard_spaces(k) != spaces[k] {
            return false;
        }
    }
    true
}

/// Whether the last stop is left at this time.
fn ends(schedule: &Schedule, time: u64) -> bool {
    schedule.dep(&Params::usual(), schedule.stops().len()) == time
}

/// Whether each walk is short enough for a schedule.
pub fn are_short(walks: &[Walk]) -> bool
    ensures { IsTrue result → AreShortLegs walks.now }
{
    for walk in walks {
        if walk.length() >= 1 << 53 {
            return false;
        }
    }
    true
}

/// Whether the walks are as long as this.
fn are_long(walks: &[Walk], lengths: &[u64]) -> bool {
    if walks.len() != lengths.len() {
        return false;
    }
    for (walk, length) in walks.iter().zip(lengths) {
        if walk.length() != *length {
            return false;
        }
    }
    true
}

/// The schedule of the first request with a second, from node 3 to 4, over these walks.
fn with_second(
    alloc: Global,
    schedule: &Schedule,
    at: Insertion,
    walks: &NewWalks,
) -> Result<Schedule, Fail>
    requires two { length schedule.now.stops ≡ 2 }
    requires insertion { IsInsertionInto at 2 }
{
    let into = if at.i == at.j { 2 } else { 3 };
    let changed = if at.j < 2 { into + 1 } else { into };
    if walks.as_slice().len() != changed || !are_short(walks.as_slice()) {
        return Err("other walks".into());
    }
    let request = ride(2, THREE, FOUR, 0);
    Ok(schedule.inserted(alloc, &front(ONE, 0, 0), &request, at, &promised(), walks)?)
}

/// The schedule of both requests.
fn second<R: Threads>(
    rt: &R,
    alloc: Global,
    at: Insertion,
    walks: &NewWalks,
) -> Result<Schedule, Fail>
    requires insertion { IsInsertionInto at 2 }
{
    let first = first(rt, alloc, 2, 0)?;
    with_second(alloc, &first, at, walks)
}

/// The walks over these lists of nodes.
fn walks_over<R: Threads>(rt: &R, alloc: Global, lists: &[&[NodeNo]]) -> Result<NewWalks, Fail> {
    let mut walks = NewWalks::new(alloc);
    for nodes in lists {
        if nodes.len() <= 4 && walks.as_slice().len() < 4 {
            walks.push(walk(rt, alloc, nodes)?);
        }
    }
    Ok(walks)
}

/// Whether the schedule of both requests, the second put in over these walks, runs so and ends at this time.
fn both_run<R: Threads>(
    rt: &R,
    alloc: Global,
    at: Insertion,
    lists: &[&[NodeNo]],
    nodes: &[NodeNo],
    times: &[u64],
    riders: &[u32],
    end: u64,
) -> Result<bool, Fail>
    requires insertion { IsInsertionInto at 2 }
{
    let walks = walks_over(rt, alloc, lists)?;
    let schedule = second(rt, alloc, at, &walks)?;
    Ok(runs(&schedule, nodes, times, riders) && ends(&schedule, end))
}

fn check_first(rt: &impl Abort, schedule: &Schedule) {
    assert!(rt; runs(schedule, &[TWO, FOUR], &[10, 32], &[0, 1]));
    assert!(rt; carries(schedule, &[0, 0]));
    assert!(rt; ends(schedule, 34));
    assert_eq!(rt; schedule.dep(&Params::usual(), 0), 0);
    assert_eq!(rt; schedule.seats(), 2);
    assert_eq!(rt; schedule.until(), 1000);
    assert_eq!(rt; schedule.spaces(), 1);
    assert_eq!(rt; schedule.place(), ONE);
    assert!(rt; !schedule.halt());
}

#[test]
fn a_ride_is_put_in(rt: HostRuntime) -> Result<(), Fail> {
    check_first(&rt, &first(&rt, rt.alloc(), 2, 0)?);
    Ok(())
}

fn check_in_a_space(rt: &impl Abort, schedule: &Schedule) {
    assert!(rt; runs(schedule, &[TWO, FOUR], &[10, 32], &[0, 0]));
    assert!(rt; carries(schedule, &[0, 1]));
}

#[test]
fn a_ride_in_a_space_is_put_in(rt: HostRuntime) -> Result<(), Fail> {
    check_in_a_space(&rt, &first_in_a_space(&rt, rt.alloc(), 2)?);
    Ok(())
}

#[test]
fn a_rider_is_waited_for(rt: HostRuntime) -> Result<(), Fail> {
    let later = first(&rt, rt.alloc(), 2, 100)?;
    assert!(rt; runs(&later, &[TWO, FOUR], &[10, 120], &[0, 1]));
    Ok(())
}

fn is_shared(alloc: Global, schedule: &Schedule) -> Result<bool, NoMemory> {
    Ok(schedule.share(alloc)? == *schedule)
}

#[test]
fn schedules_are_shared(rt: HostRuntime) -> Result<(), Fail> {
    let schedule = first(&rt, rt.alloc(), 2, 0)?;
    assert!(rt; is_shared(rt.alloc(), &schedule)?);
    Ok(())
}

/// Whether a schedule is that of the first request at this moment.
fn is_first<R: Threads>(
    rt: &R,
    alloc: Global,
    schedule: &Schedule,
    moment: u64,
) -> Result<bool, Fail>
    requires { moment ≤ latest_moment }
{
    Ok(first(rt, alloc, 2, moment)? == *schedule)
}

#[test]
fn schedules_are_compared(rt: HostRuntime) -> Result<(), Fail> {
    let schedule = first(&rt, rt.alloc(), 2, 0)?;
    assert!(rt; is_first(&rt, rt.alloc(), &schedule, 0)?);
    assert!(rt; !is_first(&rt, rt.alloc(), &schedule, 100)?);
    Ok(())
}

#[test]
fn both_between_two_stops(rt: HostRuntime) -> Result<(), Fail> {
    let walks: [&[NodeNo]; 3] = [&[TWO, THREE], &[THREE, FOUR], &[FOUR]];
    let nodes = [TWO, THREE, FOUR, FOUR];
    let times = [10, 22, 34, 36];
    assert!(rt;
        both_run(
            &rt,
            rt.alloc(),
            at(1, 1),
            &walks,
            &nodes,
            &times,
            &[0, 1, 2, 1],
            36
        )?
    );
    Ok(())
}

#[test]
fn both_behind_the_last_stop(rt: HostRuntime) -> Result<(), Fail> {
    let walks: [&[NodeNo]; 2] = [&[FOUR, THREE], &[THREE, FOUR]];
    let nodes = [TWO, FOUR, THREE, FOUR];
    let times = [10, 32, 44, 56];
    assert!(rt;
        both_run(
            &rt,
            rt.alloc(),
            at(2, 2),
            &walks,
            &nodes,
            &times,
            &[0, 1, 0, 1],
            58
        )?
    );
    Ok(())
}

#[test]
fn around_the_first_stop(rt: HostRuntime) -> Result<(), Fail> {
    let walks: [&[NodeNo]; 4] = [
        &[ONE, TWO, THREE],
        &[THREE, TWO],
        &[TWO, THREE, FOUR],
        &[FOUR],
    ];
    let nodes = [THREE, TWO, FOUR, FOUR];
    let times = [20, 32, 54, 56];
    assert!(rt;
        both_run(
            &rt,
            rt.alloc(),
            at(0, 1),
            &walks,
            &nodes,
            &times,
            &[0, 1, 2, 1],
            56
        )?
    );
    Ok(())
}

#[test]
fn around_both_stops(rt: HostRuntime) -> Result<(), Fail> {
    let walks: [&[NodeNo]; 3] = [&[ONE, TWO, THREE], &[THREE, TWO], &[FOUR]];
    let nodes = [THREE, TWO, FOUR, FOUR];
    let times = [20, 32, 54, 56];
    assert!(rt;
        both_run(
            &rt,
            rt.alloc(),
            at(0, 2),
            &walks,
            &nodes,
            &times,
            &[0, 1, 2, 1],
            56
        )?
    );
    Ok(())
}

/// The schedule of a vehicle that halts at node 4, from which it leaves at 34.
fn halting(alloc: Global, like: &Schedule) -> Result<Schedule, NoMemory>
    ensures { IfOk result (λ s. s.stops ≡ []) }
{
    Schedule::from_parts(alloc, like, FOUR, 34, true, &[], &[])
}

/// The walks to a rider at node 4 and on to node 3.
fn walks_on<R: Threads>(rt: &R, alloc: Global) -> Result<NewWalks, Fail>
    ensures two { IfOk result (λ walks. length walks ≡ 2) }
    ensures short { IfOk result AreShortLegs }
{
    let mut walks = NewWalks::new(alloc);
    walks.push(walk(rt, alloc, &[FOUR])?);
    walks.push(walk(rt, alloc, &[FOUR, THREE])?);
    Ok(walks)
}

/// When it leaves a rider's pickup at node 4, where it can turn to it at this time; none at want of memory.
fn leaves_again(alloc: Global, schedule: &Schedule, walks: &NewWalks, time: u64) -> Option<u64>
    requires none { schedule.now.stops ≡ [] }
    requires two { length walks.now ≡ 2 }
    requires short { AreShortLegs walks.now }
    requires time { time ≤ latest_front }
{
    let request = ride(3, FOUR, THREE, 0);
    let with_ride = schedule.inserted(
        alloc,
        &front(FOUR, time, 0),
        &request,
        at(0, 0),
        &promised(),
        walks,
    );
    left_first(&with_ride.ok()?)
}

/// When the first stop is left, where there is one.
fn left_first(schedule: &Schedule) -> Option<u64> {
    if schedule.stops().is_empty() {
        return None;
    }
    Some(schedule.dep(&Params::usual(), 1))
}

fn check_left(rt: &impl Abort, alloc: Global, schedule: &Schedule, walks: &NewWalks)
    requires none { schedule.now.stops ≡ [] }
    requires two { length walks.now ≡ 2 }
    requires short { AreShortLegs walks.now }
{
    assert_eq!(rt; leaves_again(alloc, schedule, walks, 34), Some(34));
    assert_eq!(rt; leaves_again(alloc, schedule, walks, 40), Some(42));
}

fn check_halt(rt: &impl Abort, alloc: Global, walks: &NewWalks) -> Result<(), Fail>
    requires two { length walks.now ≡ 2 }
    requires short { AreShortLegs walks.now }
{
    let schedule = halting(alloc, &opened(alloc, 2, 0))?;
    check_left(rt, alloc, &schedule, walks);
    Ok(())
}

#[test]
fn a_stop_where_the_vehicle_halts_takes_no_time(rt: HostRuntime) -> Result<(), Fail> {
    check_halt(&rt, rt.alloc(), &walks_on(&rt, rt.alloc())?)
}

/// Whether walks are so long, and equal walks are equal.
fn are_kept(alloc: Global, walks: &NewWalks, lengths: &[u64]) -> Result<bool, NoMemory> {
    Ok(walks.share(alloc)? == *walks && are_long(walks.as_slice(), lengths))
}

#[test]
fn walks_are_kept_in_order(rt: HostRuntime) -> Result<(), Fail> {
    let lists: [&[NodeNo]; 4] = [&[ONE, TWO], &[TWO], &[TWO, THREE, FOUR], &[FOUR]];
    let walks = walks_over(&rt, rt.alloc(), &lists)?;
    assert!(rt; are_kept(rt.alloc(), &walks, &[10, 0, 20, 0])?);
    Ok(())
}

#[test]
fn fewer_walks_are_others(rt: HostRuntime) -> Result<(), Fail> {
    let walks = walks_over(&rt, rt.alloc(), &[&[ONE, TWO]])?;
    assert!(rt; walks != NewWalks::new(rt.alloc()));
    Ok(())
}

/// Parameters with these ranges of trips, which weigh nothing.
fn trips(largest: u64, trip_num: u64, trip_den: u64) -> Option<Params> {
    Params::new(0, largest, trip_num, trip_den, 0, 0, 0)
}

#[test]
fn usual_parameters_are_known(rt: HostRuntime) {
    assert_eq!(rt; Params::new(2, 20, 2, 1, 10, 1, 1), Some(Params::usual()));
}

#[test]
fn parameters_are_in_range(rt: HostRuntime) {
    assert!(rt; trips(65_536, 16, 1).is_some());
    assert!(rt; trips(0, 17, 1).is_none());
    assert!(rt; trips(65_537, 1, 1).is_none());
    assert!(rt; trips(0, 1, 0).is_none());
}

/// The limit of a trip with the largest parameters.
fn largest_limit(direct: u64) -> Option<u64>
    requires { direct < 2 ^ 53 }
{
    let params = Params::new(65_536, 65_536, 65_536, 4_096, 65_536, 65_536, 65_536)?;
    Some(params.trip_limit(direct))
}

#[test]
fn trips_are_limited(rt: HostRuntime) {
    assert_eq!(rt; Params::usual().trip_limit(20), 50);
    assert_eq!(rt; largest_limit(1), Some(65_552));
}
