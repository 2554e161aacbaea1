use crate::cities::{FOUR, ONE, TWO};
use crate::plans::{first, front, opened};
use leeway::{latest, slack};
use ride_base::NoMemory;
use std::alloc::Global;
use std::test::Fail;
use stop_schedule::{END_OF_TIME, FleetIndex, Front, NoIndex, Params, Schedule};

/// Whether the schedule keeps where it reaches stop i then; none where there is no such stop or time.
fn keeps(schedule: &Schedule, i: usize, arrival: u64) -> Option<bool> {
    if i == 0 || i > schedule.stops().len() || arrival >= END_OF_TIME {
        return None;
    }
    Some(schedule.keeps(&Params::usual(), i, arrival))
}

/// The same where it leaves that stop then.
fn keeps_leaving(schedule: &Schedule, i: usize, departure: u64) -> Option<bool> {
    if i == 0 || i > schedule.stops().len() || departure >= END_OF_TIME {
        return None;
    }
    Some(schedule.keeps_leaving(&Params::usual(), i, departure))
}

/// The latest arrival at stop i, and the slack of the leg to it.
fn leeway(schedule: &Schedule, i: usize) -> Option<(u64, u64)> {
    if i == 0 || i > schedule.stops().len() {
        return None;
    }
    let params = Params::usual();
    Some((
        latest(schedule, &params, i),
        slack(schedule, &params, i - 1),
    ))
}

/// The front at a clock; none where the next stop is reached before it.
fn front_at(schedule: &Schedule, now: u64) -> Option<Front> {
    if !schedule.stops().is_empty() && schedule.arr(&Params::usual(), 1) < now {
        return None;
    }
    Some(schedule.front(now))
}

#[test]
fn promises_are_kept_up_to_the_latest_arrival(rt: HostRuntime) -> Result<(), Fail> {
    let schedule = first(&rt, rt.alloc(), 2, 0)?;
    assert_eq!(rt; keeps(&schedule, 1, 18), Some(true));
    assert_eq!(rt; keeps(&schedule, 1, 19), Some(false));
    assert_eq!(rt; keeps(&schedule, 2, 50), Some(true));
    assert_eq!(rt; keeps(&schedule, 2, 51), Some(false));
    Ok(())
}

#[test]
fn and_up_to_the_latest_departure(rt: HostRuntime) -> Result<(), Fail> {
    let schedule = first(&rt, rt.alloc(), 2, 0)?;
    assert_eq!(rt; keeps_leaving(&schedule, 1, 20), Some(true));
    assert_eq!(rt; keeps_leaving(&schedule, 1, 21), Some(false));
    assert_eq!(rt; keeps_leaving(&schedule, 2, 1000), Some(true));
    assert_eq!(rt; keeps_leaving(&schedule, 2, 1001), Some(false));
    Ok(())
}

#[test]
fn leeways_of_two_stops(rt: HostRuntime) -> Result<(), Fail> {
    let schedule = first(&rt, rt.alloc(), 2, 0)?;
    assert_eq!(rt; leeway(&schedule, 1), Some((18, 18)));
    assert_eq!(rt; leeway(&schedule, 2), Some((50, 38)));
    Ok(())
}

#[test]
fn fronts_of_a_waiting_vehicle(rt: HostRuntime) {
    let waiting = opened(rt.alloc(), 2, 7);
    assert_eq!(rt; front_at(&waiting, 5), Some(front(ONE, 7, 0)));
    assert_eq!(rt; front_at(&waiting, 9), Some(front(ONE, 9, 0)));
}

#[test]
fn fronts_under_way(rt: HostRuntime) -> Result<(), Fail> {
    let schedule = first(&rt, rt.alloc(), 2, 0)?;
    assert_eq!(rt; front_at(&schedule, 0), Some(front(ONE, 0, 0)));
    assert_eq!(rt; front_at(&schedule, 1), Some(front(TWO, 10, 10)));
    assert_eq!(rt; front_at(&schedule, 10), Some(front(TWO, 10, 10)));
    assert_eq!(rt; front_at(&schedule, 11), None);
    Ok(())
}

/// The schedule of these seats that stopped at a node and has no stop left.
fn stopped(alloc: Global, like: &Schedule) -> Result<Schedule, NoMemory> {
    Schedule::from_parts(alloc, like, FOUR, 34, true, &[], &[])
}

#[test]
fn a_schedule_of_its_parts(rt: HostRuntime) -> Result<(), Fail> {
    let schedule = stopped(rt.alloc(), &opened(rt.alloc(), 3, 0))?;
    assert_eq!(rt; (schedule.place(), schedule.departure()), (FOUR, 34));
    assert_eq!(rt; (schedule.seats(), schedule.spaces()), (3, 1));
    assert_eq!(rt; schedule.until(), 1000);
    assert!(rt; schedule.halt());
    Ok(())
}

/// Whether an equal index is given.
fn is_shared<I: FleetIndex + PartialEq + Drop>(alloc: Global, index: &I) -> Result<bool, NoMemory> {
    Ok(index.share(alloc)? == *index)
}

#[test]
fn no_index_is_shared(rt: HostRuntime) -> Result<(), Fail> {
    assert!(rt; is_shared(rt.alloc(), &NoIndex)?);
    Ok(())
}
