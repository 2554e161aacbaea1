ghost use Rattle.std.specs.Prelude.{◌≡◌, ◌≤◌, ◌==◌, not, length, true, IfOk};
ghost use Rattle.stop_advance.specs.Advance.{reached_by, served_by, advanced_in};
ghost use Rattle.stop_advance.specs.Starts.{IsStartOf, left_from};
ghost use Rattle.stop_schedule.specs.Bounds.{IsBounded};
ghost use Rattle.stop_schedule.specs.Keeping.{keeps};
ghost use Rattle.stop_schedule.specs.Limits.{latest_front};

use crate::served::Served;
use ride_base::{Items, NoMemory};
use std::alloc::Global;
use stop_schedule::{Params, Schedule, Start};

/// Whether a stop is reached at the clock `now` or before, in the units of the roads' weights, so that the schedule changes. It takes no
/// memory.
pub fn reaches(schedule: &Schedule, params: &Params, now: u64) -> bool
    ensures { result ≡ not (reached_by params.now schedule.now now == 0) }
{
    !schedule.stops().is_empty() && schedule.arr(params, 1) <= now
}

/// The stops that are reached by then, and from where the vehicle drives on behind the last of them. It takes no memory where none is.
fn reached_until(
    alloc: Global,
    schedule: &Schedule,
    params: &Params,
    now: u64,
) -> Result<(Items<Served>, Start), NoMemory>
    ensures served { IfOk result (λ r. r.0 ≡ served_by params.now schedule.now now) }
    ensures within { IfOk result (λ r. length r.0 ≤ length schedule.now.stops) }
    ensures bounded { IsBounded schedule.now }
    ensures start { IfOk result (λ r. IsStartOf (advanced_in params.now schedule.now now) r.1) }
{
    let mut served = Items::new(alloc);
    let mut start = Start {
        node: schedule.place(),
        departure: schedule.departure(),
        halt: schedule.halt(),
    };
    let stops = schedule.stops();
    for k in 0..stops.len() {
        let stop = stops[k];
        let arr = start.departure + schedule.leg(k).length();
        if arr > now {
            return Ok((served, start));
        }
        let dep = (arr + params.stop_at(start.halts_at(), stop.node)).max(stop.ready);
        served.push(Served {
            kind: stop.kind,
            no: stop.no,
            node: stop.node,
            arr,
            dep,
        })?;
        start = Start {
            node: stop.node,
            departure: dep,
            halt: true,
        };
    }
    Ok((served, start))
}

/// The schedule that starts there, without its first stops. Its legs are equal walks.
fn left_behind(
    alloc: Global,
    schedule: &Schedule,
    start: &Start,
    reached: usize,
) -> Result<Schedule, NoMemory>
    requires within { reached ≤ length schedule.now.stops }
    requires departure { start.now.departure ≤ latest_front }
    ensures { IfOk result (λ s. s ≡ left_from schedule.now start.now reached) }
{
    let stops = &schedule.stops()[reached..];
    let legs = &schedule.legs()[reached..];
    Schedule::from_parts(
        alloc,
        schedule,
        start.node,
        start.departure,
        start.halt,
        stops,
        legs,
    )
}

/// The schedule without the stops that are reached at the clock `now` or before, in the units of the roads' weights, and these stops in
/// their order. The last of them becomes the node from
/// which the vehicle drives, where it halts and which it leaves as planned. After an error nothing is left of either.
pub fn advanced(
    alloc: Global,
    schedule: &Schedule,
    params: &Params,
    now: u64,
) -> Result<(Schedule, Items<Served>), NoMemory>
    requires { keeps params.now schedule.now ≡ true }
    ensures schedule { IfOk result (λ r. r.0 ≡ advanced_in params.now schedule.now now) }
    ensures served { IfOk result (λ r. r.1 ≡ served_by params.now schedule.now now) }
{
    let (served, start) = reached_until(alloc, schedule, params, now)?;
    let left = left_behind(alloc, schedule, &start, served.len())?;
    Ok((left, served))
}
