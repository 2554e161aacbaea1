ghost use Rattle.std.specs.Prelude.{◌≡◌, ℕ, ◌+◌, ◌-◌, ◌<◌, ◌≤◌, length, OnOk};
ghost use Rattle.leeway.specs.Leeways.{limit_left, limit_reached};
ghost use Rattle.stop_schedule.specs.Plans.{Course, halt_at};
ghost use Rattle.insertion_cost.specs.Behind.{IsBehind, AreBehind};
ghost use Rattle.insertion_cost.specs.Changes.{course_from};

use crate::driving::Riders;
use ride_base::NoMemory;
use road_graph::NodeNo;
use stop_schedule::{Params, Schedule, SeatKind, Start, Stop, StopKind};

/// What lies behind a stop of a vehicle's list, from 0, where the vehicle starts from a place, in the units of the roads' weights.
#[derive(Clone, Copy, Debug)]
pub struct Behind {
    /// How long the legs and the stops behind it take.
    pub busy_time: u64,
    /// When it has to be left at the latest, but for its own limit, so that each promise behind it is kept and the last stop is left in
    /// service.
    pub leaves_by: u64,
    /// The riders who get on and off behind it and take a seat.
    pub on_seats: Riders,
    /// And those who take a wheelchair space.
    pub in_spaces: Riders,
}

/// The latest arrival at a stop that takes so long and has to be left by then, but for its own limit.
fn reached_by(stop: &Stop, takes: u64, leaves_by: u64) -> u64
    ensures { result ≡ limit_reached stop.now stop.now.kind
        (limit_left stop.now stop.now.kind leaves_by - takes) }
{
    match stop.kind {
        StopKind::Pickup => stop.limit.min(leaves_by).saturating_sub(takes),
        StopKind::Dropoff => stop.limit.min(leaves_by.saturating_sub(takes)),
    }
}

/// Where a vehicle that starts so halts before the stop after stop k, from 0, if it does.
fn halt_before(schedule: &Schedule, start: &Start, k: usize) -> Option<NodeNo>
    requires { k ≤ length schedule.now.stops }
    ensures { result ≡ halt_at (course_from start.now schedule.now) k }
{
    if k == 0 {
        start.halts_at()
    } else {
        Some(schedule.stops()[k - 1].node)
    }
}

/// Behind stop k, where that lies behind the stop after it.
fn one_before(
    schedule: &Schedule,
    params: &Params,
    start: &Start,
    k: usize,
    behind: &Behind,
) -> Behind
    requires within { k < length schedule.now.stops }
    requires behind { IsBehind params.now.stop schedule.now.until
        (course_from start.now schedule.now) (k + 1) behind.now }
    ensures { IsBehind params.now.stop schedule.now.until
        (course_from start.now schedule.now) k result }
{
    let stop = schedule.stops()[k];
    let length = schedule.leg(k).length();
    let takes = params.stop_at(halt_before(schedule, start, k), stop.node);
    Behind {
        busy_time: behind.busy_time + (length + takes),
        leaves_by: reached_by(&stop, takes, behind.leaves_by).saturating_sub(length),
        on_seats: behind.on_seats.with(&stop, SeatKind::Seat),
        in_spaces: behind.in_spaces.with(&stop, SeatKind::Space),
    }
}

/// Behind the last stop.
fn behind_last(until: u64) -> Behind
    ensures { (stop : ℕ) (c : Course) → IsBehind stop until c (length c.stops) result }
{
    let nobody = Riders { on: 0, off: 0 };
    Behind {
        busy_time: 0,
        leaves_by: until,
        on_seats: nobody,
        in_spaces: nobody,
    }
}

/// Puts what lies behind each stop in the place of what was there, from the last stop back to where the vehicle starts.
pub fn look_back(
    schedule: &Schedule,
    params: &Params,
    start: &Start,
    rows: &mut Vec<Behind>,
) -> Result<(), NoMemory>
    ensures { OnOk result (AreBehind params.now.stop schedule.now.until
        (course_from start.now schedule.now) rows.new.items) }
{
    rows.clear();
    let count = schedule.stops().len();
    let mut behind = behind_last(schedule.until());
    rows.push(behind)?;
    for n in 0..count {
        behind = one_before(schedule, params, start, count - 1 - n, &behind);
        rows.push(behind)?;
    }
    Ok(())
}
