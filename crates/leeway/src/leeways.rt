ghost use Rattle.std.specs.Prelude.{◌≡◌, ℕ, ◌+◌, ◌<◌, ◌≤◌, length, true, slice_index};
ghost use Rattle.leeway.specs.Leeways.{limit_left, limit_reached, leaves_from, latest_arrival, slack_of, IsLatest};
ghost use Rattle.stop_schedule.specs.Bounds.{IsBounded};
ghost use Rattle.stop_schedule.specs.Keeping.{keeps};
ghost use Rattle.stop_schedule.specs.Plans.{course_of};

use stop_schedule::{Params, Schedule, Stop, StopKind};

/// No later than its limit, for a stop that is left: a dropoff has no limit on that.
fn left_by(stop: &Stop, latest: u64) -> u64
    ensures { result ≡ limit_left stop.now stop.now.kind latest }
{
    match stop.kind {
        StopKind::Pickup => stop.limit.min(latest),
        StopKind::Dropoff => latest,
    }
}

/// No later than its limit, for a stop that is reached, on which a pickup has none.
fn reached_by(stop: &Stop, latest: u64) -> u64
    ensures { result ≡ limit_reached stop.now stop.now.kind latest }
{
    match stop.kind {
        StopKind::Pickup => latest,
        StopKind::Dropoff => stop.limit.min(latest),
    }
}

/// The latest departure from stop i, from 0, but for its own limit, so that all after it is kept.
fn leaves_by(schedule: &Schedule, params: &Params, i: usize) -> u64
    requires { i ≤ length schedule.now.stops }
    ensures { result ≡ leaves_from params.now schedule.now i }
{
    let mut latest = schedule.until();
    let mut k = schedule.stops().len();
    while k > i {
        k -= 1;
        let stop = schedule.stops()[k];
        let takes = params.stop_at(schedule.halt_at(k), stop.node);
        let reached = reached_by(&stop, left_by(&stop, latest).saturating_sub(takes));
        latest = reached.saturating_sub(schedule.leg(k).length());
    }
    latest
}

/// The latest arrival at the stop after stop i, from 0.
fn next_by(schedule: &Schedule, params: &Params, i: usize) -> u64
    requires { i < length schedule.now.stops }
    ensures value { result ≡ latest_arrival params.now schedule.now (i + 1) }
    ensures bounded { IsBounded schedule.now }
{
    let stop = schedule.stops()[i];
    let takes = params.stop_at(schedule.halt_at(i), stop.node);
    let left = left_by(&stop, leaves_by(schedule, params, i + 1));
    reached_by(&stop, left.saturating_sub(takes))
}

/// The latest arrival at stop i, from 1, in the units of the roads' weights. In a schedule that keeps, reaching the stop then keeps each
/// promise from it on and the end of service, and reaching it later doesn't.
pub fn latest(schedule: &Schedule, params: &Params, i: usize) -> u64
    requires from_first { 1 ≤ i }
    requires to_last { i ≤ length schedule.now.stops }
    ensures value { result ≡ latest_arrival params.now schedule.now i }
    ensures exact { keeps params.now schedule.now ≡ true
        → IsLatest params.now schedule.now i result }
{
    next_by(schedule, params, i - 1)
}

/// How long the way from stop i, from 0, to the next one may take, in the units of the roads' weights. In a schedule that keeps, it is
/// no shorter than the leg.
pub fn slack(schedule: &Schedule, params: &Params, i: usize) -> u64
    requires { i < length schedule.now.stops }
    ensures value { result ≡ slack_of params.now schedule.now i }
    ensures leg { keeps params.now schedule.now ≡ true
        → slice_index (course_of schedule.now).lengths i ≤ result }
{
    next_by(schedule, params, i).saturating_sub(schedule.dep(params, i))
}
