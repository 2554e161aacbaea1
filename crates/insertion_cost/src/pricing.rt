ghost use Rattle.std.specs.Prelude.{◌≡◌, ℕ, ◌+◌, ◌-◌, ◌*◌, ◌<◌, ◌≤◌, ◌^◌, length, option_map, IfSome, ◌==◌, if◌then◌else◌};
ghost use Rattle.road_graph.specs.Limits.{far};
ghost use Rattle.stop_schedule.specs.Limits.{latest_moment, latest_front, end_of_time};
ghost use Rattle.stop_schedule.specs.Lists.{old_course};
ghost use Rattle.insertion_cost.specs.Changes.{course_from};
ghost use Rattle.insertion_cost.specs.Prices.{priced, busy_time, planned, promise_of};
ghost use Rattle.insertion_cost.specs.Spans.{AreSpans, lengths_of, price_from};

use crate::driving::drive_along;
use crate::spans::Spans;
use stop_schedule::{Front, Insertion, Params, Promise, Request, Schedule, Start};

/// What an insertion comes to, in the units of the roads' weights.
#[derive(Clone, Copy, Debug, PartialEq, Eq)]
pub struct Priced {
    /// Its cost: detour, and weighted waiting and delay. It is below 2^58.
    pub cost: u64,
    /// When the pickup is left.
    pub leave: u64,
    /// When the dropoff is reached.
    pub arrive: u64,
}

/// The price of an insertion into a schedule from its front, if the direct way and the legs that change have these lengths. There is
/// none where the insertion isn't feasible, or its places aren't in order or in the list.
pub fn price(
    schedule: &Schedule,
    front: &Front,
    params: &Params,
    request: &Request,
    direct: u64,
    spans: &Spans,
    at: Insertion,
) -> Option<Priced>
    requires spans { AreSpans (length schedule.now.stops) at spans.now }
    requires direct { direct < far }
    requires moment { request.now.moment ≤ latest_moment }
    requires front { front.now.time ≤ latest_front }
    requires offset { front.now.offset < far }
    ensures value { option_map price_from result
        ≡ priced params.now schedule.now front.now request.now at direct (lengths_of spans.now) }
    ensures cost { IfSome result (λ p. p.cost < 2 ^ 58) }
    ensures leave { IfSome result (λ p. p.leave ≤ latest_moment) }
    ensures arrive { IfSome result (λ p. p.arrive ≤ latest_moment) }
{
    if at.i > at.j || at.j > schedule.stops().len() {
        return None;
    }
    let drive = drive_along(schedule, front, params, request, spans, at)?;
    let latest_leave = request.moment + params.wait();
    let latest_arrive = request.moment + params.trip_limit(direct);
    let waiting = params.wait_weight() * drive.leave.saturating_sub(latest_leave);
    let delay = params.trip_weight() * drive.arrive.saturating_sub(latest_arrive);
    let detour = detour(schedule, front, params, drive.busy_time, at);
    Some(Priced {
        cost: detour + waiting + delay,
        leave: drive.leave,
        arrive: drive.arrive,
    })
}

/// What the riders of a request are promised at their commit, where their pickup is planned to be left and their dropoff to be
/// reached at these times.
pub fn promise(params: &Params, request: &Request, direct: u64, leave: u64, arrive: u64) -> Promise
    requires moment { request.now.moment ≤ latest_moment }
    requires direct { direct < far }
    requires leave { leave < end_of_time }
    requires arrive { arrive < end_of_time }
    ensures value { result ≡ promise_of params.now request.now direct (planned leave arrive) }
    ensures pickup { result.pickup < end_of_time }
    ensures arrival { result.arrival < end_of_time }
{
    Promise {
        pickup: leave.max(request.moment + params.wait()),
        arrival: arrive.max(request.moment + params.trip_limit(direct)),
    }
}

/// What the new list takes more than the old one, both from where the new one starts.
fn detour(schedule: &Schedule, front: &Front, params: &Params, new: u64, at: Insertion) -> u64
    requires time { front.now.time ≤ latest_front }
    requires offset { front.now.offset < far }
    requires new { new ≤ 2 ^ 41 }
    ensures value { result ≡ (if at.i == 0 then front.now.offset else 0) + new
        - busy_time params.now.stop (old_course schedule.now front.now at) }
    ensures bound { result ≤ 2 ^ 54 }
{
    let start = schedule.start(front, at);
    let driven = if at.i == 0 { front.offset } else { 0 };
    (driven + new).saturating_sub(busy_time_of(schedule, params, &start))
}

/// The lengths of all legs and the times of all stops together, where the vehicle starts from there.
fn busy_time_of(schedule: &Schedule, params: &Params, start: &Start) -> u64
    ensures value { result ≡ busy_time params.now.stop (course_from start.now schedule.now) }
    ensures bound { result ≤ 2 ^ 60 }
{
    let mut busy_time = 0;
    let mut halt = start.halts_at();
    for k in 0..schedule.stops().len() {
        let node = schedule.stops()[k].node;
        busy_time += schedule.leg(k).length() + params.stop_at(halt, node);
        halt = Some(node);
    }
    busy_time
}
