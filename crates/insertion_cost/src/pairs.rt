ghost use Rattle.std.specs.Prelude.{◌≡◌, ℕ, ◌+◌, ◌-◌, ◌<◌, ◌≤◌, ◌^◌, ◌↔◌, length, drop, option_map, IsTrue, IsSome, IfSome, IfOk, Some, true, unwrap_or, slice_get};
ghost use Rattle.road_graph.specs.Limits.{far};
ghost use Rattle.road_graph.specs.Roads.{Roads};
ghost use Rattle.stop_schedule.specs.Bounds.{IsBounded};
ghost use Rattle.stop_schedule.specs.Limits.{latest_moment, latest_front, most_stops};
ghost use Rattle.stop_schedule.specs.Fleets.{Car as CarOf};
ghost use Rattle.stop_schedule.specs.Keeping.{keeps};
ghost use Rattle.stop_schedule.specs.Plans.{course_of};
ghost use Rattle.stop_schedule.specs.Rates.{Rates};
ghost use Rattle.stop_schedule.specs.Times.{departs};
ghost use Rattle.stop_schedule.specs.declared.request.Request.{Request as RequestOf};
ghost use Rattle.stop_schedule.specs.declared.stop.Front.{Front as FrontOf};
ghost use Rattle.insertion_cost.specs.NodeWays.{AreWaysAlong, AreSomeWaysAlong, IsOnlyPrice};
ghost use Rattle.insertion_cost.specs.OnWays.{starting, HasRoom, HasRoomBy, IsLed, IsPricedBy, IsLengthOn};
ghost use Rattle.insertion_cost.specs.OnWays.{LeadsOn, EndsSo, IsSoon, AreShortWays, AreSomeBehind};
ghost use Rattle.insertion_cost.specs.Pairs.{offer_by as offer_of_price, IsCarOf, IsBestOfTried, IsBestFrom};
ghost use Rattle.stop_schedule.specs.Lists.{IsInsertionInto};

use crate::behind::{Behind, look_back};
use crate::node_ways::{NodeWays, spans_of};
use crate::offer::{Offer, first_of_two};
use crate::on_the_way::OnTheWay;
use crate::pricing::Priced;
use crate::spans::Spans;
use ride_base::{NoMemory, VehicleNo};
use stop_schedule::{Front, Insertion, MOST_STOPS, Params, Request, Schedule};

/// Which vehicle is priced.
#[derive(Clone, Copy, Debug, PartialEq, Eq)]
pub struct PlacedVehicle {
    /// Its number.
    pub no: VehicleNo,
    /// Its place in the fleet, from 0.
    pub place: usize,
}

/// What lies behind stop i, from 0.
fn behind_stop(schedule: &Schedule, rows: &[Behind], i: usize) -> Behind
    requires within { i ≤ length schedule.now.stops }
    requires rows { length rows.now ≡ length schedule.now.stops + 1 }
    ensures { slice_get rows.now (length schedule.now.stops - i) ≡ Some result }
{
    rows[schedule.stops().len() - i]
}

/// Where a vehicle that takes the riders up behind stop i, from 0, turns to them, where its list leaves that stop then. What is driven of
/// the first leg up to the front is busy time too.
fn turning_at(schedule: &Schedule, front: &Front, i: usize, left: u64) -> OnTheWay
    requires within { i ≤ length schedule.now.stops }
    requires front { front.now.time ≤ latest_front }
    requires offset { front.now.offset < far }
    requires soon { left ≤ latest_front }
    ensures value { (rates : Rates) → left ≡ departs rates.stop (course_of schedule.now) i
        → result ≡ starting rates schedule.now front.now i }
    ensures soon { result.departure ≤ latest_front }
    ensures offset { result.busy_time < far }
{
    if i == 0 {
        let start = schedule.start(front, Insertion { i, j: i });
        OnTheWay {
            halt: start.halts_at(),
            departure: start.departure,
            busy_time: front.offset,
        }
    } else {
        OnTheWay {
            halt: schedule.halt_at(i),
            departure: left,
            busy_time: 0,
        }
    }
}

/// When the list leaves stop i + 1, where there is one and it leaves stop i, from 0, then.
fn next_left(schedule: &Schedule, params: &Params, i: usize, left: u64) -> u64
    requires within { i ≤ length schedule.now.stops }
    requires soon { left ≤ latest_front }
    ensures { i < length schedule.now.stops
        → left ≡ departs params.now.stop (course_of schedule.now) i
        → result ≡ departs params.now.stop (course_of schedule.now) (i + 1) }
{
    let stops = schedule.stops();
    if i == stops.len() {
        return left;
    }
    let stop = stops[i];
    let takes = params.stop_at(schedule.halt_at(i), stop.node);
    (left + schedule.leg(i).length() + takes).max(stop.ready)
}

/// Whether there is room for the riders beside those who are aboard behind a stop.
fn has_room(schedule: &Schedule, request: &Request, behind: &Behind) -> bool
    requires on_seats { behind.now.on_seats.on ≤ 2 ^ 40 }
    requires off_seats { behind.now.on_seats.off ≤ 2 ^ 40 }
    requires in_spaces { behind.now.in_spaces.on ≤ 2 ^ 40 }
    requires off_spaces { behind.now.in_spaces.off ≤ 2 ^ 40 }
    ensures { IsTrue result ↔ HasRoomBy schedule.now request.now behind.now }
{
    let (seats, spaces) = (behind.on_seats, behind.in_spaces);
    seats.off + u64::from(request.riders) <= u64::from(schedule.seats()) + seats.on
        && spaces.off + u64::from(request.spaces) <= u64::from(schedule.spaces()) + spaces.on
}

/// How long the vehicle is busy up to the last stop that drops the riders off behind stop j, from 0, and goes on over a leg of this
/// length, where a stop follows. None where that breaks a promise or the end of service.
fn ends_at(
    schedule: &Schedule,
    params: &Params,
    rows: &[Behind],
    j: usize,
    way_on: Option<u64>,
    dropped: &OnTheWay,
) -> Option<u64>
    requires within { j ≤ length schedule.now.stops }
    requires kept { keeps params.now schedule.now ≡ true }
    requires rows { AreSomeBehind params.now schedule.now rows.now }
    requires way_on { IsSome way_on ↔ (j < length schedule.now.stops) }
    requires short { IfSome way_on (λ x. x < far) }
    requires departure { dropped.now.departure ≤ 2 ^ 55 }
    requires busy_time { dropped.now.busy_time ≤ 2 ^ 55 }
    ensures ends { EndsSo params.now schedule.now j (unwrap_or way_on 0) dropped.now result }
    ensures short { IfSome result (λ total. total ≤ 2 ^ 61) }
{
    let stops = schedule.stops();
    if j == stops.len() {
        if dropped.departure > schedule.until() {
            return None;
        }
        return Some(dropped.busy_time);
    }
    let stop = stops[j];
    let length = way_on.unwrap();
    let next = dropped.past(params, length, stop.node, stop.ready);
    let behind = behind_stop(schedule, rows, j + 1);
    if stop.kept_time(dropped.departure + length, next.departure) > stop.limit
        || next.departure > behind.leaves_by
    {
        return None;
    }
    Some(next.busy_time + behind.busy_time)
}

/// The length of the way into the dropoff.
fn length_in(spans: &Spans, at: Insertion) -> u64
    requires { at.i < at.j → IsSome spans.now.before_dropoff }
    ensures together { at.i ≡ at.j → result ≡ spans.now.after_pickup }
    ensures apart { at.i < at.j → spans.now.before_dropoff ≡ Some result }
{
    if at.i < at.j {
        spans.before_dropoff.unwrap()
    } else {
        spans.after_pickup
    }
}

/// The price of a pair of places, where the vehicle is at stop j with the riders aboard, whom it took up then. None where it isn't
/// feasible.
fn priced_at(
    schedule: &Schedule,
    params: &Params,
    request: &Request,
    direct: u64,
    ways: &[NodeWays],
    rows: &[Behind],
    at: Insertion,
    leave: u64,
    way: &OnTheWay,
) -> Option<Priced>
    requires insertion { IsInsertionInto at (length schedule.now.stops) }
    requires bounded { IsBounded schedule.now }
    requires kept { keeps params.now schedule.now ≡ true }
    requires moment { request.now.moment ≤ latest_moment }
    requires direct { direct < far }
    requires ways { AreShortWays schedule.now ways.now }
    requires rows { AreSomeBehind params.now schedule.now rows.now }
    requires leave { leave ≤ latest_moment }
    requires soon { IsSoon way.now }
    ensures { (g : Roads) (front : FrontOf)
        → IsPricedBy g params.now schedule.now front request.now direct ways.now rows.now
        → IsLed params.now schedule.now front request.now ways.now at.i leave at.j way.now
        → HasRoom schedule.now request.now (drop at.j schedule.now.stops)
        → length schedule.now.stops + 2 ≤ most_stops
        → IsOnlyPrice g params.now front schedule.now request.now at result }
{
    let spans = spans_of(ways, direct, at)?;
    let length = length_in(&spans, at);
    let arrive = way.departure + length;
    if arrive > schedule.until() {
        return None;
    }
    let dropped = way.past(params, length, request.dropoff, 0);
    let busy_time = ends_at(schedule, params, rows, at.j, spans.after_dropoff, &dropped)?;
    let detour = busy_time.saturating_sub(behind_stop(schedule, rows, at.i).busy_time);
    let latest_leave = request.moment + params.wait();
    let latest_arrive = request.moment + params.trip_limit(direct);
    let waiting = params.wait_weight() * leave.saturating_sub(latest_leave);
    let delay = params.trip_weight() * arrive.saturating_sub(latest_arrive);
    Some(Priced {
        cost: detour + waiting + delay,
        leave,
        arrive,
    })
}

/// How long the way from stop j to the next one is with the riders aboard, who were taken up behind stop i. None where there is no walk.
fn length_on(schedule: &Schedule, ways: &[NodeWays], i: usize, j: usize) -> Option<u64>
    requires within { j < length schedule.now.stops }
    requires order { i ≤ j }
    requires ways { AreShortWays schedule.now ways.now }
    ensures value { IsLengthOn schedule.now ways.now i j result }
    ensures short { IfSome result (λ x. x < far) }
{
    if i == j {
        ways[j + 1].from_pickup
    } else {
        Some(schedule.leg(j).length())
    }
}

/// On the way to stop j + 1 with the riders aboard, who were taken up behind stop i. None where there is no such stop, or no pair with the
/// dropoff there or behind is feasible.
fn onto_next(
    schedule: &Schedule,
    params: &Params,
    ways: &[NodeWays],
    i: usize,
    j: usize,
    way: &OnTheWay,
) -> Option<OnTheWay>
    requires within { j ≤ length schedule.now.stops }
    requires order { i ≤ j }
    requires ways { AreShortWays schedule.now ways.now }
    requires soon { IsSoon way.now }
    ensures leads { (front : FrontOf) (r : RequestOf) (direct leave : ℕ)
        → IsLed params.now schedule.now front r ways.now i leave j way.now
        → HasRoom schedule.now r (drop j schedule.now.stops)
        → LeadsOn params.now schedule.now front r direct ways.now i leave (j + 1) result }
    ensures soon { IfSome result IsSoon }
    ensures within { IsSome result → j < length schedule.now.stops }
{
    let stops = schedule.stops();
    if j == stops.len() {
        return None;
    }
    let length = length_on(schedule, ways, i, j)?;
    let stop = stops[j];
    let next = way.past(params, length, stop.node, stop.ready);
    if stop.kept_time(way.departure + length, next.departure) > stop.limit
        || next.departure > schedule.until()
    {
        return None;
    }
    Some(next)
}

/// The offer of a vehicle for a pair that has a price.
fn offer_by(vehicle: PlacedVehicle, at: Insertion, priced: Option<Priced>) -> Option<Offer>
    ensures { result ≡ option_map (offer_of_price vehicle at) priced }
{
    let priced = priced?;
    Some(Offer {
        cost: priced.cost,
        no: vehicle.no,
        place: vehicle.place,
        at,
        leave: priced.leave,
        arrive: priced.arrive,
    })
}

/// The best of an offer and those of a vehicle that takes the riders up behind stop i and has left them then.
fn best_on_the_way(
    vehicle: PlacedVehicle,
    schedule: &Schedule,
    params: &Params,
    request: &Request,
    direct: u64,
    ways: &[NodeWays],
    rows: &[Behind],
    i: usize,
    taken: &OnTheWay,
    so_far: Option<Offer>,
) -> Option<Offer>
    requires within { i ≤ length schedule.now.stops }
    requires few { length schedule.now.stops + 2 ≤ most_stops }
    requires bounded { IsBounded schedule.now }
    requires kept { keeps params.now schedule.now ≡ true }
    requires moment { request.now.moment ≤ latest_moment }
    requires direct { direct < far }
    requires ways { AreShortWays schedule.now ways.now }
    requires rows { AreSomeBehind params.now schedule.now rows.now }
    requires leave { taken.now.departure ≤ latest_moment }
    requires soon { IsSoon taken.now }
    ensures { (g : Roads) (front : FrontOf) (car : CarOf)
        → IsPricedBy g params.now schedule.now front request.now direct ways.now rows.now
        → IsLed params.now schedule.now front request.now ways.now i taken.now.departure i taken.now
        → IsCarOf vehicle schedule.now car
        → IsBestOfTried g params.now vehicle.place car front request.now i i so_far
        → IsBestOfTried g params.now vehicle.place car front request.now (i + 1) (i + 1) result }
{
    let mut best = so_far;
    let mut way = *taken;
    for j in i..ways.len() {
        if !has_room(schedule, request, &behind_stop(schedule, rows, j)) {
            return best;
        }
        let at = Insertion { i, j };
        let priced = priced_at(
            schedule,
            params,
            request,
            direct,
            ways,
            rows,
            at,
            taken.departure,
            &way,
        );
        best = first_of_two(best, offer_by(vehicle, at, priced));
        match onto_next(schedule, params, ways, i, j, &way) {
            None => return best,
            Some(next) => way = next,
        }
    }
    best
}

/// The best of an offer and those of a vehicle whose pickup goes after stop i, where its list leaves that stop then.
fn best_after_stop(
    vehicle: PlacedVehicle,
    schedule: &Schedule,
    front: &Front,
    params: &Params,
    request: &Request,
    direct: u64,
    ways: &[NodeWays],
    rows: &[Behind],
    i: usize,
    left: u64,
    so_far: Option<Offer>,
) -> Option<Offer>
    requires within { i ≤ length schedule.now.stops }
    requires left { left ≡ departs params.now.stop (course_of schedule.now) i }
    requires few { length schedule.now.stops + 2 ≤ most_stops }
    requires bounded { IsBounded schedule.now }
    requires kept { keeps params.now schedule.now ≡ true }
    requires moment { request.now.moment ≤ latest_moment }
    requires front { front.now.time ≤ latest_front }
    requires offset { front.now.offset < far }
    requires direct { direct < far }
    requires ways { AreShortWays schedule.now ways.now }
    requires rows { AreSomeBehind params.now schedule.now rows.now }
    ensures { (g : Roads) (car : CarOf)
        → IsPricedBy g params.now schedule.now front.now request.now direct ways.now rows.now
        → IsCarOf vehicle schedule.now car
        → IsBestOfTried g params.now vehicle.place car front.now request.now i i so_far
        → IsBestOfTried g params.now vehicle.place car front.now request.now (i + 1) (i + 1)
        result }
{
    let Some(length) = ways[i].to_pickup else {
        return so_far;
    };
    let turning = turning_at(schedule, front, i, left);
    let taken = turning.past(params, length, request.pickup, request.moment);
    if taken.departure > schedule.until() {
        return so_far;
    }
    best_on_the_way(
        vehicle, schedule, params, request, direct, ways, rows, i, &taken, so_far,
    )
}

/// The best offer of a vehicle from a front, over all pairs of places, by the distances of the front's node and of each stop's. None
/// where no pair is feasible.
pub fn best_from(
    vehicle: PlacedVehicle,
    schedule: &Schedule,
    front: &Front,
    params: &Params,
    request: &Request,
    direct: u64,
    ways: &[NodeWays],
    rows: &mut Vec<Behind>,
) -> Result<Option<Offer>, NoMemory>
    requires ways { AreSomeWaysAlong request.now front.now schedule.now.stops direct ways.now }
    requires kept { keeps params.now schedule.now ≡ true }
    requires moment { request.now.moment ≤ latest_moment }
    requires front { front.now.time ≤ latest_front }
    requires offset { front.now.offset < far }
    ensures { IfOk result (λ best. (g : Roads) (car : CarOf)
        → AreWaysAlong g request.now front.now schedule.now.stops direct ways.now
        → IsCarOf vehicle schedule.now car
        → IsBestFrom g params.now vehicle.place car front.now request.now best) }
{
    if schedule.stops().len() + 2 > MOST_STOPS {
        return Ok(None);
    }
    let start = schedule.start(front, Insertion { i: 0, j: 0 });
    look_back(schedule, params, &start, rows)?;
    let mut best = None;
    let mut left = schedule.departure();
    for i in 0..ways.len() {
        best = best_after_stop(
            vehicle, schedule, front, params, request, direct, ways, rows, i, left, best,
        );
        left = next_left(schedule, params, i, left);
    }
    Ok(best)
}
