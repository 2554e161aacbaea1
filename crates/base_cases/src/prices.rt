ghost use Rattle.std.specs.Prelude.{◌≡◌, ◌<◌, ◌≤◌, ◌^◌, [], length, Some, None};
ghost use Rattle.insertion_cost.specs.Spans.{AreSpans};
ghost use Rattle.stop_schedule.specs.Limits.{latest_front, latest_moment};

use crate::cities::{FOUR, ONE, THREE, TWO};
use crate::plans::{
    at, first, first_in_a_space, first_walks, front, opened, promised, ride, ride_in_spaces,
};
use insertion_cost::{
    Assigned, Decision, Offer, Priced, Spans, first_of_two, is_before, price, promise,
};
use ride_base::{NoMemory, VehicleNo};
use std::alloc::Global;
use std::process::Abort;
use std::test::Fail;
use stop_schedule::{Front, Insertion, Params, Request, Schedule};

/// The lengths into and out of the pickup where both stops stand side by side at the end.
fn at_the_end(before_pickup: u64, after_pickup: u64) -> Spans
    ensures { result ≡ record {
      before_pickup = before_pickup;
      after_pickup = after_pickup;
      before_dropoff = None;
      after_dropoff = None;
    } }
{
    Spans {
        before_pickup,
        after_pickup,
        before_dropoff: None,
        after_dropoff: None,
    }
}

/// The same where an older stop follows so far behind.
fn before_another(before_pickup: u64, after_pickup: u64, after_dropoff: u64) -> Spans
    ensures { result ≡ record {
      before_pickup = before_pickup;
      after_pickup = after_pickup;
      before_dropoff = None;
      after_dropoff = Some after_dropoff;
    } }
{
    Spans {
        before_pickup,
        after_pickup,
        before_dropoff: None,
        after_dropoff: Some(after_dropoff),
    }
}

/// The same where older stops stand between the two, and none behind.
fn around_others(before_pickup: u64, after_pickup: u64, before_dropoff: u64) -> Spans
    ensures { result ≡ record {
      before_pickup = before_pickup;
      after_pickup = after_pickup;
      before_dropoff = Some before_dropoff;
      after_dropoff = None;
    } }
{
    Spans {
        before_pickup,
        after_pickup,
        before_dropoff: Some(before_dropoff),
        after_dropoff: None,
    }
}

fn priced(cost: u64, leave: u64, arrive: u64) -> Option<Priced> {
    Some(Priced {
        cost,
        leave,
        arrive,
    })
}

/// The price of a first request.
fn first_price(
    schedule: &Schedule,
    front: &Front,
    request: &Request,
    direct: u64,
    spans: &Spans,
) -> Option<Priced>
    requires none { schedule.now.stops ≡ [] }
    requires front { front.now.time ≤ latest_front }
    requires offset { front.now.offset < 2 ^ 53 }
    requires moment { request.now.moment ≤ latest_moment }
    requires direct { direct < 2 ^ 53 }
    requires spans { AreSpans 0 (record { i = 0; j = 0 }) spans.now }
{
    price(
        schedule,
        front,
        &Params::usual(),
        request,
        direct,
        spans,
        at(0, 0),
    )
}

/// The price of a second request, with a direct way of 10, while the vehicle's front is at node 1 at the time 0.
fn price_of(schedule: &Schedule, request: &Request, spans: &Spans, at: Insertion) -> Option<Priced>
    requires two { length schedule.now.stops ≡ 2 }
    requires moment { request.now.moment ≤ latest_moment }
    requires spans { AreSpans 2 at spans.now }
{
    price(
        schedule,
        &front(ONE, 0, 0),
        &Params::usual(),
        request,
        10,
        spans,
        at,
    )
}

/// The price of a second request of one rider, from node 3 to 4 at the time 0.
fn second_price(schedule: &Schedule, spans: &Spans, at: Insertion) -> Option<Priced>
    requires two { length schedule.now.stops ≡ 2 }
    requires spans { AreSpans 2 at spans.now }
{
    price_of(schedule, &ride(2, THREE, FOUR, 0), spans, at)
}

#[test]
fn into_an_empty_list(rt: HostRuntime) {
    let schedule = opened(rt.alloc(), 2, 0);
    let request = ride(1, TWO, FOUR, 0);
    let price = first_price(
        &schedule,
        &front(ONE, 0, 0),
        &request,
        20,
        &at_the_end(10, 20),
    );
    assert_eq!(rt; price, priced(34, 12, 32));
}

#[test]
fn limits_are_promised(rt: HostRuntime) {
    let request = ride(1, TWO, FOUR, 0);
    assert_eq!(rt; promise(&Params::usual(), &request, 20, 12, 32), promised());
}

#[test]
fn to_the_pickups_own_node(rt: HostRuntime) {
    let schedule = opened(rt.alloc(), 2, 0);
    let request = ride(1, TWO, TWO, 0);
    let price = first_price(
        &schedule,
        &front(ONE, 0, 0),
        &request,
        0,
        &at_the_end(10, 0),
    );
    assert_eq!(rt; price, priced(14, 12, 12));
}

#[test]
fn before_service_begins(rt: HostRuntime) {
    let schedule = opened(rt.alloc(), 2, 100);
    let request = ride(1, TWO, FOUR, 0);
    let price = first_price(
        &schedule,
        &front(ONE, 100, 0),
        &request,
        20,
        &at_the_end(10, 20),
    );
    assert_eq!(rt; price, priced(208, 112, 132));
}

fn check_older(rt: &impl Abort, schedule: &Schedule)
    requires { length schedule.now.stops ≡ 2 }
{
    let between = second_price(schedule, &before_another(10, 10, 0), at(1, 1));
    assert_eq!(rt; between, priced(10, 24, 34));
    let after_older = second_price(schedule, &around_others(10, 10, 0), at(1, 2));
    assert_eq!(rt; after_older, priced(12, 24, 36));
    let behind = second_price(schedule, &at_the_end(10, 10), at(2, 2));
    assert_eq!(rt; behind, priced(76, 46, 56));
}

#[test]
fn between_and_behind_older_stops(rt: HostRuntime) -> Result<(), Fail> {
    check_older(&rt, &first(&rt, rt.alloc(), 2, 0)?);
    Ok(())
}

/// No pair of places, since the dropoff goes before the pickup, or one of them behind the end.
fn check_no_pairs(rt: &impl Abort, schedule: &Schedule)
    requires { length schedule.now.stops ≡ 2 }
{
    let turned = second_price(schedule, &before_another(10, 10, 0), at(1, 0));
    assert_eq!(rt; turned, None);
    let at_last = second_price(schedule, &before_another(10, 10, 0), at(2, 1));
    assert_eq!(rt; at_last, None);
    let past_the_end = second_price(schedule, &around_others(10, 10, 0), at(1, 3));
    assert_eq!(rt; past_the_end, None);
    let both_past_the_end = second_price(schedule, &at_the_end(10, 10), at(3, 3));
    assert_eq!(rt; both_past_the_end, None);
}

#[test]
fn other_places_have_no_price(rt: HostRuntime) -> Result<(), Fail> {
    check_no_pairs(&rt, &first(&rt, rt.alloc(), 2, 0)?);
    Ok(())
}

/// The price of a request that came at the time 5, while the vehicle was under way to node 2, from there to 1.
fn price_under_way(schedule: &Schedule, spans: &Spans, at: Insertion) -> Option<Priced>
    requires two { length schedule.now.stops ≡ 2 }
    requires spans { AreSpans 2 at spans.now }
{
    let request = ride(2, TWO, ONE, 5);
    price(
        schedule,
        &front(TWO, 10, 10),
        &Params::usual(),
        &request,
        10,
        spans,
        at,
    )
}

fn check_under_way(rt: &impl Abort, schedule: &Schedule)
    requires { length schedule.now.stops ≡ 2 }
{
    let before_older = price_under_way(schedule, &around_others(0, 0, 30), at(0, 2));
    assert_eq!(rt; before_older, priced(61, 12, 64));
    let behind_older = price_under_way(schedule, &around_others(0, 20, 30), at(1, 2));
    assert_eq!(rt; behind_older, priced(61, 12, 64));
    let at_last = price_under_way(schedule, &at_the_end(20, 10), at(2, 2));
    assert_eq!(rt; at_last, priced(96, 56, 66));
}

#[test]
fn from_the_front_under_way(rt: HostRuntime) -> Result<(), Fail> {
    check_under_way(&rt, &first(&rt, rt.alloc(), 2, 0)?);
    Ok(())
}

#[test]
fn a_late_older_stop_has_no_price(rt: HostRuntime) -> Result<(), Fail> {
    let schedule = first(&rt, rt.alloc(), 2, 0)?;
    let price = second_price(&schedule, &before_another(20, 10, 20), at(0, 0));
    assert_eq!(rt; price, None);
    Ok(())
}

#[test]
fn too_many_riders_have_no_price(rt: HostRuntime) -> Result<(), Fail> {
    let schedule = first(&rt, rt.alloc(), 1, 0)?;
    let price = second_price(&schedule, &before_another(10, 10, 0), at(1, 1));
    assert_eq!(rt; price, None);
    Ok(())
}

/// The price of a second request of so many riders in wheelchair spaces, between the two older stops.
fn price_in_spaces(schedule: &Schedule, spaces: u32) -> Option<Priced>
    requires { length schedule.now.stops ≡ 2 }
{
    let request = ride_in_spaces(2, THREE, FOUR, spaces);
    price_of(schedule, &request, &before_another(10, 10, 0), at(1, 1))
}

#[test]
fn seats_are_no_spaces(rt: HostRuntime) -> Result<(), Fail> {
    let on_seats = first(&rt, rt.alloc(), 1, 0)?;
    assert_eq!(rt; price_in_spaces(&on_seats, 1), priced(10, 24, 34));
    assert_eq!(rt; price_in_spaces(&on_seats, 2), None);
    Ok(())
}

#[test]
fn spaces_are_no_seats(rt: HostRuntime) -> Result<(), Fail> {
    let in_space = first_in_a_space(&rt, rt.alloc(), 1)?;
    let on_a_seat = second_price(&in_space, &before_another(10, 10, 0), at(1, 1));
    assert_eq!(rt; on_a_seat, priced(10, 24, 34));
    assert_eq!(rt; price_in_spaces(&in_space, 1), None);
    Ok(())
}

fn offer(cost: u64, no: u32, i: usize, j: usize) -> Offer {
    Offer {
        cost,
        no: VehicleNo(no),
        place: 0,
        at: at(i, j),
        leave: 12,
        arrive: 32,
    }
}

#[test]
fn offers_are_in_order(rt: HostRuntime) {
    assert!(rt; is_before(&offer(12, 9, 1, 1), &offer(14, 1, 0, 0)));
    assert!(rt; is_before(&offer(34, 1, 5, 5), &offer(34, 2, 0, 0)));
    assert!(rt; is_before(&offer(65, 1, 0, 2), &offer(65, 1, 1, 2)));
    assert!(rt; is_before(&offer(65, 1, 1, 1), &offer(65, 1, 1, 2)));
    assert!(rt; !is_before(&offer(65, 1, 1, 2), &offer(65, 1, 1, 2)));
}

#[test]
fn the_first_of_two_offers_is_taken(rt: HostRuntime) {
    let (first, second) = (offer(34, 1, 5, 5), offer(34, 2, 0, 0));
    assert_eq!(rt; first_of_two(Some(second), Some(first)), Some(first));
    assert_eq!(rt; first_of_two(Some(first), Some(second)), Some(first));
    assert_eq!(rt; first_of_two(None, Some(second)), Some(second));
    assert_eq!(rt; first_of_two(Some(second), None), Some(second));
    assert_eq!(rt; first_of_two(None, None), None);
}

fn is_shared(alloc: Global, decision: &Decision) -> Result<bool, NoMemory> {
    Ok(decision.share(alloc)? == *decision)
}

#[test]
fn a_decision_is_shared(rt: HostRuntime) -> Result<(), Fail> {
    let decision = Decision::Assigned(Assigned {
        offer: offer(34, 1, 0, 0),
        walks: first_walks(&rt, rt.alloc())?,
    });
    assert!(rt; is_shared(rt.alloc(), &decision)?);
    Ok(())
}

#[test]
fn nobody_is_shared(rt: HostRuntime) -> Result<(), Fail> {
    assert!(rt; is_shared(rt.alloc(), &Decision::Nobody)?);
    Ok(())
}
