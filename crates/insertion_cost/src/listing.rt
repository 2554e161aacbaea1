ghost use Rattle.std.specs.Prelude.{◌≡◌, ℕ, ◌+◌, ◌<◌, ◌≤◌, length, Some, slice_get, slice_index};
ghost use Rattle.road_graph.specs.Limits.{far};
ghost use Rattle.stop_schedule.specs.Bounds.{IsBounded};
ghost use Rattle.stop_schedule.specs.Lists.{IsInsertionInto, unpromised};
ghost use Rattle.insertion_cost.specs.Changes.{new_stops, new_lengths};
ghost use Rattle.insertion_cost.specs.Spans.{AreSpans, lengths_of};

use crate::spans::Spans;
use stop_schedule::{Insertion, Promise, Request, Schedule, Stop, dropoff_stop, pickup_stop};

/// Stop k of the new list, from 0, where the new stops have no limit but the end of service.
pub fn new_stop(schedule: &Schedule, request: &Request, at: Insertion, k: usize) -> Stop
    requires insertion { IsInsertionInto at (length schedule.now.stops) }
    requires stop { k < length schedule.now.stops + 2 }
    ensures value { slice_get
        (new_stops schedule.now.stops schedule.now.until request.now at) k ≡ Some result }
{
    let stops = schedule.stops();
    if k < at.i {
        stops[k]
    } else if k == at.i {
        pickup_stop(request, &unpromised(schedule.until()))
    } else if k <= at.j {
        stops[k - 1]
    } else if k == at.j + 1 {
        dropoff_stop(request, &unpromised(schedule.until()))
    } else {
        stops[k - 2]
    }
}

/// What the riders of a request are held to before they are promised anything: the end of service.
fn unpromised(until: u64) -> Promise
    ensures { result ≡ unpromised until }
{
    Promise {
        pickup: until,
        arrival: until,
    }
}

/// The length of the leg to stop k of the new list, from 0.
pub fn new_length(schedule: &Schedule, spans: &Spans, at: Insertion, k: usize) -> u64
    requires insertion { IsInsertionInto at (length schedule.now.stops) }
    requires spans { AreSpans (length schedule.now.stops) at spans.now }
    requires bounded { IsBounded schedule.now }
    requires stop { k < length schedule.now.stops + 2 }
    ensures value { result
        ≡ slice_index (new_lengths schedule.now.legs at (lengths_of spans.now)) k }
    ensures bound { result < far }
{
    if k < at.i {
        schedule.leg(k).length()
    } else if k == at.i {
        spans.before_pickup
    } else if k == at.i + 1 {
        spans.after_pickup
    } else if k <= at.j {
        schedule.leg(k - 1).length()
    } else if k == at.j + 1 {
        spans.before_dropoff.unwrap()
    } else if k == at.j + 2 {
        spans.after_dropoff.unwrap()
    } else {
        schedule.leg(k - 2).length()
    }
}
