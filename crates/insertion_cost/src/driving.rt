ghost use Rattle.std.specs.Prelude.{◌≡◌, ℕ, ◌+◌, ◌-◌, ◌<◌, ◌≤◌, ◌^◌, List, length, IfSome, IfNone, Some, slice_get, nat_le, true, false, ◌==◌, if◌then◌else◌};
ghost use Rattle.stop_schedule.specs.Times.{taking, getting_on, getting_off};
ghost use Rattle.stop_schedule.specs.Keeping.{is_feasible};
ghost use Rattle.stop_schedule.specs.declared.stop.Stop.{Stop};
ghost use Rattle.insertion_cost.specs.Changes.{party, boarding, alighting};
ghost use Rattle.stop_schedule.specs.Limits.{latest_front, end_of_time};
ghost use Rattle.insertion_cost.specs.Spans.{AreSpans, lengths_of};
ghost use Rattle.insertion_cost.specs.Drives.{IsDriven};
ghost use Rattle.stop_schedule.specs.Lists.{IsInsertionInto};

use crate::listing::{new_length, new_stop};
use crate::spans::Spans;
use stop_schedule::{
    Front, Insertion, MOST_STOPS, Params, Request, Schedule, SeatKind, Stop, StopKind,
};

/// How a vehicle goes along a new list that is feasible.
#[derive(Clone, Copy, Debug)]
pub struct Drive {
    /// The lengths of all legs and the times of all stops together.
    pub busy_time: u64,
    /// When the pickup is left.
    pub leave: u64,
    /// When the dropoff is reached.
    pub arrive: u64,
}

/// The riders who take one kind of seat and get on, and those who get off, at stops to come.
#[derive(Clone, Copy, Debug)]
pub struct Riders {
    /// How many get on.
    pub on: u64,
    /// How many get off.
    pub off: u64,
}

/// Drives along the new list, and stops at the first stop where too many are aboard, an older limit is broken or service is over.
pub fn drive_along(
    schedule: &Schedule,
    front: &Front,
    params: &Params,
    request: &Request,
    spans: &Spans,
    at: Insertion,
) -> Option<Drive>
    requires insertion { IsInsertionInto at (length schedule.now.stops) }
    requires spans { AreSpans (length schedule.now.stops) at spans.now }
    requires front { front.now.time ≤ latest_front }
    ensures none { IfNone result (is_feasible params.now schedule.now front.now request.now at
        (lengths_of spans.now) ≡ false) }
    ensures some { IfSome result
        (IsDriven params.now schedule.now front.now request.now at (lengths_of spans.now)) }
{
    let count = schedule.stops().len() + 2;
    if count > MOST_STOPS {
        return None;
    }
    let start = schedule.start(front, at);
    let mut departure = start.departure;
    let mut halt = start.halts_at();
    let mut on_seats = riders_of(schedule.stops(), request, SeatKind::Seat);
    let mut in_spaces = riders_of(schedule.stops(), request, SeatKind::Space);
    let mut drive = Drive {
        busy_time: 0,
        leave: 0,
        arrive: 0,
    };
    for k in 0..count {
        let stop = new_stop(schedule, request, at, k);
        let length = new_length(schedule, spans, at, k);
        let takes = params.stop_at(halt, stop.node);
        let arrival = departure + length;
        departure = (arrival + takes).max(stop.ready);
        if on_seats.aboard() > u64::from(schedule.seats())
            || in_spaces.aboard() > u64::from(schedule.spaces())
            || departure > schedule.until()
            || stop.kept_time(arrival, departure) > stop.limit
        {
            return None;
        }
        on_seats = on_seats.past(&stop, SeatKind::Seat);
        in_spaces = in_spaces.past(&stop, SeatKind::Space);
        halt = Some(stop.node);
        drive = drive.with_leg(at, k, length + takes, arrival, departure);
    }
    Some(drive)
}

impl Drive {
    /// With the leg to stop k of the new list, from 0, and that stop, which take so long together, and which is reached and left then.
    fn with_leg(&self, at: Insertion, k: usize, takes: u64, arrival: u64, departure: u64) -> Drive
        requires busy_time { self.now.busy_time + takes < 2 ^ 60 }
        requires dropoff { at.j < 2 ^ 60 }
        ensures busy_time { result.busy_time ≡ self.now.busy_time + takes }
        ensures leave { result.leave ≡ (if k == at.i then departure else self.now.leave) }
        ensures arrive { result.arrive ≡ (if k == at.j + 1 then arrival else self.now.arrive) }
    {
        Drive {
            busy_time: self.busy_time + takes,
            leave: if k == at.i { departure } else { self.leave },
            arrive: if k == at.j + 1 { arrival } else { self.arrive },
        }
    }
}

/// How many of a request's riders take this kind of seat.
fn party(request: &Request, seat: SeatKind) -> u32
    ensures { result ≡ party seat request.now }
{
    match seat {
        SeatKind::Seat => request.riders,
        SeatKind::Space => request.spaces,
    }
}

/// The riders who take this kind of seat and get on and off at the stops of a list with a request added.
fn riders_of(stops: &[Stop], request: &Request, seat: SeatKind) -> Riders
    requires few { length stops.now ≤ 64 }
    requires small { (k : ℕ) (s : Stop) → slice_get stops.now k ≡ Some s → taking seat s ≤ 16 }
    ensures on { result.on ≡ boarding seat stops.now + party seat request.now }
    ensures off { result.off ≡ alighting seat stops.now + party seat request.now }
{
    let own = u64::from(party(request, seat));
    let mut riders = Riders { on: own, off: own };
    for stop in stops {
        riders = riders.with(stop, seat);
    }
    riders
}

impl Riders {
    /// How many are aboard: those who get off and don't get on before.
    fn aboard(&self) -> u64
        ensures { result ≡ self.now.off - self.now.on }
    {
        self.off.saturating_sub(self.on)
    }

    /// Those and the riders of one more stop.
    pub fn with(&self, stop: &Stop, seat: SeatKind) -> Riders
        requires on { self.now.on < 2 ^ 60 }
        requires off { self.now.off < 2 ^ 60 }
        ensures on { result.on ≡ self.now.on + getting_on seat stop.now stop.now.kind }
        ensures off { result.off ≡ self.now.off + getting_off seat stop.now stop.now.kind }
    {
        let riders = u64::from(stop.taking(seat));
        match stop.kind {
            StopKind::Pickup => Riders {
                on: self.on + riders,
                off: self.off,
            },
            StopKind::Dropoff => Riders {
                on: self.on,
                off: self.off + riders,
            },
        }
    }

    /// Those who are left after a stop.
    fn past(&self, stop: &Stop, seat: SeatKind) -> Riders
        requires on { getting_on seat stop.now stop.now.kind ≤ self.now.on }
        requires off { getting_off seat stop.now stop.now.kind ≤ self.now.off }
        ensures on { result.on ≡ self.now.on - getting_on seat stop.now stop.now.kind }
        ensures off { result.off ≡ self.now.off - getting_off seat stop.now stop.now.kind }
    {
        let riders = u64::from(stop.taking(seat));
        match stop.kind {
            StopKind::Pickup => Riders {
                on: self.on - riders,
                off: self.off,
            },
            StopKind::Dropoff => Riders {
                on: self.on,
                off: self.off - riders,
            },
        }
    }
}
