ghost use Rattle.std.specs.Prelude.{◌≡◌, ℕ, ◌+◌, ◌<◌, ◌≤◌, ◌⊎◌, List, length, IfOk, slice_get, Some};
ghost use Rattle.road_graph.specs.Limits.{far};
ghost use Rattle.road_graph.specs.Paths.{Path, length_of};
ghost use Rattle.stop_schedule.specs.Bounds.{IsBounded, AreSmallStops, AreShortLegs};
ghost use Rattle.stop_schedule.specs.Limits.{latest_moment, latest_front, end_of_time, most_stops, most_riders};
ghost use Rattle.stop_schedule.specs.Lists.{AreAsMany, IsInsertionInto, inserted_in, started};
ghost use Rattle.stop_schedule.specs.Plans.{opening_of, of_parts, course_of, halt_at};
ghost use Rattle.stop_schedule.specs.Times.{departs, arrives, taking, aboard, aboard_before};
ghost use Rattle.stop_schedule.specs.declared.stop.SeatKind.TheVariants.{Seat, Space};
ghost use Rattle.stop_schedule.specs.declared.stop.Stop.{Stop};

use crate::insert::{dropoff_stop, legs_with, pickup_stop, shares, stops_with};
use crate::params::Params;
use crate::request::Request;
use crate::stop::{Front, Insertion, Promise, SeatKind, Start, Stop, StopKind};
use crate::vehicle::Vehicle;
use crate::walks::NewWalks;
use ride_base::{Items, NoMemory};
use road_graph::{NodeNo, Walk};
use std::alloc::Global;
use std::marker::Model;

/// The schedule of a vehicle: a node that it leaves at a fixed time, and at most 64 stops after it, each with the walk that leads
/// to it. Times are in the units of the roads' weights, and every one is below 2^60.
#[derive(Debug, PartialEq, Eq, Drop)]
pub struct Schedule {
    seats: u32,
    spaces: u32,
    until: u64,
    place: NodeNo,
    departure: u64,
    halt: bool,
    stops: Items<Stop>,
    legs: Items<Walk>,
}

impl Model for Schedule {
    ghost use Rattle.stop_schedule.specs.Plans.{Plan};

    ghost Value = { Plan };

    ghost use Rattle.stop_schedule.specs.Bounds.{IsBounded};
    ghost use Rattle.stop_schedule.specs.ScheduleFields.{fields_of, plan_in};

    ghost view = { plan_in };

    ghost inverse = { fields_of };

    ghost invariant = { λ s. IsBounded (plan_in s) };
}

impl Schedule {
    /// The schedule of a vehicle that has no stop yet: it leaves its start when its service begins.
    pub fn opening(alloc: Global, vehicle: &Vehicle) -> Schedule
        requires from { vehicle.now.from ≤ latest_moment }
        requires until { vehicle.now.until ≤ latest_moment }
        ensures { result ≡ opening_of vehicle.now }
    {
        Schedule {
            seats: vehicle.seats,
            spaces: vehicle.spaces,
            until: vehicle.until,
            place: vehicle.start,
            departure: vehicle.from,
            halt: false,
            stops: Items::new(alloc),
            legs: Items::new(alloc),
        }
    }

    /// The schedule of these parts, with the seats, the spaces and the end of service of another one. Its legs are equal walks.
    pub fn from_parts(
        alloc: Global,
        like: &Schedule,
        node: NodeNo,
        departure: u64,
        halt: bool,
        stops: &[Stop],
        legs: &[Walk],
    ) -> Result<Schedule, NoMemory>
        requires few { length stops.now ≤ most_stops }
        requires as_many { length legs.now ≡ length stops.now }
        requires departure { departure ≤ latest_front }
        requires small { AreSmallStops stops.now }
        requires short { AreShortLegs legs.now }
        ensures { IfOk result
            (λ s. s ≡ of_parts like.now node departure halt stops.now legs.now) }
    {
        let start = Start {
            node,
            departure,
            halt,
        };
        let stops = Items::from_slice(alloc, stops)?;
        Ok(like.with_lists(&start, stops, shares(alloc, legs)?))
    }

    /// The schedule of the same vehicle that starts there, with these stops and legs. It takes no memory.
    pub fn with_lists(&self, start: &Start, stops: Items<Stop>, legs: Items<Walk>) -> Schedule
        requires few { length stops ≤ most_stops }
        requires as_many { length legs ≡ length stops }
        requires departure { start.now.departure ≤ latest_front }
        requires small { AreSmallStops stops }
        requires short { AreShortLegs legs }
        ensures { result ≡
            of_parts self.now start.now.node start.now.departure start.now.halt stops legs }
    {
        Schedule {
            seats: self.seats,
            spaces: self.spaces,
            until: self.until,
            place: start.node,
            departure: start.departure,
            halt: start.halt,
            stops,
            legs,
        }
    }

    /// The node from which the vehicle drives to its first stop.
    pub fn place(&self) -> NodeNo
        ensures { result ≡ self.now.place }
    {
        self.place
    }

    /// When it leaves that node, at most 2^41.
    pub fn departure(&self) -> u64
        ensures value { result ≡ self.now.departure }
        ensures bound { result ≤ latest_front }
    {
        self.departure
    }

    /// Whether it halts there, since it stopped there, so that a first stop there takes no time.
    pub fn halt(&self) -> bool
        ensures { result ≡ self.now.halt }
    {
        self.halt
    }

    /// The node where it halts before the stop after stop i, from 0, if it does.
    pub fn halt_at(&self, i: usize) -> Option<NodeNo>
        requires { i ≤ length self.now.stops }
        ensures { result ≡ halt_at (course_of self.now) i }
    {
        if i > 0 {
            Some(self.stops()[i - 1].node)
        } else if self.halt {
            Some(self.place)
        } else {
            None
        }
    }

    /// Where the new list starts: at the front where the pickup comes first, and else where the old one does.
    pub fn start(&self, front: &Front, at: Insertion) -> Start
        requires { front.now.time ≤ latest_front }
        ensures node { result.node ≡ (started at front.now self.now).place }
        ensures departure { result.departure ≡ (started at front.now self.now).departure }
        ensures halt { result.halt ≡ (started at front.now self.now).halt }
        ensures bound { result.departure ≤ latest_front }
    {
        if at.i == 0 {
            Start {
                node: front.node,
                departure: front.time,
                halt: self.halt && front.time == self.departure,
            }
        } else {
            Start {
                node: self.place,
                departure: self.departure,
                halt: self.halt,
            }
        }
    }

    /// How many riders fit on seats.
    pub fn seats(&self) -> u32
        ensures { result ≡ self.now.seats }
    {
        self.seats
    }

    /// How many wheelchairs fit.
    pub fn spaces(&self) -> u32
        ensures { result ≡ self.now.spaces }
    {
        self.spaces
    }

    /// When the last stop has to be left at the latest.
    pub fn until(&self) -> u64
        ensures { result ≡ self.now.until }
    {
        self.until
    }

    /// The stops in order.
    pub fn stops(&self) -> &[Stop]
        ensures value { result.now ≡ self.now.stops }
        ensures bounded { IsBounded self.now }
    {
        self.stops.as_slice()
    }

    /// The legs in order: leg i leads from stop i to stop i + 1, where stop 0 is the start.
    pub fn legs(&self) -> &[Walk]
        ensures value { result.now ≡ self.now.legs }
        ensures bounded { IsBounded self.now }
    {
        self.legs.as_slice()
    }

    /// The walk from stop i to stop i + 1, where stop 0 is the node from which the vehicle drives.
    pub fn leg(&self, i: usize) -> &Walk
        requires { i < length self.now.stops }
        ensures value { slice_get self.now.legs i ≡ Some result.now }
        ensures bound { length_of result.now < far }
    {
        &self.legs.as_slice()[i]
    }

    /// When stop i is reached, for i from 1 to the number of stops.
    pub fn arr(&self, params: &Params, i: usize) -> u64
        requires from_first { 1 ≤ i }
        requires to_last { i ≤ length self.now.stops }
        ensures value { result ≡ arrives params.now.stop (course_of self.now) i }
        ensures bound { result < end_of_time }
    {
        self.dep(params, i - 1) + self.leg(i - 1).length()
    }

    /// When stop i is left, for i from 0 to the number of stops.
    pub fn dep(&self, params: &Params, i: usize) -> u64
        requires { i ≤ length self.now.stops }
        ensures value { result ≡ departs params.now.stop (course_of self.now) i }
        ensures bound { result + far ≤ end_of_time }
    {
        let mut departure = self.departure;
        let mut halt = self.halt_at(0);
        for k in 0..i {
            let stop = self.stops()[k];
            let reached = departure + self.leg(k).length();
            departure = (reached + params.stop_at(halt, stop.node)).max(stop.ready);
            halt = Some(stop.node);
        }
        departure
    }

    /// The schedule, of 62 stops at most, with the request's pickup after stop i and its dropoff after stop j, both with the limits
    /// that are promised. The walks are those of the changed legs, in rising order; where the pickup comes first, the vehicle starts
    /// from its front.
    pub fn inserted(
        &self,
        alloc: Global,
        front: &Front,
        request: &Request,
        at: Insertion,
        promise: &Promise,
        walks: &NewWalks,
    ) -> Result<Schedule, NoMemory>
        requires room { length self.now.stops + 2 ≤ most_stops }
        requires insertion { IsInsertionInto at (length self.now.stops) }
        requires as_many { AreAsMany self.now.stops front.now request.now at walks.now }
        requires short { AreShortLegs walks.now }
        requires time { front.now.time ≤ latest_front }
        requires moment { request.now.moment ≤ latest_moment }
        requires riders { request.now.riders ≤ most_riders }
        requires spaces { request.now.spaces ≤ most_riders }
        requires pickup { promise.now.pickup < end_of_time }
        requires arrival { promise.now.arrival < end_of_time }
        ensures { IfOk result
            (λ s. s ≡ inserted_in self.now front.now request.now at promise.now walks.now) }
    {
        let pickup = pickup_stop(request, promise);
        let dropoff = dropoff_stop(request, promise);
        let stops = stops_with(alloc, self.stops.as_slice(), at, pickup, dropoff)?;
        let legs = legs_with(alloc, self.legs.as_slice(), at, walks.as_slice())?;
        let start = self.start(front, at);
        Ok(Schedule {
            seats: self.seats,
            spaces: self.spaces,
            until: self.until,
            place: start.node,
            departure: start.departure,
            halt: start.halt,
            stops,
            legs,
        })
    }

    /// An equal schedule.
    pub fn share(&self, alloc: Global) -> Result<Schedule, NoMemory>
        ensures { IfOk result (λ s. s ≡ self.now) }
    {
        Ok(Schedule {
            seats: self.seats,
            spaces: self.spaces,
            until: self.until,
            place: self.place,
            departure: self.departure,
            halt: self.halt,
            stops: Items::from_slice(alloc, self.stops.as_slice())?,
            legs: shares(alloc, self.legs.as_slice())?,
        })
    }

    /// How many riders are aboard on seats on leg i, from 0.
    pub fn aboard(&self, i: usize) -> u32
        requires { i < length self.now.stops }
        ensures { result ≡ aboard Seat self.now.stops i }
    {
        riders_before(&self.stops()[i..], SeatKind::Seat)
    }

    /// How many riders are aboard in wheelchair spaces on leg i, from 0.
    pub fn aboard_spaces(&self, i: usize) -> u32
        requires { i < length self.now.stops }
        ensures { result ≡ aboard Space self.now.stops i }
    {
        riders_before(&self.stops()[i..], SeatKind::Space)
    }
}

/// The riders of this kind of seat who get off at these stops, less those who get on.
fn riders_before(stops: &[Stop], seat: SeatKind) -> u32
    requires few { length stops.now ≤ most_stops }
    requires small { AreSmallStops stops.now }
    ensures { result ≡ aboard_before seat stops.now }
{
    let mut off = 0;
    let mut on = 0;
    for stop in stops {
        match stop.kind {
            StopKind::Pickup => on += stop.taking(seat),
            StopKind::Dropoff => off += stop.taking(seat),
        }
    }
    off.saturating_sub(on)
}
