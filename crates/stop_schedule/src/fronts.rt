ghost use Rattle.std.specs.Prelude.{◌≡◌, ℕ, ◌+◌, ◌<◌, ◌≤◌, length, slice_index};
ghost use Rattle.road_graph.specs.Limits.{far};
ghost use Rattle.road_graph.specs.Paths.{length_of};
ghost use Rattle.stop_schedule.specs.Fronts.{front_of, first_reached, IsAhead};
ghost use Rattle.stop_schedule.specs.Keeping.{IsOverAGraph};
ghost use Rattle.stop_schedule.specs.Limits.{latest_moment, latest_front};

use crate::schedule::Schedule;
use crate::stop::Front;
use road_graph::{NodeNo, Walk};

/// The first node of a walk that a vehicle reaches at `now` or later, where it leaves the walk's first node then. It halves what is left.
fn front_on(leg: &Walk, start: NodeNo, departure: u64, now: u64) -> Front
    requires departure { departure ≤ latest_front }
    requires short { length_of leg.now < far }
    requires ahead { now ≤ departure + length_of leg.now }
    ensures value { result ≡ first_reached start departure now leg.now.nodes leg.now.offsets }
    ensures offset { result.offset ≤ length_of leg.now }
{
    let mut first = 0;
    let mut last = leg.nodes().len() - 1;
    while first < last {
        let middle = first + (last - first) / 2;
        if departure + leg.offset(middle) < now {
            first = middle + 1;
        } else {
            last = middle;
        }
    }
    let offset = leg.offset(first);
    Front {
        node: leg.nodes()[first],
        time: departure + offset,
        offset,
    }
}

impl Schedule {
    /// Where and when the vehicle can turn to a new stop, at the clock `now`: at its first node where it has no stop or hasn't left yet,
    /// and else at the first node of its leg that it reaches at `now` or later. With least walks of a graph and a clock of at most
    /// 2^40 the time is at most 2^41.
    pub fn front(&self, now: u64) -> Front
        requires ahead { IsAhead self.now now }
        ensures value { result ≡ front_of self.now now }
        ensures offset { result.offset < far }
        ensures time { now ≤ latest_moment → IsOverAGraph self.now → result.time ≤ latest_front }
    {
        if self.stops().is_empty() || now < self.departure() {
            return Front {
                node: self.place(),
                time: self.departure().max(now),
                offset: 0,
            };
        }
        front_on(self.leg(0), self.place(), self.departure(), now)
    }
}
