ghost use Rattle.std.specs.Prelude.{◌≡◌, ℕ, ◌*◌, ◌<◌, ◌≤◌, length};
ghost use Rattle.stop_schedule.specs.Ahead.{is_kept_from, keeps_reaching, keeps_leaving, is_left_by};
ghost use Rattle.stop_schedule.specs.Limits.{end_of_time};

use crate::params::Params;
use crate::schedule::Schedule;
use crate::stop::{Stop, StopKind};

/// Whether a stop that is left then keeps its latest pickup, where it is one.
fn is_left_in_time(stop: &Stop, departure: u64) -> bool
    ensures { result ≡ is_left_by stop.now stop.now.kind departure }
{
    match stop.kind {
        StopKind::Pickup => departure <= stop.limit,
        StopKind::Dropoff => true,
    }
}

impl Schedule {
    /// Whether reaching stop i, from 1, at a time below 2^60 keeps each promise from it on and the end of service.
    pub fn keeps(&self, params: &Params, i: usize, arrival: u64) -> bool
        requires from_first { 1 ≤ i }
        requires to_last { i ≤ length self.now.stops }
        requires early { arrival < end_of_time }
        ensures { result ≡ keeps_reaching params.now self.now i arrival }
    {
        let stop = self.stops()[i - 1];
        let takes = params.stop_at(self.halt_at(i - 1), stop.node);
        let departure = (arrival + takes).max(stop.ready);
        stop.kept_time(arrival, departure) <= stop.limit && self.is_kept_from(params, i, departure)
    }

    /// Whether leaving stop i, from 1, at a time below 2^60 keeps its latest pickup, where it is one, each promise after it and the
    /// end of service.
    pub fn keeps_leaving(&self, params: &Params, i: usize, departure: u64) -> bool
        requires from_first { 1 ≤ i }
        requires to_last { i ≤ length self.now.stops }
        requires early { departure < end_of_time }
        ensures { result ≡ keeps_leaving params.now self.now i departure }
    {
        is_left_in_time(&self.stops()[i - 1], departure) && self.is_kept_from(params, i, departure)
    }

    /// Whether leaving stop i, from 0, then keeps each promise after it and the end of service.
    fn is_kept_from(&self, params: &Params, i: usize, departure: u64) -> bool
        requires within { i ≤ length self.now.stops }
        requires early { departure < 2 * end_of_time }
        ensures { result ≡ is_kept_from params.now self.now i departure }
    {
        let mut departure = departure;
        let mut halt = self.halt_at(i);
        for k in i..self.stops().len() {
            let stop = self.stops()[k];
            let reached = departure + self.leg(k).length();
            departure = (reached + params.stop_at(halt, stop.node)).max(stop.ready);
            if stop.kept_time(reached, departure) > stop.limit {
                return false;
            }
            halt = Some(stop.node);
        }
        departure <= self.until()
    }
}
