ghost use Rattle.std.specs.Prelude.{◌≡◌, ℕ, ◌+◌, ◌<◌, ◌≤◌, ◌^◌, ◌++◌, ◌↔◌, IsTrue, true, length};
ghost use Rattle.std.specs.Prelude.{flat_map, option_to_list, slice_get, slice_set, IfOk, IsOk};
ghost use Rattle.std.specs.Prelude.{OnOk, OnErr, IfSome};
ghost use Rattle.std.specs.List.{list_any};
ghost use Rattle.board_core.specs.BoardKept.{next_arrival};
ghost use Rattle.board_core.specs.Changes.{AreJoinable, IsChangedTo, IsFrontAt, IsGraphOf};
ghost use Rattle.board_core.specs.Changes.{IsNextStop};
ghost use Rattle.board_core.specs.FleetViews.{cars_of};
ghost use Rattle.board_core.specs.Steps.{is_to_pick_up};
ghost use Rattle.stop_removal.specs.Removals.{AreStopsOf};
ghost use Rattle.stop_schedule.specs.Bounds.{IsBounded};
ghost use Rattle.stop_schedule.specs.Distances.{AreLeastWalks};
ghost use Rattle.stop_schedule.specs.Fleets.{IsChange, OfCar};
ghost use Rattle.stop_schedule.specs.Fronts.{IsAhead};
ghost use Rattle.stop_schedule.specs.Keeping.{IsProper, keeps, picks_up};
ghost use Rattle.stop_schedule.specs.Limits.{latest_front, latest_moment};

use crate::fleet::{Fleet, FleetCar, SharedCar};
use crate::moves::next_arrival;
use ride_base::{NoMemory, RequestNo};
use road_graph::{NodeNo, Steps, Walk};
use std::alloc::Global;
use stop_removal::{Joins, Walker};
use stop_schedule::{FleetIndex, FleetView, Front, Schedule, Stop, StopKind};

/// A vehicle of a fleet with another schedule.
#[derive(Debug, Drop)]
pub(crate) struct Change<I> {
    /// Its place.
    pub(crate) place: usize,
    /// The vehicle.
    pub(crate) car: SharedCar,
    /// When it reaches its next stop.
    pub(crate) next: u64,
    /// The index of the fleet with it.
    pub(crate) index: I,
}

impl<I: FleetIndex + Drop> Fleet<I> {
    /// Where and when the vehicle at a place can turn to a new stop.
    pub(crate) fn front(&self, place: usize) -> Front
        requires place { place < length (cars_of self.now).cars }
        requires kept { OfCar (cars_of self.now) place
            (λ car. keeps self.now.params car.plan ≡ true) }
        requires ahead { OfCar (cars_of self.now) place (λ car. IsAhead car.plan self.now.clock) }
        requires clock { self.now.clock ≤ latest_moment }
        ensures value { IsFrontAt (cars_of self.now) place result }
        ensures time { result.time ≤ latest_front }
        ensures late { self.now.clock ≤ result.time }
        ensures bounded { OfCar (cars_of self.now) place (λ car. IsBounded car.plan) }
    {
        let schedule = self.schedule(place);
        let front = schedule.front(self.clock);
        if schedule.stops().is_empty() {
            return front;
        }
        prove!(front.time <= schedule.departure() + schedule.leg(0).length());
        front
    }

    /// Whether the vehicle at a place, where there is one, is to pick up the riders of a number.
    pub(crate) fn picks_up(&self, place: usize, no: RequestNo) -> bool
        ensures { result ≡ is_to_pick_up no (slice_get (cars_of self.now).cars place) }
    {
        if place >= self.count() {
            return false;
        }
        is_any_pickup(self.schedule(place).stops(), no)
    }

    /// The vehicle at a place with another schedule, and with the next version as its stamp.
    pub(crate) fn change<L>(
        &self,
        alloc: Global,
        place: usize,
        schedule: Schedule,
        steps: &mut Steps<L>,
    ) -> Result<Change<I>, NoMemory>
        requires place { place < length (cars_of self.now).cars }
        requires version { self.now.version < 2 ^ 62 }
        requires change { OfCar (cars_of self.now) place (λ car.
            IsChange (I.fits self.now.index) self.now.params place car.plan schedule) }
        ensures changed { IfOk result (λ c. IsChangedTo (I.fits self.now.index)
            (I.fits c.index) (cars_of self.now) place schedule c.place c.car c.next) }
        ensures steps { steps.old.0 ≤ steps.new.0 }
        ensures asks { steps.new.1 ≡ steps.old.1 }
    {
        let old = self.schedule(place);
        let index = self
            .index
            .moved(alloc, place, old, &schedule, &self.params, steps)?;
        let next = next_arrival(&schedule, &self.params);
        let car = FleetCar {
            no: self.no(place),
            schedule,
            stamp: self.version + 1,
        };
        Ok(Change {
            place,
            car: SharedCar::new(alloc, car)?,
            next,
            index,
        })
    }

    /// Puts a changed vehicle in its place, and raises the version. After an error nothing has changed.
    pub(crate) fn set(&mut self, alloc: Global, change: Change<I>) -> Result<(), NoMemory>
        requires place { change.place < length (cars_of self.old).cars }
        requires version { self.old.version < 2 ^ 62 }
        ensures ok { OnOk result (cars_of self.new ≡ record (cars_of self.old) {
          version = self.old.version + 1;
          cars = slice_set (cars_of self.old).cars change.place change.car;
        }) }
        ensures index { OnOk result (self.new.index ≡ change.index) }
        ensures err { OnErr result (self.new ≡ self.old) }
    {
        self.cars.set(alloc, change.place, change.car)?;
        self.index = change.index;
        self.version += 1;
        Ok(())
    }
}

/// Whether one of the stops picks up the riders of a number.
fn is_any_pickup(stops: &[Stop], no: RequestNo) -> bool
    ensures { result ≡ list_any (picks_up no) stops.now }
{
    for stop in stops {
        if is_pickup(stop, no) {
            return true;
        }
    }
    false
}

/// Whether a stop picks up the riders of a number.
fn is_pickup(stop: &Stop, no: RequestNo) -> bool
    ensures { result ≡ picks_up no stop.now }
{
    stop.kind == StopKind::Pickup && stop.no == no
}

/// The positions, from 1, of the pickup of a number and of its dropoff.
pub(crate) fn stops_of(schedule: &Schedule, no: RequestNo) -> (usize, usize)
    requires proper { IsProper schedule.now }
    requires some { list_any (picks_up no) schedule.now.stops ≡ true }
    ensures stops { AreStopsOf no schedule.now.stops result.0 result.1 }
    ensures to_last { result.1 ≤ length schedule.now.stops }
{
    let stops = schedule.stops();
    let pickup = next_stop(stops, 0, StopKind::Pickup, no);
    (pickup, next_stop(stops, pickup, StopKind::Dropoff, no))
}

/// The position, from 1, of the first stop of this kind and number behind another position, or behind the start for 0.
fn next_stop(stops: &[Stop], from: usize, kind: StopKind, no: RequestNo) -> usize
    requires { (at : ℕ) × IsNextStop stops.now kind no from at }
    ensures stop { IsNextStop stops.now kind no from result }
    ensures to_last { result ≤ length stops.now }
{
    for k in from..stops.len() {
        if is_of(&stops[k], kind, no) {
            return k + 1;
        }
    }
    unreachable!()
}

/// Whether a stop is of this kind and number.
fn is_of(stop: &Stop, kind: StopKind, no: RequestNo) -> bool
    ensures { IsTrue result ↔ ((stop.now.kind ≡ kind) × (stop.now.no ≡ no)) }
{
    stop.kind == kind && stop.no == no
}

/// Least walks between both ends of each pair that there is.
pub(crate) fn joined<W: Walker, L>(
    alloc: Global,
    walker: &W,
    ends: [Option<(NodeNo, NodeNo)>; 2],
    steps: &mut Steps<L>,
) -> Result<Joins, NoMemory>
    requires { AreJoinable (W.graph walker.now) (flat_map option_to_list ends) }
    ensures walks { IfOk result
        (AreLeastWalks (W.graph walker.now) (flat_map option_to_list ends)) }
    ensures graph { IsOk result → IsGraphOf (W.graph walker.now) (flat_map option_to_list ends) }
    ensures steps { steps.old.0 ≤ steps.new.0 }
    ensures asks { steps.new.1 ≡ steps.old.1 }
{
    let [first, second] = ends;
    let mut walks = Joins::new(alloc);
    add(&mut walks, join(alloc, walker, first, steps)?);
    add(&mut walks, join(alloc, walker, second, steps)?);
    Ok(walks)
}

/// A least walk between both ends, where there are any.
fn join<W: Walker, L>(
    alloc: Global,
    walker: &W,
    ends: Option<(NodeNo, NodeNo)>,
    steps: &mut Steps<L>,
) -> Result<Option<Walk>, NoMemory>
    requires { AreJoinable (W.graph walker.now) (option_to_list ends) }
    ensures walk { IfOk result (λ walk.
        AreLeastWalks (W.graph walker.now) (option_to_list ends) (option_to_list walk)) }
    ensures graph { IsOk result → IsGraphOf (W.graph walker.now) (option_to_list ends) }
    ensures steps { steps.old.0 ≤ steps.new.0 }
    ensures asks { steps.new.1 ≡ steps.old.1 }
{
    let Some((from, to)) = ends else {
        return Ok(None);
    };
    match walker.least(alloc, from, to, steps)? {
        Some(walk) => Ok(Some(walk)),
        None => unreachable!(),
    }
}

/// Puts a walk at the end, where there is one.
fn add(walks: &mut Joins, walk: Option<Walk>)
    requires { length walks.old < 2 }
    ensures { walks.new ≡ walks.old ++ option_to_list walk }
{
    if let Some(walk) = walk {
        walks.push(walk);
    }
}
