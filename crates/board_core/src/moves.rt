ghost use Rattle.std.specs.Prelude.{◌≡◌, ℕ, ◌+◌, ◌<◌, ◌≤◌, ◌^◌, ◌++◌, true, length, map, slice_get};
ghost use Rattle.std.specs.Prelude.{IfOk, IsOk, OnOk, OnErr};
ghost use Rattle.board_core.specs.BoardCalls.{FitsOn};
ghost use Rattle.board_core.specs.BoardKept.{IsKeptFleet, next_arrival};
ghost use Rattle.board_core.specs.BoardViews.{board_of, Enters};
ghost use Rattle.board_core.specs.Changes.{AreMovedFrom, FitsLater, IsReachedBy, MayAdvance};
ghost use Rattle.board_core.specs.FleetViews.{cars_of};
ghost use Rattle.board_core.specs.Steps.{moved_car, served_in, served_with};
ghost use Rattle.board_core.specs.declared.entry.Entry.TheVariants as entry;
ghost use Rattle.stop_schedule.specs.Fleets.{Car};
ghost use Rattle.stop_schedule.specs.Keeping.{keeps};
ghost use Rattle.stop_schedule.specs.Limits.{latest_moment};

use crate::arrivals::{Arrivals, NEVER};
use crate::board::Board;
use crate::entry::Advanced;
use crate::fleet::{Fleet, FleetCar, SharedCar};
use ride_base::{Items, NoMemory, VehicleNo};
use road_graph::Steps;
use std::alloc::Global;
use stop_advance::{Served, advanced};
use stop_schedule::{FleetIndex, FleetView, Params, Schedule};
use version_array::VersionArray;

/// The vehicles of a fleet at a later clock, their index, and the stops that they reached by then.
#[derive(Debug, Drop)]
pub(crate) struct Moved<I> {
    pub(crate) cars: VersionArray<SharedCar>,
    pub(crate) index: I,
    pub(crate) served: Items<(VehicleNo, Served)>,
}

/// When the vehicle reaches its next stop.
pub(crate) fn next_arrival(schedule: &Schedule, params: &Params) -> u64
    ensures { result ≡ next_arrival params.now schedule.now }
{
    if schedule.stops().is_empty() {
        NEVER
    } else {
        schedule.arr(params, 1)
    }
}

/// Sets the next arrivals of the vehicles that reached a stop by then.
pub(crate) fn renew(
    arrivals: &mut Arrivals,
    cars: &VersionArray<SharedCar>,
    params: &Params,
    now: u64,
)
    requires moved { AreMovedFrom params.now now cars.now arrivals.old }
    requires now { now ≤ latest_moment }
    ensures { arrivals.new ≡ map (λ car. next_arrival params.now car.plan) cars.now }
{
    let mut from = 0;
    'renewing: while let Some(place) = arrivals.first_from(from, now) {
        prove!(place < cars.len());
        arrivals.set(place, next_arrival(&cars.get(place).car().schedule, params));
        from = place + 1;
    }
}

impl<I: FleetIndex + Drop> Fleet<I> {
    /// The vehicles at a later clock. None is touched but those that reach a stop by then.
    pub(crate) fn moved<L>(
        &self,
        alloc: Global,
        arrivals: &Arrivals,
        now: u64,
        steps: &mut Steps<L>,
    ) -> Result<Moved<I>, NoMemory>
        requires kept { (nodes : ℕ)
            × IsKeptFleet (I.fits self.now.index) nodes (cars_of self.now) arrivals.now }
        requires version { self.now.version < 2 ^ 62 }
        requires now { now ≤ latest_moment }
        ensures cars { IfOk result (λ moved. moved.cars ≡
            map (moved_car self.now.params (self.now.version + 1) now) self.now.cars) }
        ensures served { IfOk result (λ moved. moved.served ≡ served_in (cars_of self.now) now) }
        ensures index { IfOk result (λ moved.
            FitsLater (I.fits self.now.index) (I.fits moved.index) (cars_of self.now) now) }
        ensures steps { steps.old.0 ≤ steps.new.0 }
        ensures asks { steps.new.1 ≡ steps.old.1 }
    {
        let mut moved = Moved {
            cars: self.cars.share()?,
            index: self.index.share(alloc)?,
            served: Items::new(alloc),
        };
        let mut from = 0;
        'reaching: while let Some(place) = arrivals.first_from(from, now) {
            moved.reach(alloc, place, &self.params, now, self.version + 1, steps)?;
            from = place + 1;
        }
        Ok(moved)
    }
}

impl<I: FleetIndex + Drop> Moved<I> {
    /// Moves the vehicle at a place, which reaches a stop, and gives it a stamp.
    fn reach<L>(
        &mut self,
        alloc: Global,
        place: usize,
        params: &Params,
        now: u64,
        stamp: u64,
        steps: &mut Steps<L>,
    ) -> Result<(), NoMemory>
        requires place { place < length self.old.cars }
        requires kept { (car : Car) → slice_get self.old.cars place ≡ Some car
            → keeps params.now car.plan ≡ true }
        requires change { (car : Car) → slice_get self.old.cars place ≡ Some car
            → MayAdvance (I.fits self.old.index) params.now now place car }
        ensures ok { OnOk result ((car : Car) → slice_get self.old.cars place ≡ Some car
            → IsReachedBy (I.fits self.old.index) (I.fits self.new.index) params.now now
            stamp place car self.old.cars self.new.cars self.old.served self.new.served) }
        ensures steps { steps.old.0 ≤ steps.new.0 }
        ensures asks { steps.new.1 ≡ steps.old.1 }
    {
        let old = self.cars.get(place).car();
        let no = old.no;
        let (schedule, served) = advanced(alloc, &old.schedule, params, now)?;
        let index = self
            .index
            .moved(alloc, place, &old.schedule, &schedule, params, steps)?;
        add_served(&mut self.served, no, served.as_slice())?;
        let car = FleetCar {
            no,
            schedule,
            stamp,
        };
        self.cars.set(alloc, place, SharedCar::new(alloc, car)?)?;
        self.index = index;
        Ok(())
    }
}

/// Puts the stops of a vehicle at the end.
fn add_served(
    all: &mut Items<(VehicleNo, Served)>,
    no: VehicleNo,
    served: &[Served],
) -> Result<(), NoMemory>
    ensures { OnOk result (all.new ≡ all.old ++ served_with no served.now) }
{
    for stop in served {
        all.push((no, *stop))?;
    }
    Ok(())
}

impl<I: FleetIndex + Drop> Board<I> {
    /// Moves the clock to a moment, at most 2^40, in the units of the roads' weights: every stop that is reached by then is served, and
    /// no vehicle is touched but those that reach one. A moment behind the clock changes nothing but the version. After an error nothing
    /// has changed.
    pub fn advance<L>(
        &mut self,
        alloc: Global,
        now: u64,
        steps: &mut Steps<L>,
    ) -> Result<Advanced, NoMemory>
        requires version { (board_of self.old).fleet.version < 2 ^ 62 }
        requires moment { now ≤ latest_moment }
        ensures ok { IfOk result (λ advanced.
            Enters (board_of self.old) (entry.Advance now advanced) (board_of self.new)) }
        ensures index { IsOk result → FitsOn (I.fits self.old.fleet.index)
            (I.fits self.new.fleet.index) (board_of self.old) (board_of self.new) }
        ensures err { OnErr result (self.new ≡ self.old) }
        ensures steps { steps.old.0 ≤ steps.new.0 }
        ensures asks { steps.new.1 ≡ steps.old.1 }
    {
        if now < self.fleet.clock {
            self.fleet.version += 1;
            return Ok(Advanced::Back {
                clock: self.fleet.clock,
            });
        }
        let moved = self.fleet.moved(alloc, &self.arrivals, now, steps)?;
        Ok(self.move_to(now, moved))
    }

    /// Puts the vehicles in their places at a later clock.
    pub(crate) fn move_to(&mut self, now: u64, moved: Moved<I>) -> Advanced
        requires version { self.old.fleet.version < 2 ^ 62 }
        requires moment { now ≤ latest_moment }
        requires later { self.old.fleet.clock ≤ now }
        requires cars { moved.cars ≡
            map (moved_car self.old.fleet.params (self.old.fleet.version + 1) now)
            self.old.fleet.cars }
        requires served { moved.served ≡ served_in (cars_of self.old.fleet) now }
        requires index { FitsLater (I.fits self.old.fleet.index) (I.fits moved.index)
            (cars_of self.old.fleet) now }
        ensures value { Enters (board_of self.old) (entry.Advance now result) (board_of self.new) }
        ensures told { result ≡ Advanced.Moved moved.served }
        ensures index { FitsOn (I.fits self.old.fleet.index)
            (I.fits self.new.fleet.index) (board_of self.old) (board_of self.new) }
    {
        renew(&mut self.arrivals, &moved.cars, self.fleet.params(), now);
        self.fleet.cars = moved.cars;
        self.fleet.index = moved.index;
        self.fleet.clock = now;
        self.fleet.version += 1;
        Advanced::Moved(moved.served)
    }
}
