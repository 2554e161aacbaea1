ghost use Rattle.std.specs.Prelude.{◌≡◌, ◌<◌, ◌≤◌, length, map, IfOk};
ghost use Rattle.board_core.specs.Boards.{opening_car, opening_fleet};
ghost use Rattle.board_core.specs.FleetViews.{cars_of};
ghost use Rattle.stop_schedule.specs.Bounds.{AreVehicles};
ghost use Rattle.stop_schedule.specs.Limits.{latest_moment};

use ride_base::{NoMemory, VehicleNo};
use road_graph::NodeNo;
use std::alloc::Global;
use std::marker::Model;
use std::sync::Arc;
use stop_schedule::{FleetIndex, FleetView, Params, Schedule, Vehicle};
use version_array::{Shared, VersionArray};

/// A vehicle of a fleet.
#[derive(Debug, Drop)]
pub(crate) struct FleetCar {
    /// Its number.
    pub(crate) no: VehicleNo,
    /// Its schedule.
    pub(crate) schedule: Schedule,
    /// The version after the last entry that changed the schedule, 0 at first.
    pub(crate) stamp: u64,
}

impl Model for FleetCar {
    ghost use Rattle.stop_schedule.specs.Fleets.{Car};

    ghost Value = { Car };

    ghost view = { λ c. record { no = c.no; plan = c.schedule; stamp = c.stamp } };
}

/// A vehicle behind a pointer, which the versions of a fleet share.
#[derive(Debug, Drop)]
pub(crate) struct SharedCar {
    held: Arc<FleetCar, Global>,
}

impl Model for SharedCar {
    ghost use Rattle.stop_schedule.specs.Fleets.{Car};
    ghost use Rattle.std.specs.Arc.{arc_value};

    ghost Value = { Car };

    ghost view = { λ c. arc_value c.held };
}

impl SharedCar {
    /// The vehicle behind a pointer.
    pub(crate) fn new(alloc: Global, car: FleetCar) -> Result<SharedCar, NoMemory>
        ensures { IfOk result (λ shared. shared ≡ car) }
    {
        Ok(SharedCar {
            held: Arc::new(alloc, car)?,
        })
    }

    /// The vehicle.
    pub(crate) fn car(&self) -> &FleetCar
        ensures { result.now ≡ self.now }
    {
        &self.held
    }
}

impl Shared for SharedCar {
    fn share(&self, _alloc: Global) -> Result<SharedCar, NoMemory> {
        Ok(SharedCar {
            held: Arc::try_clone(&self.held)?,
        })
    }
}

/// The vehicles of a board at one moment, with the parameters, the clock and the version of the board. A place is a vehicle's index,
/// from 0, in rising order of number.
#[derive(Debug, Drop)]
pub struct Fleet<I> {
    pub(crate) params: Params,
    pub(crate) clock: u64,
    pub(crate) version: u64,
    pub(crate) cars: VersionArray<SharedCar>,
    pub(crate) index: I,
}

/// A vehicle that has no stop yet.
fn opening_car(alloc: Global, vehicle: &Vehicle) -> Result<SharedCar, NoMemory>
    requires from { vehicle.now.from ≤ latest_moment }
    requires until { vehicle.now.until ≤ latest_moment }
    ensures { IfOk result (λ car. car ≡ opening_car vehicle.now) }
{
    let car = FleetCar {
        no: vehicle.no,
        schedule: Schedule::opening(alloc, vehicle),
        stamp: 0,
    };
    SharedCar::new(alloc, car)
}

/// What stands in the places of a fleet before its vehicles do.
const NO_VEHICLE: Vehicle = Vehicle {
    no: VehicleNo(1),
    start: NodeNo(1),
    seats: 1,
    from: 0,
    until: 0,
    spaces: 0,
};

/// The vehicles, each at its start.
fn opening_cars(
    alloc: Global,
    nodes: u32,
    vehicles: &[Vehicle],
) -> Result<VersionArray<SharedCar>, NoMemory>
    requires { AreVehicles nodes vehicles.now }
    ensures { IfOk result (λ cars. cars ≡ map opening_car vehicles.now) }
{
    let blank = opening_car(alloc, &NO_VEHICLE)?;
    let mut cars = VersionArray::filled(alloc, vehicles.len(), blank)?;
    for place in 0..vehicles.len() {
        cars = cars.with(alloc, place, opening_car(alloc, &vehicles[place])?)?;
    }
    Ok(cars)
}

impl<I: Drop> Fleet<I> {
    /// The fleet before any entry: all vehicles at their starts, the clock at 0. After an error nothing is left of it.
    pub(crate) fn opening(
        alloc: Global,
        nodes: u32,
        params: Params,
        vehicles: &[Vehicle],
        index: I,
    ) -> Result<Fleet<I>, NoMemory>
        requires { AreVehicles nodes vehicles.now }
        ensures value { IfOk result
            (λ fleet. cars_of fleet ≡ opening_fleet params vehicles.now) }
        ensures index { IfOk result (λ fleet. fleet.index ≡ index) }
    {
        Ok(Fleet {
            params,
            clock: 0,
            version: 0,
            cars: opening_cars(alloc, nodes, vehicles)?,
            index,
        })
    }
}

impl<I: FleetIndex> Fleet<I> {
    /// This fleet once more, in a time that doesn't grow with it: schedules are shared, and only the index may be copied. After an error
    /// nothing is left of it.
    pub fn share(&self, alloc: Global) -> Result<Fleet<I>, NoMemory>
        ensures { IfOk result (λ fleet. fleet ≡ self.now) }
    {
        Ok(Fleet {
            params: self.params,
            clock: self.clock,
            version: self.version,
            cars: self.cars.share()?,
            index: self.index.share(alloc)?,
        })
    }
}

impl<I: FleetIndex> FleetView for Fleet<I> {
    type Index = I;

    ghost fleet = { λ f. cars_of f };

    ghost index_of = { λ f. f.index };

    fn count(&self) -> usize {
        self.cars.len()
    }

    fn no(&self, place: usize) -> VehicleNo {
        self.cars.get(place).car().no
    }

    fn schedule(&self, place: usize) -> &Schedule {
        &self.cars.get(place).car().schedule
    }

    fn stamp(&self, place: usize) -> u64 {
        self.cars.get(place).car().stamp
    }

    fn version(&self) -> u64 {
        self.version
    }

    fn clock(&self) -> u64 {
        self.clock
    }

    fn params(&self) -> &Params {
        &self.params
    }

    fn index(&self) -> &I {
        &self.index
    }
}
