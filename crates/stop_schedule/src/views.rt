ghost use Rattle.std.specs.Prelude.{◌≡◌, ℕ, ◌<◌, ◌≤◌, List, length, IfOk};
ghost use Rattle.road_graph.specs.Roads.{Roads};
ghost use Rattle.stop_schedule.specs.Fleets.{Cars, OfCar, Fitting, IsChange, FitsChanged};

use crate::params::Params;
use crate::schedule::Schedule;
use ride_base::{NoMemory, VehicleNo};
use road_graph::Steps;
use std::alloc::Global;

/// What helps to find the vehicles near a node. It fits lists of schedules, over graphs and with parameters.
pub trait FleetIndex: Sized {
    /// The schedules that it fits, in the places of their vehicles, over a graph and with parameters.
    ghost fits: { Self → Fitting };

    /// An equal index. After an error nothing is left of it.
    fn share(&self, alloc: Global) -> Result<Self, NoMemory>
        ensures { IfOk result (λ index. index ≡ self.now) };

    /// The index for the list with one schedule changed, the old one of which stands at that place. This index stays as it was.
    fn moved<L>(
        &self,
        alloc: Global,
        place: usize,
        old: &Schedule,
        new: &Schedule,
        params: &Params,
        steps: &mut Steps<L>,
    ) -> Result<Self, NoMemory>
        requires { IsChange (fits self.now) params.now place old.now new.now }
        ensures fits { IfOk result
            (λ index. FitsChanged (fits self.now) (fits index) params.now place old.now new.now) }
        ensures steps { steps.old.0 ≤ steps.new.0 }
        ensures asks { steps.new.1 ≡ steps.old.1 };
}

/// A fleet at one moment, as it is priced. A place is a vehicle's index in it, from 0, in rising order of vehicle number.
pub trait FleetView {
    /// The kind of its index.
    type Index: FleetIndex;

    /// The parameters, the clock and the version, and the vehicles in their places.
    ghost fleet: { Self → Cars };

    /// The index.
    ghost index_of: { Self → Self.Index };

    /// How many vehicles there are, at most 65,536.
    fn count(&self) -> usize
        ensures { result ≡ length (fleet self.now).cars };

    /// The number of the vehicle at a place.
    fn no(&self, place: usize) -> VehicleNo
        requires { place < length (fleet self.now).cars }
        ensures { OfCar (fleet self.now) place (λ car. result ≡ car.no) };

    /// The schedule of the vehicle at a place.
    fn schedule(&self, place: usize) -> &Schedule
        requires { place < length (fleet self.now).cars }
        ensures { OfCar (fleet self.now) place (λ car. result.now ≡ car.plan) };

    /// The version after the last entry that changed that schedule, 0 at first.
    fn stamp(&self, place: usize) -> u64
        requires { place < length (fleet self.now).cars }
        ensures { OfCar (fleet self.now) place (λ car. result ≡ car.stamp) };

    /// The version of the board, which counts its entries.
    fn version(&self) -> u64
        ensures { result ≡ (fleet self.now).version };

    /// The clock, in the units of the roads' weights.
    fn clock(&self) -> u64
        ensures { result ≡ (fleet self.now).clock };

    /// The parameters with which times, limits and costs are reckoned.
    fn params(&self) -> &Params
        ensures { result.now ≡ (fleet self.now).rates };

    /// The index, which fits the schedules of a view that is good over a graph.
    fn index(&self) -> &Self::Index
        ensures { result.now ≡ index_of self.now };
}

/// No index, which fits every list of schedules.
#[derive(Clone, Copy, Debug, PartialEq, Eq, Default)]
pub struct NoIndex;

impl FleetIndex for NoIndex {
    ghost fits = { λ index g rates plans. Unit {0} };

    fn share(&self, _alloc: Global) -> Result<NoIndex, NoMemory> {
        Ok(*self)
    }

    fn moved<L>(
        &self,
        _alloc: Global,
        _place: usize,
        _old: &Schedule,
        _new: &Schedule,
        _params: &Params,
        _steps: &mut Steps<L>,
    ) -> Result<NoIndex, NoMemory> {
        Ok(*self)
    }
}
