ghost use Rattle.std.specs.Prelude.{◌≡◌, ◌+◌, ◌<◌, ◌≤◌, length, IfOk};
ghost use Rattle.stop_removal.specs.Removals.{joint_ends, removed_in};
ghost use Rattle.stop_schedule.specs.Bounds.{AreShortLegs};
ghost use Rattle.stop_schedule.specs.Limits.{latest_front};

use crate::joins::Joins;
use crate::lists::{legs_joined, stops_without};
use ride_base::{NoMemory, VehicleNo};
use std::alloc::Global;
use stop_schedule::{Front, Insertion, Schedule};

/// Which stops of which vehicle are taken out for a rider who cancelled, and the walks of the joined legs.
#[derive(Debug, PartialEq, Eq, Drop)]
pub struct Removal {
    /// The vehicle.
    pub no: VehicleNo,
    /// The position of the pickup in the old list, from 1.
    pub pickup: usize,
    /// The position of the dropoff, behind the pickup and at most 64.
    pub dropoff: usize,
    /// The walks of the joined legs, in rising order of leg: none or one where the dropoff follows the pickup, and else one or two.
    pub walks: Joins,
}

impl Removal {
    /// An equal removal. After an error nothing is left of it, and this one is as it was.
    pub fn share(&self, alloc: Global) -> Result<Removal, NoMemory>
        ensures { IfOk result (λ same. same ≡ self.now) }
    {
        Ok(Removal {
            no: self.no,
            pickup: self.pickup,
            dropoff: self.dropoff,
            walks: self.walks.share(alloc)?,
        })
    }
}

/// The schedule without the stops at these positions, from 1. The walks are those of the joined legs, whose ends `joints` gives; where
/// the first stop is taken out, the vehicle starts from its front. After an error nothing is left of it.
pub fn removed(
    alloc: Global,
    schedule: &Schedule,
    front: &Front,
    pickup: usize,
    dropoff: usize,
    walks: &Joins,
) -> Result<Schedule, NoMemory>
    requires from_first { 1 ≤ pickup }
    requires order { pickup < dropoff }
    requires to_last { dropoff ≤ length schedule.now.stops }
    requires as_many { length walks.now ≡
        length (joint_ends schedule.now.stops front.now pickup dropoff) }
    requires short { AreShortLegs walks.now }
    requires time { front.now.time ≤ latest_front }
    ensures { IfOk result
        (λ s. s ≡ removed_in schedule.now front.now pickup dropoff walks.now) }
{
    let stops = stops_without(alloc, schedule.stops(), pickup, dropoff)?;
    let legs = legs_joined(alloc, schedule.legs(), pickup, dropoff, walks.as_slice())?;
    let at = Insertion {
        i: pickup - 1,
        j: dropoff - 2,
    };
    Ok(schedule.with_lists(&schedule.start(front, at), stops, legs))
}
