ghost use Rattle.std.specs.Prelude.{◌≡◌, IfOk, OnOk};
ghost use Rattle.city_gen.specs.Draws.{after};
ghost use Rattle.city_gen.specs.Vehicles.{drawn_vehicle, fleet_draws, vehicle_count, vehicles_from};

use crate::draws::Draws;
use crate::roads::NODES;
use ride_base::{Items, NoMemory, VehicleNo};
use road_graph::NodeNo;
use std::alloc::Global;
use stop_schedule::Vehicle;

/// How many vehicles a city has.
const VEHICLES: u32 = 60;

/// When the service of all vehicles ends, in the units of the roads' weights.
const END_OF_SERVICE: u64 = 20_000;

/// Makes the vehicles, numbered from 1.
pub(crate) fn make_fleet(alloc: Global, draws: &mut Draws) -> Result<Items<Vehicle>, NoMemory>
    ensures fleet { IfOk result (λ f. f ≡ vehicles_from vehicle_count 1 draws.old.state) }
    ensures state { OnOk result (draws.new.state ≡ after fleet_draws draws.old.state) }
{
    let mut fleet = Vec::with_capacity(alloc, VEHICLES as usize)?;
    for place in 0..VEHICLES {
        fleet.push(draw_vehicle(place + 1, draws))?;
    }
    Ok(Items::from_vec(fleet))
}

/// The vehicle of a number: its start is drawn, and then its seats.
#[tactic(auto, unfolding(crate::specs::Draws::after))]
fn draw_vehicle(no: u32, draws: &mut Draws) -> Vehicle
    ensures vehicle { result ≡ drawn_vehicle no draws.old.state }
    ensures state { draws.new.state ≡ after 2 draws.old.state }
{
    let start = 1 + draws.below(NODES);
    let seats = 2 + draws.below(3);
    Vehicle {
        no: VehicleNo(no),
        start: NodeNo(start),
        seats,
        from: 0,
        until: END_OF_SERVICE,
        spaces: 0,
    }
}
