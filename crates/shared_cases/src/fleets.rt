ghost use Rattle.std.specs.Prelude.{IsTrue};
ghost use Rattle.stop_schedule.specs.Bounds.{AreVehicles, IsVehicle};

use stop_schedule::Vehicle;

/// Whether a vehicle's fields are in their ranges.
fn is_vehicle(nodes: u32, vehicle: &Vehicle) -> bool
    ensures { IsTrue result → IsVehicle nodes vehicle.now }
{
    let stands = 1 <= vehicle.start.0 && vehicle.start.0 <= nodes;
    let holds = 1 <= vehicle.seats && vehicle.seats <= 16 && vehicle.spaces <= 16;
    let serves = vehicle.from <= vehicle.until && vehicle.until <= 1 << 40;
    1 <= vehicle.no.0 && stands && holds && serves
}

/// Whether vehicles are a fleet: their numbers rise, and their fields are in their ranges.
pub fn are_vehicles(nodes: u32, vehicles: &[Vehicle]) -> bool
    ensures { IsTrue result → AreVehicles nodes vehicles.now }
{
    if vehicles.len() > 65536 {
        return false;
    }
    let mut last = 0;
    for vehicle in vehicles {
        if vehicle.no.0 <= last || !is_vehicle(nodes, vehicle) {
            return false;
        }
        last = vehicle.no.0;
    }
    true
}
