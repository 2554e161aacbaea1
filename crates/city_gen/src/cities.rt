ghost use Rattle.std.specs.Prelude.{◌≡◌, IfOk, None};
ghost use Rattle.road_graph.specs.Faults.{fault_in};
ghost use Rattle.stop_schedule.specs.Bounds.{AreVehicles};
ghost use Rattle.city_gen.specs.Cities.{AreInRange, city_of};

use crate::draws::Draws;
use crate::fleets::make_fleet;
use crate::roads::{NODES, make_roads};
use crate::streams::make_lines;
use input_tables::StreamLine;
use ride_base::{Items, NoMemory};
use road_graph::Road;
use std::alloc::Global;
use stop_schedule::Vehicle;

/// A made city: what `run` would read from a text of a graph, one of a fleet and one of a stream.
#[derive(Debug, Drop)]
pub struct City {
    /// How many nodes it has, numbered from 1.
    pub nodes: u32,
    /// Its roads, one way each.
    pub roads: Items<Road>,
    /// Its vehicles, in rising order of number.
    pub fleet: Items<Vehicle>,
    /// What the lines of its stream say, in their order: moves of the clock and requests.
    pub lines: Items<StreamLine>,
}

/// Makes the city of a number. It has 1,600 nodes in a square, 6,240 roads, 60 vehicles and 500 requests, each behind a move of the
/// clock. After an error nothing is kept.
pub fn make_city(alloc: Global, number: u64) -> Result<City, NoMemory>
    ensures city { IfOk result (λ c. c ≡ city_of number) }
    ensures graph { IfOk result (λ c. fault_in c.nodes c.roads ≡ None) }
    ensures vehicles { IfOk result (λ c. AreVehicles c.nodes c.fleet) }
    ensures ranges { IfOk result (λ c. AreInRange c.lines) }
{
    let mut draws = Draws::new(number);
    let roads = make_roads(alloc, &mut draws)?;
    let fleet = make_fleet(alloc, &mut draws)?;
    let lines = make_lines(alloc, &mut draws)?;
    Ok(City {
        nodes: NODES,
        roads,
        fleet,
        lines,
    })
}
