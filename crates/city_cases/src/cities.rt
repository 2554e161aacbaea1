ghost use Rattle.std.specs.Prelude.{◌≡◌, None};
ghost use Rattle.road_graph.specs.Faults.{fault_in};
ghost use Rattle.stop_schedule.specs.Bounds.{AreVehicles};

use city_gen::{City, make_city};
use input_tables::StreamLine;
use road_graph::{BuildFault, Graph, Road};
use std::alloc::Global;
use std::process::Abort;
use std::test::Fail;
use stop_schedule::{Request, Vehicle};

/// The sum of numbers, each times its place, counted from 1.
#[derive(Drop)]
struct Sum {
    place: u64,
    total: u64,
}

impl Sum {
    fn new() -> Sum {
        Sum { place: 0, total: 0 }
    }

    fn add(&mut self, number: u64) {
        self.place = self.place.wrapping_add(1);
        self.total = self.total.wrapping_add(self.place.wrapping_mul(number));
    }
}

fn sum_of_roads(roads: &[Road]) -> u64 {
    let mut sum = Sum::new();
    for road in roads {
        sum.add(u64::from(road.from.0));
        sum.add(u64::from(road.to.0));
        sum.add(u64::from(road.weight));
    }
    sum.total
}

fn sum_of_vehicles(fleet: &[Vehicle]) -> u64 {
    let mut sum = Sum::new();
    for vehicle in fleet {
        sum.add(u64::from(vehicle.no.0));
        sum.add(u64::from(vehicle.start.0));
        sum.add(u64::from(vehicle.seats));
        sum.add(vehicle.from);
        sum.add(vehicle.until);
        sum.add(u64::from(vehicle.spaces));
    }
    sum.total
}

fn add_ride(sum: &mut Sum, ride: &Request) {
    sum.add(ride.no.0);
    sum.add(u64::from(ride.pickup.0));
    sum.add(u64::from(ride.dropoff.0));
    sum.add(ride.moment);
    sum.add(u64::from(ride.riders));
    sum.add(u64::from(ride.spaces));
}

/// The sum of what lines say. None where one is neither a request nor a move of the clock.
fn sum_of_lines(lines: &[StreamLine]) -> Option<u64> {
    let mut sum = Sum::new();
    for line in lines {
        match line {
            StreamLine::Move(now) => sum.add(*now),
            StreamLine::Ride(ride) => add_ride(&mut sum, ride),
            StreamLine::Cancel(_) | StreamLine::Nothing => return None,
        }
    }
    Some(sum.total)
}

/// A city has so many parts, and these sums of its roads, its vehicles and its lines.
fn is_city(rt: &impl Abort, city: &City, sums: (u64, u64, u64)) {
    assert_eq!(rt; city.nodes, 1_600);
    assert_eq!(rt; city.roads.len(), 6_240);
    assert_eq!(rt; city.fleet.len(), 60);
    assert_eq!(rt; city.lines.len(), 1_000);
    assert_eq!(rt; sum_of_roads(city.roads.as_slice()), sums.0);
    assert_eq!(rt; sum_of_vehicles(city.fleet.as_slice()), sums.1);
    assert_eq!(rt; sum_of_lines(city.lines.as_slice()), Some(sums.2));
}

/// A city's number, and the sums of its roads, its vehicles and its lines, as a program in Python
/// reckoned them.
type CityCase = (u64, (u64, u64, u64));

const CITIES: &[CityCase] = &[
    (0, (124_991_888_682, 227_239_881, 4_972_907_237)),
    (7, (124_990_655_703, 228_043_966, 4_797_766_255)),
    (
        18_446_744_073_709_551_615,
        (124_994_220_681, 226_143_809, 5_080_187_480),
    ),
];

fn are_cities(rt: &impl Abort, alloc: Global, cases: &[CityCase]) -> Result<(), Fail> {
    for case in cases {
        let (number, sums) = *case;
        is_city(rt, &make_city(alloc, number)?, sums);
    }
    Ok(())
}

#[test]
fn cities(rt: HostRuntime) -> Result<(), Fail> {
    are_cities(&rt, rt.alloc(), CITIES)
}

/// How many vehicles a fleet has. It asks what a board asks of its vehicles.
fn count(nodes: u32, fleet: &[Vehicle]) -> usize
    requires { AreVehicles nodes fleet.now }
{
    fleet.len()
}

/// Whether a graph of a city is built. What `make_city` says of its roads rules out each other fault.
fn is_built(alloc: Global, city: &City) -> bool
    requires { fault_in city.now.nodes city.now.roads ≡ None }
{
    match Graph::build(alloc, city.nodes, city.roads.as_slice()) {
        Ok(graph) => graph.roads() == 6_240,
        Err(BuildFault::NoMemory) => false,
        Err(BuildFault::Large | BuildFault::Node { .. }) => unreachable!(),
    }
}

#[test]
fn graph_and_fleet_of_a_city(rt: HostRuntime) -> Result<(), Fail> {
    let city = make_city(rt.alloc(), 7)?;
    let vehicles = count(city.nodes, city.fleet.as_slice());
    let built = is_built(rt.alloc(), &city);
    assert_eq!(&rt; vehicles, 60);
    assert!(&rt; built);
    Ok(())
}
