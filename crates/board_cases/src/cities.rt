ghost use Rattle.std.specs.Prelude.{◌≤◌, length};

use board_core::Fleet;
use ride_base::{RequestNo, VehicleNo};
use road_graph::{BuildFault, Graph, NodeNo, Road, Steps, Walk};
use std::alloc::Global;
use std::test::Fail;
use std::thread::Threads;
use stop_schedule::{FleetView, NoIndex, Request, Stop, StopKind, Vehicle};

pub const ONE: NodeNo = NodeNo(1);

pub const TWO: NodeNo = NodeNo(2);

pub const THREE: NodeNo = NodeNo(3);

pub const FOUR: NodeNo = NodeNo(4);

/// A road of 10.
fn road(from: u32, to: u32) -> Road {
    Road {
        from: NodeNo(from),
        to: NodeNo(to),
        weight: 10,
    }
}

/// Four nodes in a line, joined both ways by roads of 10.
pub fn line(alloc: Global) -> Result<Graph, BuildFault> {
    let roads = [
        road(1, 2),
        road(2, 1),
        road(2, 3),
        road(3, 2),
        road(3, 4),
        road(4, 3),
    ];
    Graph::build(alloc, 4, &roads)
}

/// The nodes 1 to 200 in a ring, joined one way by roads of 10.
pub fn ring(alloc: Global) -> Result<Graph, BuildFault> {
    let mut roads = [road(200, 1); 200];
    for (at, road) in roads.iter_mut().enumerate() {
        if at > 0 {
            road.from = NodeNo(at as u32);
            road.to = NodeNo(at as u32 + 1);
        }
    }
    Graph::build(alloc, 200, &roads)
}

/// A vehicle at node 1 with two seats, from 0 until 1000.
pub const CAR: Vehicle = Vehicle {
    no: VehicleNo(1),
    start: ONE,
    seats: 2,
    from: 0,
    until: 1000,
    spaces: 0,
};

/// A request of one rider at the moment 0.
pub fn ride(number: u64, pickup: NodeNo, dropoff: NodeNo) -> Request {
    Request {
        no: RequestNo(number),
        pickup,
        dropoff,
        moment: 0,
        riders: 1,
        spaces: 0,
    }
}

/// The walk over these nodes of the line.
pub fn walk<R: Threads>(rt: &R, alloc: Global, nodes: &[NodeNo]) -> Result<Walk, Fail>
    requires { length nodes.now ≤ 4 }
{
    let graph = line(alloc)?;
    let mut steps = Steps::start(rt, ());
    Ok(Walk::made(alloc, &graph, nodes, &mut steps)?.ok_or("a walk")?)
}

/// A stop of a request of one rider, with its limit.
pub fn stop(kind: StopKind, number: u64, node: NodeNo, limit: u64) -> Stop {
    Stop {
        node,
        kind,
        no: RequestNo(number),
        riders: 1,
        ready: 0,
        limit,
        spaces: 0,
    }
}

/// Whether the vehicle at a place has these stops, over these walks.
pub fn is_planned(fleet: &Fleet<NoIndex>, place: usize, stops: &[Stop], walks: &[Walk]) -> bool {
    if place >= fleet.count() {
        return false;
    }
    let schedule = fleet.schedule(place);
    schedule.stops() == stops && schedule.legs() == walks
}

/// The version after the last entry that changed the vehicle at a place, if there is one.
pub fn stamp_at(fleet: &Fleet<NoIndex>, place: usize) -> Option<u64> {
    if place < fleet.count() {
        Some(fleet.stamp(place))
    } else {
        None
    }
}
