use ride_base::{RequestNo, VehicleNo};
use road_graph::{BuildFault, Graph, NodeNo, Road};
use std::alloc::Global;
use stop_schedule::{Request, Vehicle};

pub const ONE: NodeNo = NodeNo(1);

pub const TWO: NodeNo = NodeNo(2);

pub const THREE: NodeNo = NodeNo(3);

pub const FOUR: NodeNo = NodeNo(4);

/// A road of 10.
fn road(from: u32, to: u32) -> Road {
    Road {
        from: NodeNo(from),
        to: NodeNo(to),
        weight: 10,
    }
}

/// Four nodes in a line, joined both ways by roads of 10.
pub fn line(alloc: Global) -> Result<Graph, BuildFault> {
    let roads = [
        road(1, 2),
        road(2, 1),
        road(2, 3),
        road(3, 2),
        road(3, 4),
        road(4, 3),
    ];
    Graph::build(alloc, 4, &roads)
}

/// A vehicle at node 1 with two seats, from 0 until 1000.
pub const CAR: Vehicle = Vehicle {
    no: VehicleNo(1),
    start: ONE,
    seats: 2,
    from: 0,
    until: 1000,
    spaces: 0,
};

/// A request of one rider at the moment 0.
pub fn ride(number: u64, pickup: NodeNo, dropoff: NodeNo) -> Request {
    Request {
        no: RequestNo(number),
        pickup,
        dropoff,
        moment: 0,
        riders: 1,
        spaces: 0,
    }
}

/// A vehicle at each end of the line.
pub const BOTH_ENDS: [Vehicle; 2] = [
    CAR,
    Vehicle {
        no: VehicleNo(2),
        start: FOUR,
        ..CAR
    },
];
