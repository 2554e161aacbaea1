use ride_base::VehicleNo;
use road_graph::NodeNo;

/// A vehicle as its fleet's table gives it.
#[derive(Clone, Copy, Debug, PartialEq, Eq)]
pub struct Vehicle {
    /// Its number, from 1.
    pub no: VehicleNo,
    /// The node where it stands at first.
    pub start: NodeNo,
    /// How many riders it holds on seats, 1 to 16.
    pub seats: u32,
    /// When its service begins, in the units of the roads' weights, at most 2^40.
    pub from: u64,
    /// When its last stop has to be left at the latest, not before `from` and at most 2^40.
    pub until: u64,
    /// How many wheelchairs it holds beside them, 0 to 16.
    pub spaces: u32,
}
