use ride_base::RequestNo;
use road_graph::NodeNo;
use stop_schedule::StopKind;

/// A stop that was reached, with its planned times in the units of the roads' weights, below 2^60.
#[derive(Clone, Copy, Debug, PartialEq, Eq)]
pub struct Served {
    /// Whether riders got on or off.
    pub kind: StopKind,
    /// The request that it served.
    pub no: RequestNo,
    /// Where it was.
    pub node: NodeNo,
    /// When it was reached.
    pub arr: u64,
    /// When it is left, not before it was reached.
    pub dep: u64,
}
