use ride_base::RequestNo;
use road_graph::NodeNo;

/// A request of some riders to be driven from one node to another.
#[derive(Clone, Copy, Debug, PartialEq, Eq)]
pub struct Request {
    /// Its number, at most 2^40 on a stream.
    pub no: RequestNo,
    /// Where the riders get on.
    pub pickup: NodeNo,
    /// Where they get off.
    pub dropoff: NodeNo,
    /// When they are ready, in the units of the roads' weights, at most 2^40 where a board takes it.
    pub moment: u64,
    /// How many riders take a seat, 0 to 16 where a board takes it.
    pub riders: u32,
    /// How many riders take a wheelchair space, 0 to 16 where a board takes it, and at least one rider in all.
    pub spaces: u32,
}
