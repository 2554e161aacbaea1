use ride_base::Items;
use road_graph::NodeNo;

/// A value for each node, in the graph's weight units: that of its pair where it is listed, and `rest` where it isn't.
#[derive(Debug, PartialEq, Eq, Drop)]
pub struct Potential {
    /// Nodes and their values, in rising order of node.
    pub listed: Items<(NodeNo, u64)>,
    /// The value of every other node; none is larger than every number.
    pub rest: Option<u64>,
}
