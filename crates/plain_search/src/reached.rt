use road_graph::NodeNo;

/// Which way a search goes.
#[derive(Clone, Copy, Debug, PartialEq, Eq)]
pub enum Way {
    /// From its start, along the roads.
    From,
    /// To its start, against them.
    To,
}

/// A node that a search reached.
#[derive(Clone, Copy, Debug, PartialEq, Eq)]
pub struct Reached {
    /// The node.
    pub node: NodeNo,
    /// Its distance from or to the start, in the graph's weight units.
    pub distance: u64,
    /// The next node on a least walk back to the start, which the start has not.
    pub parent: Option<NodeNo>,
}

/// What a search knows of a node: nothing, that it waits at a distance, or its place in the list of those reached.
#[derive(Clone, Copy, Debug, PartialEq, Eq)]
pub(crate) enum Mark {
    Unseen,
    Seen(u64),
    Settled(u32),
}
