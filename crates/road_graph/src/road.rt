/// The number of a node. A graph has the nodes 1 to at most 2,097,152; any other number may stand here, and is no node of it.
#[derive(Clone, Copy, Debug, PartialEq, Eq, PartialOrd, Ord)]
pub struct NodeNo(pub u32);

/// The first number that a node can have.
impl Default for NodeNo {
    ghost use Rattle.std.specs.Prelude.{◌≡◌};

    ghost is_default = { λ n. n.0 ≡ 1 };

    fn default() -> NodeNo {
        NodeNo(1)
    }
}

/// A road that goes one way.
#[derive(Clone, Copy, Debug, PartialEq, Eq)]
pub struct Road {
    /// The node that it leads out of.
    pub from: NodeNo,
    /// The node that it leads into, which may be the same.
    pub to: NodeNo,
    /// How long it takes to go along it, in the graph's weight units: any number, 0 among them.
    pub weight: u32,
}
