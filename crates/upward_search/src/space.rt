ghost use Rattle.std.specs.Prelude.{◌≡◌};

use ride_base::Items;
use road_graph::NodeNo;
use std::marker::Model;

/// Nodes by rising rank, each with the least length of the arcs to it or from it, in the graph's weight units.
#[derive(Debug, Drop)]
pub struct Space {
    pub(crate) listed: Items<(NodeNo, u64)>,
}

impl Model for Space {
    ghost use Rattle.std.specs.Prelude.{List, ℕ};
    ghost use Rattle.road_graph.specs.declared.road.NodeNo.{NodeNo};

    ghost Value = { List (NodeNo × ℕ) };

    ghost view = { λ s. s.listed };
}

impl Space {
    /// The nodes and their lengths.
    pub fn as_slice(&self) -> &[(NodeNo, u64)]
        ensures { result.now ≡ self.now }
    {
        self.listed.as_slice()
    }
}
