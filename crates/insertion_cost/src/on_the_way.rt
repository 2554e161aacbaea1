ghost use Rattle.std.specs.Prelude.{◌≡◌, ◌+◌, ◌<◌, ◌≤◌, ◌^◌, max};
ghost use Rattle.road_graph.specs.Limits.{far};
ghost use Rattle.insertion_cost.specs.OnWays.{past_stop};

use road_graph::NodeNo;
use stop_schedule::Params;

/// Where a vehicle is on its way along a list, in the units of the roads' weights.
#[derive(Clone, Copy, Debug)]
pub struct OnTheWay {
    /// The node where it halts, if it does.
    pub halt: Option<NodeNo>,
    /// When it leaves there.
    pub departure: u64,
    /// How long the legs and the stops behind it took from where the reckoning begins.
    pub busy_time: u64,
}

impl OnTheWay {
    /// Past a stop at a node, which is reached over a leg of this length and isn't left before it is ready.
    pub fn past(&self, params: &Params, length: u64, node: NodeNo, ready: u64) -> OnTheWay
        requires departure { self.now.departure ≤ 2 ^ 57 }
        requires busy_time { self.now.busy_time ≤ 2 ^ 57 }
        requires length { length < far }
        ensures value { result ≡ past_stop params.now.stop self.now length node ready }
        ensures departure { result.departure
            ≤ max (self.now.departure + length + 65536) ready }
        ensures busy_time { result.busy_time ≤ self.now.busy_time + length + 65536 }
    {
        let takes = params.stop_at(self.halt, node);
        OnTheWay {
            halt: Some(node),
            departure: (self.departure + length + takes).max(ready),
            busy_time: self.busy_time + (length + takes),
        }
    }
}
