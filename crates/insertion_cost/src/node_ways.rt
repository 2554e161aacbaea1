ghost use Rattle.std.specs.Prelude.{◌≡◌, ℕ, ◌+◌, ◌≤◌, List, length, IfSome};
ghost use Rattle.road_graph.specs.Roads.{Roads};
ghost use Rattle.stop_schedule.specs.Lists.{changed_ends};
ghost use Rattle.stop_schedule.specs.declared.request.Request.{Request as RequestOf};
ghost use Rattle.stop_schedule.specs.declared.stop.Front.{Front as FrontOf};
ghost use Rattle.stop_schedule.specs.declared.stop.Stop.{Stop as StopOf};
ghost use Rattle.insertion_cost.specs.NodeWays.{AreWaysAlong, AreSpansOf, HaveShape};
ghost use Rattle.insertion_cost.specs.OnWays.{AreReadOff};

use crate::spans::Spans;
use stop_schedule::Insertion;

/// The distances between a node and the two nodes of a request, in the units of the roads' weights. None where there is no walk.
#[derive(Clone, Copy, Debug, PartialEq, Eq)]
pub struct NodeWays {
    /// From the node to the pickup.
    pub to_pickup: Option<u64>,
    /// From the pickup to the node.
    pub from_pickup: Option<u64>,
    /// From the node to the dropoff.
    pub to_dropoff: Option<u64>,
    /// From the dropoff to the node.
    pub from_dropoff: Option<u64>,
}

/// The lengths of the legs that an insertion changes, by the distances of the front's node and of each stop's. None where one of them
/// has no walk.
pub fn spans_of(ways: &[NodeWays], direct: u64, at: Insertion) -> Option<Spans>
    requires order { at.i ≤ at.j }
    requires within { at.j + 1 ≤ length ways.now }
    ensures exact { (g : Roads) (r : RequestOf) (front : FrontOf) (stops : List StopOf)
        → AreWaysAlong g r front stops direct ways.now
        → AreSpansOf g (changed_ends stops front r at) result }
    ensures read_off { IfSome result (AreReadOff ways.now direct at) }
    ensures shape { (stops : ℕ) → length ways.now ≡ stops + 1 → IfSome result (HaveShape stops at) }
{
    let before_pickup = ways[at.i].to_pickup?;
    let after_dropoff = if at.j + 1 < ways.len() {
        Some(ways[at.j + 1].from_dropoff?)
    } else {
        None
    };
    if at.i == at.j {
        return Some(Spans {
            before_pickup,
            after_pickup: direct,
            before_dropoff: None,
            after_dropoff,
        });
    }
    let after_pickup = ways[at.i + 1].from_pickup?;
    let before_dropoff = ways[at.j].to_dropoff?;
    Some(Spans {
        before_pickup,
        after_pickup,
        before_dropoff: Some(before_dropoff),
        after_dropoff,
    })
}
