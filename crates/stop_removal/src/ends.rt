ghost use Rattle.std.specs.Prelude.{◌≡◌, ℕ, ◌+◌, ◌<◌, ◌≤◌, length, flat_map, option_to_list};
ghost use Rattle.stop_removal.specs.Removals.{joint_ends, joint_over, joints_of};

use road_graph::NodeNo;
use stop_schedule::{Front, Schedule, Stop, node_at};

/// From one stop, or from the front for 0, over another stop to the next one, where there is one.
fn joint_over(front: &Front, stops: &[Stop], from: usize, over: usize) -> Option<(NodeNo, NodeNo)>
    requires { from ≤ length stops.now }
    ensures { option_to_list result ≡ joint_over front.now stops.now from over }
{
    let next = stops.get(over)?;
    Some((node_at(front, stops, from), next.node))
}

/// The two ends of each joined leg where the stops at these positions are taken out, in rising order of leg.
pub fn joints(
    schedule: &Schedule,
    front: &Front,
    pickup: usize,
    dropoff: usize,
) -> [Option<(NodeNo, NodeNo)>; 2]
    requires from_first { 1 ≤ pickup }
    requires order { pickup < dropoff }
    requires to_last { dropoff ≤ length schedule.now.stops }
    ensures places { result ≡ joints_of schedule.now.stops front.now pickup dropoff }
    ensures all { flat_map option_to_list result ≡
        joint_ends schedule.now.stops front.now pickup dropoff }
{
    let stops = schedule.stops();
    if dropoff == pickup + 1 {
        [joint_over(front, stops, pickup - 1, dropoff), None]
    } else {
        [
            joint_over(front, stops, pickup - 1, pickup),
            joint_over(front, stops, dropoff - 1, dropoff),
        ]
    }
}
