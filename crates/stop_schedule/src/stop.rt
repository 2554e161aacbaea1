ghost use Rattle.std.specs.Prelude.{◌≡◌, Some, None, if◌then◌else◌};
ghost use Rattle.stop_schedule.specs.Times.{taking, kept_time};

use ride_base::RequestNo;
use road_graph::NodeNo;

/// What happens at a stop.
#[derive(Clone, Copy, Debug, PartialEq, Eq)]
pub enum StopKind {
    /// The riders of a request get on.
    Pickup,
    /// The riders of a request get off.
    Dropoff,
}

/// What a rider takes in a vehicle.
#[derive(Clone, Copy, Debug, PartialEq, Eq)]
pub enum SeatKind {
    /// A seat.
    Seat,
    /// A wheelchair space.
    Space,
}

/// A stop of a vehicle for one request, its times in the units of the roads' weights. Stops at one node, one behind the other,
/// share one stop time.
#[derive(Clone, Copy, Debug, PartialEq, Eq)]
pub struct Stop {
    /// Where it is.
    pub node: NodeNo,
    /// Whether riders get on or off.
    pub kind: StopKind,
    /// The request that it serves.
    pub no: RequestNo,
    /// How many get on or off who take a seat, at most 16.
    pub riders: u32,
    /// Before when the vehicle doesn't leave: the request's moment at a pickup, 0 at a dropoff.
    pub ready: u64,
    /// What was promised: the latest departure at a pickup, the latest arrival at a dropoff. It is below 2^60.
    pub limit: u64,
    /// How many get on or off who take a wheelchair space, at most 16.
    pub spaces: u32,
}

impl Stop {
    /// How many of its riders take this kind of seat.
    pub fn taking(&self, seat: SeatKind) -> u32
        ensures { result ≡ taking seat self.now }
    {
        match seat {
            SeatKind::Seat => self.riders,
            SeatKind::Space => self.spaces,
        }
    }

    /// Which of its two times is promised: when a pickup is left, and when a dropoff is reached.
    pub fn kept_time(&self, arrival: u64, departure: u64) -> u64
        ensures { result ≡ kept_time self.now.kind arrival departure }
    {
        match self.kind {
            StopKind::Pickup => departure,
            StopKind::Dropoff => arrival,
        }
    }
}

/// The latest pickup and the latest arrival that a rider is promised, in the units of the roads' weights and below 2^60.
#[derive(Clone, Copy, Debug, PartialEq, Eq)]
pub struct Promise {
    /// The latest departure from the pickup.
    pub pickup: u64,
    /// The latest arrival at the dropoff.
    pub arrival: u64,
}

/// Where and when a vehicle can turn to a new stop, in the units of the roads' weights.
#[derive(Clone, Copy, Debug, PartialEq, Eq)]
pub struct Front {
    /// The node.
    pub node: NodeNo,
    /// When the vehicle is there, at most 2^41.
    pub time: u64,
    /// How much of the first leg is driven by then.
    pub offset: u64,
}

/// Where a pickup and a dropoff go: after stop i and after stop j, and the pickup first where these are one.
#[derive(Clone, Copy, Debug, PartialEq, Eq)]
pub struct Insertion {
    /// The pickup goes after this stop; 0 is the node from which the vehicle starts.
    pub i: usize,
    /// The dropoff goes after this stop, not before i.
    pub j: usize,
}

/// From where and when a list of stops is driven.
#[derive(Clone, Copy, Debug, PartialEq, Eq)]
pub struct Start {
    /// The node.
    pub node: NodeNo,
    /// When the vehicle leaves there, at most 2^41.
    pub departure: u64,
    /// Whether it halts there, so that a first stop there takes no time.
    pub halt: bool,
}

impl Start {
    /// The node where the vehicle halts before its first stop, if it does.
    pub fn halts_at(&self) -> Option<NodeNo>
        ensures { result ≡ (if self.now.halt then Some self.now.node else None) }
    {
        if self.halt { Some(self.node) } else { None }
    }
}
