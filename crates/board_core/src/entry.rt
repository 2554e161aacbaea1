ghost use Rattle.std.specs.Prelude.{◌≡◌, IfOk};

use insertion_cost::Decision;
use ride_base::{Items, NoMemory, RequestNo, VehicleNo};
use std::alloc::Global;
use stop_advance::Served;
use stop_removal::Removal;
use stop_schedule::Request;

/// Why a request is refused; the first that holds, in this order.
#[derive(Clone, Copy, Debug, PartialEq, Eq)]
pub enum Reason {
    /// The board is closed.
    Closed,
    /// The pickup or the dropoff is no node of the graph.
    Place,
    /// The riders on seats or those in wheelchair spaces are above 16, or there is none of either.
    Riders,
    /// The moment is before the clock, or past 2^40.
    Moment,
    /// The number was accepted before.
    Repeated,
}

/// What became of a request that was submitted.
#[derive(Clone, Copy, Debug, PartialEq, Eq)]
pub enum Submitted {
    /// It waits.
    Accepted,
    /// It was refused, and nothing but the version changed.
    Refused(Reason),
}

/// What became of a move of the clock.
#[derive(Debug, PartialEq, Eq, Drop)]
pub enum Advanced {
    /// The clock moved, and these stops were reached, by rising vehicle number and then in their order.
    Moved(Items<(VehicleNo, Served)>),
    /// It was behind the clock, which stays; nothing but the version changed.
    Back {
        /// The clock.
        clock: u64,
    },
}

impl Advanced {
    /// An equal one. After an error nothing of it is left.
    pub fn share(&self, alloc: Global) -> Result<Advanced, NoMemory>
        ensures { IfOk result (λ advanced. advanced ≡ self.now) }
    {
        match self {
            Advanced::Moved(served) => {
                let served = Items::from_slice(alloc, served.as_slice())?;
                Ok(Advanced::Moved(served))
            }
            Advanced::Back { clock } => Ok(Advanced::Back { clock: *clock }),
        }
    }
}

/// Why a cancellation is refused. At most one of these holds.
#[derive(Clone, Copy, Debug, PartialEq, Eq)]
pub enum CancelReason {
    /// The number was never accepted.
    Unknown,
    /// The request still waits.
    Waiting,
    /// No vehicle could take the request.
    Nobody,
    /// It was cancelled before.
    Cancelled,
    /// The riders were picked up.
    Served,
}

/// What became of a cancellation.
#[derive(Debug, PartialEq, Eq, Drop)]
pub enum Cancelled {
    /// The riders' stops were taken out of their vehicle's list.
    Removed(Removal),
    /// It was refused, and nothing but the version changed.
    Refused(CancelReason),
}

/// One event of a board.
#[derive(Debug, PartialEq, Eq, Drop)]
pub enum Entry {
    /// A request was submitted.
    Submit(Request, Submitted),
    /// A desk took the oldest waiting request that no desk held.
    Claim(RequestNo, u64),
    /// A desk gave a request back.
    Back(RequestNo),
    /// A request was answered.
    Commit(RequestNo, Decision),
    /// The clock was to move to this moment.
    Advance(u64, Advanced),
    /// The riders of a request cancelled.
    Cancel(RequestNo, Cancelled),
    /// The board was closed.
    Shut,
}
