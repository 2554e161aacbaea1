use board_core::{Advanced, CancelReason, Submitted};
use ride_base::{Items, RequestNo, VehicleNo};
use road_graph::NodeNo;
use stop_schedule::{Insertion, Request};

/// The offer of an assigned request as it is printed: without the vehicle's place, which its number gives, and with the nodes of the
/// walks.
#[derive(Debug, PartialEq, Eq, Drop)]
pub struct TextOffer {
    /// The vehicle.
    pub no: VehicleNo,
    /// Where the two stops go.
    pub at: Insertion,
    /// The cost.
    pub cost: u64,
    /// When the pickup is left, in the units of the roads' weights.
    pub leave: u64,
    /// When the dropoff is reached, in the same units.
    pub arrive: u64,
    /// The nodes of the walks of the changed legs, in rising order of leg.
    pub walks: Items<Items<NodeNo>>,
}

/// An answer as it is printed.
#[derive(Debug, PartialEq, Eq, Drop)]
pub enum TextDecision {
    /// A vehicle takes the request.
    Assigned(TextOffer),
    /// No vehicle can take it.
    Nobody,
}

/// A removal as it is printed: with the nodes of the walks.
#[derive(Debug, PartialEq, Eq, Drop)]
pub struct TextRemoval {
    /// The vehicle.
    pub no: VehicleNo,
    /// The position of the pickup in the old list, from 1.
    pub pickup: usize,
    /// The position of the dropoff, behind the pickup.
    pub dropoff: usize,
    /// The nodes of the walks of the joined legs, in rising order of leg.
    pub walks: Items<Items<NodeNo>>,
}

/// What became of a cancellation, as it is printed.
#[derive(Debug, PartialEq, Eq, Drop)]
pub enum TextCancelled {
    /// The riders' stops were taken out of their vehicle's list.
    Removed(TextRemoval),
    /// It was refused.
    Refused(CancelReason),
}

/// An entry as it is printed: node lists stand for walks, and an offer has no place.
#[derive(Debug, PartialEq, Eq, Drop)]
pub enum TextEntry {
    /// A request was submitted.
    Submit(Request, Submitted),
    /// A desk took a request.
    Claim(RequestNo, u64),
    /// A desk gave a request back.
    Back(RequestNo),
    /// A request was answered.
    Commit(RequestNo, TextDecision),
    /// The clock was to move.
    Advance(u64, Advanced),
    /// The riders of a request cancelled.
    Cancel(RequestNo, TextCancelled),
    /// The board was closed.
    Shut,
}
