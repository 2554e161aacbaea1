//! What a claim gives.
use board_core::Fleet;
use stop_schedule::Request;

/// A request that a desk claimed, with the fleet as it is behind that claim.
#[derive(Debug, Drop)]
pub struct Claimed<I> {
    /// The request.
    pub request: Request,
    /// The fleet.
    pub snapshot: Fleet<I>,
}

/// What became of a call that asks for a claim.
#[derive(Debug, Drop)]
pub enum Claim<I> {
    /// The oldest request that no desk held.
    Work(Claimed<I>),
    /// There was none.
    Empty {
        /// Whether the board is closed, so that there will be none.
        closed: bool,
    },
}
