use board_core::Fleet;
use insertion_cost::Candidates;
use stop_schedule::Request;

/// What an actor holds.
#[derive(Debug, Drop)]
pub(crate) enum Holding<I> {
    /// Nothing.
    Nothing,
    /// A request that it claimed, and the fleet on which it claimed it.
    Claimed(Request, Fleet<I>),
    /// A request that it claimed, and what it found out about the vehicles of that fleet.
    Priced(Request, Candidates),
}
