//! The board: a fleet and its clock, the requests that wait, the answers and what was cancelled, and the entries that change it.
//! The layers above use that each call makes its entry exactly, over every graph of the board's number of nodes, and that a legal history
//! keeps its promises and leaves the fleet good over its graph.
#![tactic(auto)]

mod answers;
mod arrivals;
mod board;
mod cancels;
mod candidates;
mod changes;
mod copies;
mod entry;
mod fleet;
mod law;
mod moves;
mod requests;
mod waiting;

pub use board::Board;
pub use candidates::candidates_stay_sound;
pub use entry::{Advanced, CancelReason, Cancelled, Entry, Reason, Submitted};
pub use fleet::Fleet;
pub use law::{
    answers_are_possible, boards_are_consistent, boards_stay_good, changed_vehicles_are_named,
    desks_hold_claims, fleets_stay_good, histories_leave_one_board, promises_are_kept,
    removals_are_possible, requests_wait_once, versions_rise,
};
pub use waiting::Waiting;
