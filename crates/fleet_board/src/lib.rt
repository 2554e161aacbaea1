//! A board that many desks use at once, each in turns of its own: every call stands in one legal history.
//!
//! The layer above uses that after each call a desk has seen a legal list that begins with what it had seen before, and that ends with the
//! call's own entry where it made one (`Notes`, `Sees`), so that each answer is determined by what the desk has seen; that `commit` gives
//! the best insertion of the fleet at that moment, or nobody exactly where none is feasible (`decided`), and how much it asks for (`asks`);
//! that `join` keeps both desks' entries; and that `finish` gives the board and the list that its desk had seen. Nothing is claimed of
//! waiting, fairness or progress.
#![tactic(auto)]

mod board;
mod calls;
mod claims;
mod commits;
mod journal;
mod named;
mod origin;
mod recorded;

pub use board::{BoardDesk, BoardFault, FleetBoard, UnjoinedBoard};
pub use claims::{Claim, Claimed};
pub use commits::Undecided;
pub use journal::Noted;
pub use origin::Origin;
