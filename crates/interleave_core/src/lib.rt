//! A board, its journal, and actors who claim requests, price them apart from the board and commit, whatever comes between.
//!
//! The layer above uses that `run_events` lets the journal grow by exactly the entries that the play of its events names, in order, that
//! the journal stays legal, so that each answer is the best insertion of the fleet as it is then, and that an event for which memory runs
//! out leaves all as the events before it did.
#![tactic(auto)]

mod acts;
mod event;
mod holding;
mod holdings;
mod run;
mod world;

pub use event::Event;
pub use run::{Stopped, run_events};
pub use world::{World, WorldFault};
