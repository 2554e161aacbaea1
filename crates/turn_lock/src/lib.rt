//! A lock that callers take in turns, round a value that stands for one growing list of entries, each noted by a desk. It is a ticket
//! lock over `atomic_table`: a desk draws a ticket, waits until it is served, takes the value out of the slot, counts the list, puts
//! the value back and serves the next ticket.
//! The layer above goes by these clauses: `enter` finds a list that begins with what the desk had seen and has no other entry of its
//! family (`found`), `take` gives the value of that list (`list`, `origin`), `leave` adds at most one entry of the desk (`same`, `more`,
//! `others`), `join` keeps both families (`IsJoinOf`), and `close` gives the value exactly where all desks are joined, with the list that
//! the desk had seen (`ok`, `whole`, `unjoined`). Nothing is claimed of waiting, fairness or progress.
#![tactic(auto)]

mod closing;
mod desk;
mod lock;
mod making;
mod plays;
mod recorded;
mod rule;
mod steps;
mod turn;
mod view;

pub use desk::Desk;
pub use lock::{NewFault, TurnLock, Unjoined};
pub use recorded::Recorded;
pub use turn::Turn;
