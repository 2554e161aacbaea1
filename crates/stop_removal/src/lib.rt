//! A rider who cancels is taken out of his vehicle's schedule: both his stops go, and the legs around them are joined by least walks.
//! The layers above use that `joints` and `removed` are exactly the definition's, and the law that a removal breaks no promise and makes
//! no other stop later. `Walker` is what finds least walks of one graph.
#![tactic(auto)]

mod ends;
mod joins;
mod law;
mod lists;
mod removal;
mod walker;

pub use ends::joints;
pub use joins::Joins;
pub use law::removals_keep_promises;
pub use removal::{Removal, removed};
pub use walker::Walker;
