//! A schedule at a later clock: the stops that are reached by then, with their planned times, and what is left of it.
//! The layers above use that `advanced` is exactly the definition's, and that `reaches` tells the schedules that it changes.
#![tactic(auto)]

mod advance;
mod served;

pub use advance::{advanced, reaches};
pub use served::Served;
