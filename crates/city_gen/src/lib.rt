//! Makes the city of a number: a square of nodes with its roads, a fleet, and the lines of a request stream, all drawn from that number.
//! The layer above uses that `make_city` gives exactly the city of the definition, that its roads are a graph's, that its vehicles are a
//! fleet's, and that its lines are in the ranges of a stream's.
#![tactic(auto)]

mod cities;
mod draws;
mod fleets;
mod roads;
mod streams;

pub use cities::{City, make_city};
