//! What it costs to take a request, and which offer is the best.
//!
//! The layers above use that `price` is the definition's price of one pair of places, that `best_from` is the best offer of one vehicle
//! over all pairs, that what a `Pricer` gives is fresh for its view and decides, that the best listed offer is then the best insertion
//! (`best_listed`), and that a pricer's walks are least walks of the changed legs. `PlainPricer` prices so by whole searches, and
//! `best_plain` is the best insertion by the distances of one graph alone. `prices_are_monotone` names the laws of longer legs and of
//! later fronts.
#![tactic(auto)]

mod behind;
mod candidates;
mod decision;
mod distances;
mod driving;
mod laws;
mod listing;
mod node_ways;
mod offer;
mod on_the_way;
mod pairs;
mod plain;
mod pricer;
mod pricing;
mod searches;
mod spans;

pub use behind::Behind;
pub use candidates::{Candidate, Candidates, Floor, best_listed, is_decided, is_redone};
pub use decision::{Assigned, Decision};
pub use distances::{Distances, best_plain};
pub use laws::prices_are_monotone;
pub use node_ways::NodeWays;
pub use offer::{Offer, first_of_two, is_before};
pub use pairs::{PlacedVehicle, best_from};
pub use plain::{PlainAnswers, PlainPricer};
pub use pricer::Pricer;
pub use pricing::{Priced, price, promise};
pub use spans::Spans;
