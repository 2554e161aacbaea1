//! What was priced on an earlier version of a fleet, settled to the answer of the fleet as it is now.
//!
//! The layer above uses that `settle` gives the answer of the fleet now, the best insertion with least walks or nobody, by candidates that
//! are sound for it, however old, and how much it asks for: little where few vehicles changed since they were priced. `settle_among` does
//! so where it is told in which places these stand.
#![tactic(auto)]

mod settling;

pub use settling::{settle, settle_among};
