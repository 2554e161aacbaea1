//! How late a stop may be reached so that each promise from it on is still kept, and how long the way from stop to stop may take.
//! The layers above use that `latest` is the latest arrival with which a schedule keeps, that `slack` is that of the definition and no
//! shorter than the leg, and that a feasible insertion lies in the ellipses of its legs, over every graph.
#![tactic(auto)]

mod laws;
mod leeways;

pub use laws::feasible_ones_lie_in_ellipses;
pub use leeways::{latest, slack};
