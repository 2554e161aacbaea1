//! Exact searches over a road graph.
//!
//! `reach_from` and `reach_to` list the nodes within a radius with their distances, each exact and in rising order (`IsReach`), from which
//! `Reach` answers distances, least walks and values of all nodes (`IsPotential`). `least_walk` finds a least walk between two nodes, or
//! that there is none.
#![tactic(auto)]

mod marks;
mod nearest;
mod potential;
mod reached;
mod search;
mod tree;

pub use potential::Potential;
pub use reached::{Reached, Way};
pub use tree::{Reach, least_walk, reach_from, reach_to};
