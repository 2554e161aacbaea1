//! Makes a hierarchy of a graph by removing its nodes one after another (Geisberger, Sanders, Schultes and Delling 2008). The layer above
//! uses one clause: what `contract` gives fits the graph.
#![tactic(auto)]

mod bridge;
mod costs;
mod order;
mod queue;
mod rows;
mod search;
mod start;
mod work;

pub use order::contract;
