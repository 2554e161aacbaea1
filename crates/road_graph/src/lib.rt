//! Roads between numbered nodes, walks over them, and a count of what was read.
//!
//! `Graph::build` keeps a list of roads exactly where it is in order, `joined` and `walk_length` give least weights and lengths, and
//! `Walk::made` the offsets of a walk. Layers above speak of a graph by `IsGraph` and of distances by `IsDist`; what is so of the walks
//! of every graph stands in the laws that `laws_of_walks` names. `Steps` counts the roads that are read.
#![tactic(auto)]

mod graph;
mod laws;
mod limits;
mod road;
mod road_list;
mod rows;
mod short;
mod steps;
mod walk;

pub use graph::{BuildFault, Graph};
pub use laws::laws_of_walks;
pub use limits::{FAR, MOST_NODES, MOST_ROADS};
pub use road::{NodeNo, Road};
pub use steps::Steps;
pub use walk::Walk;
