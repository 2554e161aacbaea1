//! Searches that only climb, in a contraction hierarchy.
//!
//! `Hierarchy::assemble` takes ranks and arcs that fit a graph (`IsFitting`), and its hierarchy fits it, too (`Fits`). `forward_space` and
//! `backward_space` list exactly the nodes that climbing arcs reach, or from which falling arcs reach, with the least lengths
//! (`IsForwardSpace`, `IsBackwardSpace`), and read each of their arcs once. `distance` and `walk` answer of each graph that the hierarchy
//! fits: a distance or that there is no walk, and a least walk without a repeated node. `rest_to` and `rest_from` do so for all nodes of a
//! space at once (`AreRestsTo`, `AreRestsFrom`).
#![tactic(auto)]

mod arc;
mod backing;
mod climbing;
mod finding;
mod hierarchy;
mod levels;
mod line;
mod meeting;
mod order;
mod slope;
mod sorting;
mod space;
mod topping;
mod unpacking;
mod waiting;
mod walking;
mod way;

pub use arc::RankArc;
pub use hierarchy::Hierarchy;
pub use space::Space;
