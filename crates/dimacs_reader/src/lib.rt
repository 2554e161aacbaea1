//! Readers of road graphs, and of the places of their nodes, from texts in the form of the ninth DIMACS challenge.
//! The layer above goes by these clauses of `read_graph`: `graph` and `is_graph` (it is a graph, and the one that the text says),
//! `refused` (a fault that names a line is the first of the text), `near` (no more than one read past that line was read), `unread`
//! (where the shelf failed, the text's first bad line was not read to its end), `wanted` (where memory was wanted, no line that was given
//! is bad, and the next shows no limit), `fault`, `quiet` and `surely` (only a fault that was counted is told as one, and none as want of
//! memory) and `shelf` (the shelf was only read). `read_places` has the same ones, with `places` and `all` for the coordinates of each node.
#![tactic(auto)]

mod faults;
mod forms;
mod graphs;
mod lines;
mod places;

pub use faults::GraphFault;
pub use graphs::read_graph;
pub use places::read_places;
