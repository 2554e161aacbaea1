//! Reads tables of vehicles and the lines of request streams.
//! The layer above uses that `read_fleet` gives the vehicles of the definitions, in their ranges and with rising numbers, or the first
//! fault of the text, that no text past its limit is told as want of memory (`wanted`), and that `stream_line` says what the definition
//! says of a line.
#![tactic(auto)]

mod cells;
mod faults;
mod fleets;
mod lines;
mod records;

pub use faults::{FleetFault, StreamFault};
pub use fleets::read_fleet;
pub use lines::{StreamLine, stream_line};
