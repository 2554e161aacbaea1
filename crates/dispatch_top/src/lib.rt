//! `run`, from the words of a command line and the bytes of the texts that they name to the bytes that are printed.
//! The program uses its clauses `ends` (how it ended by its status, and what was printed), `complete` and `behaves`.
#![tactic(auto)]

mod answer;
mod answerer;
mod dispatcher;
mod gen_mode;
mod reading;
mod run_mode;
mod runs;
mod status;
mod stops;
mod stream;
mod sums;
mod walk_mode;
mod walker;
mod words;

pub use runs::run;
pub use status::Status;
