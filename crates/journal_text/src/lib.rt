//! The lines of a journal, one group for each entry of a board, printed and read back.
//! The layers above use that `render` appends exactly the lines of the entry's text form, and `render_proof` and `render_joins` exactly
//! those of a certificate and of the potentials of joined legs; and that `Groups::next` gives exactly the next group or the first bad line.
#![tactic(auto)]

mod certificate;
mod draft;
mod fields;
mod group;
mod groups;
mod heads;
mod law;
mod legs;
mod line;
mod longer;
mod outcomes;
mod reader;
mod runs;
mod text;
mod ways;
mod whole;

pub use certificate::{Certificate, render_joins, render_proof};
pub use group::render;
pub use groups::Group;
pub use law::{printed_entries_are_in_form, printed_groups_are_read};
pub use reader::{GroupFault, Groups};
pub use text::{TextCancelled, TextDecision, TextEntry, TextOffer, TextRemoval};
pub use ways::render_way;
