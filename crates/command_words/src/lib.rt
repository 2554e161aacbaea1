//! What the words of a command line say, read with clap.
//! The layer above uses that `form` answers the form of the definitions, or none exactly where the words are none of the forms.
#![tactic(auto)]

mod command_lines;
mod forms;
mod words;

pub use command_lines::form;
pub use forms::Form;
