//! The base of all layers: lists that contracts see as lists, texts that come in pieces from a shelf, their lines, fields and numbers,
//! and a sink for what is printed.
//! Readers of lines go by the clauses of `Lines::read_line` and `Lines::next`: `tells` (which piece of the text an answer is), `counts`
//! and `few` of `given` (the number of a line), `goes` and `failed` (which lines a reader gave, and that no other was read where the shelf
//! failed), `near` and `held` (no more than one read past a line is read, and so much is held), `rose` and `quiet` (a fault that was
//! counted is told as one), `wanted` (no line that met a limit is told as want of memory). A text that is read at once goes by `tells`,
//! `near` and `short` of `whole`. All of them keep `OnlyRead` of the shelf, and what was printed goes by `ok` and `err` of `write_whole`.
//! What a call above does to a shelf and a sink is said over one value, `Call`. Fields and numbers are exact: `next_field`, `number`,
//! `capped_number`. Laws of shelves and lines stand in `proofs/ShelfLaws.antt`, `proofs/LineLaws.antt` and `proofs/ReadLaws.antt`.
#![tactic(auto)]

mod buffer;
mod digits;
mod fields;
mod host;
mod items;
mod lines;
mod memory;
mod numbers;
mod outside;
mod texts;

pub use digits::number;
pub use fields::{LARGEST_32, begins_comment, capped_number, is_blank, next_field};
pub use host::{HostShelf, HostSink};
pub use items::{Items, NoMemory};
pub use lines::{LARGEST_TEXT, Line, LineFault, Lines};
pub use memory::{MemoryShelf, MemorySink};
pub use numbers::{RequestNo, VehicleNo};
pub use outside::{BeginFault, Failed, Shelf, Sink, write_whole};
pub use texts::whole;
