ghost use Rattle.std.specs.Prelude.{◌≡◌, ℕ};

use std::fmt;

/// How a run ended.
#[derive(Clone, Copy, Debug, PartialEq, Eq)]
pub enum Status {
    /// All was read to the end and answered.
    Done,
    /// The words have a form that isn't answered yet. Nothing is begun and nothing written.
    NotYet,
    /// The words are none of the forms that `run` takes. Nothing is begun and nothing written.
    Usage,
    /// The graph is refused, and this is its first bad line, from 1. Nothing is written.
    GraphText { line: u64 },
    /// The fleet is refused at this row, from 1 behind the header, or as a whole (0). Nothing is written.
    FleetText { row: u64 },
    /// This line of the stream, from 1, is its first bad one. The lines before it are answered.
    StreamText { line: u64 },
    /// A text could not be begun, or not be read further. The lines of the stream whose ends were read are answered.
    ReadFault,
    /// The output couldn't be written. A prefix of it was.
    WriteFault,
    /// Memory was wanted. Of the stream the first lines are answered, or none.
    NoMemory,
}

impl Status {
    ghost use Rattle.dispatch_top.specs.Codes.{code_of};

    /// The program's exit code.
    pub fn code(&self) -> u8
        ensures { result ≡ code_of self.now }
    {
        match self {
            Status::Done => 0,
            Status::NotYet => 1,
            Status::Usage => 2,
            Status::GraphText { .. } => 3,
            Status::FleetText { .. } => 4,
            Status::StreamText { .. } => 5,
            Status::ReadFault => 6,
            Status::WriteFault => 7,
            Status::NoMemory => 8,
        }
    }
}

/// What is told of a run on the standard error: nothing where it is done.
impl fmt::Display for Status {
    ghost use Rattle.std.specs.Prelude.{Some};
    ghost use Rattle.dispatch_top.specs.Codes.{told_as};

    ghost output = { λ status. Some (told_as status) };

    fn fmt<W: fmt::Write>(&self, f: &mut fmt::Formatter<W>) -> fmt::Result {
        match self {
            Status::Done => Ok(()),
            Status::NotYet => f.write_str("not yet"),
            Status::Usage => f.write_str("usage"),
            Status::GraphText { line } => write!(f, "graph line {line}"),
            Status::FleetText { row } => write!(f, "fleet row {row}"),
            Status::StreamText { line } => write!(f, "stream line {line}"),
            Status::ReadFault => f.write_str("read fault"),
            Status::WriteFault => f.write_str("write fault"),
            Status::NoMemory => f.write_str("no memory"),
        }
    }
}
