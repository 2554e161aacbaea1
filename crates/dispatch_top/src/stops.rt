use crate::status::Status;
use dimacs_reader::GraphFault;
use input_tables::FleetFault;
use ride_base::{BeginFault, Failed, NoMemory};

/// Why a text that is read whole isn't read.
#[derive(Clone, Copy, Debug, PartialEq, Eq)]
pub(crate) enum TextStop {
    /// It is refused at this line or row, or at none (0).
    Refused { place: u64 },
    /// It could not be begun, or not be read further.
    ReadFault,
    /// Memory was wanted.
    NoMemory,
}

impl From<BeginFault> for TextStop {
    ghost use Rattle.std.specs.Prelude.{◌≡◌};
    ghost use Rattle.dispatch_top.specs.Stops.{stop_of_begin};

    ghost from_gives = { λ f e. e ≡ stop_of_begin f };

    fn from(fault: BeginFault) -> TextStop {
        match fault {
            BeginFault::Failed => TextStop::ReadFault,
            BeginFault::NoMemory => TextStop::NoMemory,
        }
    }
}

impl From<GraphFault> for TextStop {
    ghost use Rattle.std.specs.Prelude.{◌≡◌};
    ghost use Rattle.dispatch_top.specs.Stops.{stop_of_graph};

    ghost from_gives = { λ f e. e ≡ stop_of_graph f };

    fn from(fault: GraphFault) -> TextStop {
        match fault {
            GraphFault::Fault => TextStop::ReadFault,
            GraphFault::Form { line }
            | GraphFault::Count { line, .. }
            | GraphFault::Node { line }
            | GraphFault::Weight { line }
            | GraphFault::Limit { line } => TextStop::Refused { place: line },
            GraphFault::NoMemory => TextStop::NoMemory,
        }
    }
}

impl From<FleetFault> for TextStop {
    ghost use Rattle.std.specs.Prelude.{◌≡◌};
    ghost use Rattle.dispatch_top.specs.Stops.{stop_of_fleet};

    ghost from_gives = { λ f e. e ≡ stop_of_fleet f };

    fn from(fault: FleetFault) -> TextStop {
        match fault {
            FleetFault::Fault => TextStop::ReadFault,
            FleetFault::Large | FleetFault::Header => TextStop::Refused { place: 0 },
            FleetFault::Form { row } | FleetFault::Range { row } | FleetFault::Double { row } => {
                TextStop::Refused { place: row }
            }
            FleetFault::NoMemory => TextStop::NoMemory,
        }
    }
}

/// Which of the texts that are read whole isn't read, and why.
#[derive(Clone, Copy, Debug, PartialEq, Eq)]
pub(crate) enum ReadingStop {
    /// The graph.
    Graph(TextStop),
    /// The fleet.
    Fleet(TextStop),
}

impl ReadingStop {
    ghost use Rattle.std.specs.Prelude.{◌≡◌};
    ghost use Rattle.dispatch_top.specs.Stops.{status_of_reading};

    /// The status of a run that ends so.
    pub(crate) fn status(self) -> Status
        ensures { result ≡ status_of_reading self }
    {
        match self {
            ReadingStop::Graph(TextStop::Refused { place }) => Status::GraphText { line: place },
            ReadingStop::Fleet(TextStop::Refused { place }) => Status::FleetText { row: place },
            ReadingStop::Graph(TextStop::ReadFault) | ReadingStop::Fleet(TextStop::ReadFault) => {
                Status::ReadFault
            }
            ReadingStop::Graph(TextStop::NoMemory) | ReadingStop::Fleet(TextStop::NoMemory) => {
                Status::NoMemory
            }
        }
    }
}

/// How the lines of a stream end.
#[derive(Clone, Copy, Debug, PartialEq, Eq)]
pub(crate) enum StreamExit {
    /// At the end of the text.
    AtEnd,
    /// At the first bad line, of this number from 1.
    AtBad { line: u64 },
    /// The text could not be begun, or not be read further.
    AtFault,
}

impl StreamExit {
    ghost use Rattle.std.specs.Prelude.{◌≡◌};
    ghost use Rattle.dispatch_top.specs.Stops.{status_of_exit};

    /// The status of a run whose stream ends so.
    pub(crate) fn status(self) -> Status
        ensures { result ≡ status_of_exit self }
    {
        match self {
            StreamExit::AtEnd => Status::Done,
            StreamExit::AtBad { line } => Status::StreamText { line },
            StreamExit::AtFault => Status::ReadFault,
        }
    }
}

/// Why not all of an output is written.
#[derive(Clone, Copy, Debug, PartialEq, Eq)]
pub(crate) enum OutputStop {
    /// The sink failed. It has taken a prefix of the output.
    WriteFault,
    /// Memory was wanted.
    NoMemory,
}

impl OutputStop {
    ghost use Rattle.std.specs.Prelude.{◌≡◌};
    ghost use Rattle.dispatch_top.specs.Stops.{status_of_output};

    /// The status of a run whose output ends so.
    pub(crate) fn status(self) -> Status
        ensures { result ≡ status_of_output self }
    {
        match self {
            OutputStop::WriteFault => Status::WriteFault,
            OutputStop::NoMemory => Status::NoMemory,
        }
    }
}

impl From<NoMemory> for OutputStop {
    ghost use Rattle.std.specs.Prelude.{◌≡◌};
    ghost use Rattle.dispatch_top.specs.declared.stops.OutputStop.TheVariants.{NoMemory};

    ghost from_gives = { λ _ e. e ≡ NoMemory };

    fn from(_: NoMemory) -> OutputStop {
        OutputStop::NoMemory
    }
}

impl From<Failed> for OutputStop {
    ghost use Rattle.std.specs.Prelude.{◌≡◌};
    ghost use Rattle.dispatch_top.specs.declared.stops.OutputStop.TheVariants.{WriteFault};

    ghost from_gives = { λ _ e. e ≡ WriteFault };

    fn from(_: Failed) -> OutputStop {
        OutputStop::WriteFault
    }
}
