use ride_base::NoMemory;
use thiserror::Error;

/// Why a text is no graph, or no places of a graph's nodes. Lines count from 1.
#[derive(Clone, Copy, Debug, PartialEq, Eq, Error)]
pub enum GraphFault {
    /// The shelf failed, and its count of faults rose.
    #[error("the text can't be read")]
    Fault,
    /// The line has none of the forms, or not where it stands. A text that ends before its problem line is refused so, too, at the line
    /// behind its last one.
    #[error("line {line} has none of the forms")]
    Form { line: u64 },
    /// There are more roads or places than the problem line said, or fewer at the end of the text (at the line behind its last one). Of
    /// places it may say another number than that of the graph's nodes, which is then the number found.
    #[error("line {line}: {said} were said, and {found} found")]
    Count { line: u64, said: u64, found: u64 },
    /// A number on the line is no node, or the node of a place has one already.
    #[error("line {line} names no node")]
    Node { line: u64 },
    /// The weight of the road, or a coordinate, is out of its range.
    #[error("line {line} has a number out of its range")]
    Weight { line: u64 },
    /// The line is too long, the text too large, or the problem line says more than a graph may have.
    #[error("line {line} goes past a limit")]
    Limit { line: u64 },
    /// There was no memory.
    #[error("out of memory")]
    NoMemory,
}

impl From<NoMemory> for GraphFault {
    ghost use Rattle.std.specs.Prelude.{◌≡◌};
    ghost use Rattle.dimacs_reader.specs.declared.faults.GraphFault.TheVariants.{NoMemory};

    ghost from_gives = { λ _ e. e ≡ NoMemory };

    fn from(_: NoMemory) -> GraphFault {
        GraphFault::NoMemory
    }
}
