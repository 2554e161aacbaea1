use ride_base::NoMemory;
use thiserror::Error;

/// Why a text is no table of vehicles. Rows count from 1 behind the header.
#[derive(Clone, Copy, Debug, PartialEq, Eq, Error)]
pub enum FleetFault {
    /// The shelf failed, and its count of faults rose.
    #[error("the table can't be read")]
    Fault,
    /// The text has more than 16,777,216 bytes.
    #[error("the table is larger than 16777216 bytes")]
    Large,
    /// The first record isn't `vehicle,start,seats,from,until`, with `,spaces` behind it or not, or there is none.
    #[error("the table doesn't begin with vehicle,start,seats,from,until")]
    Header,
    /// The row hasn't five fields of digits, or six behind a header with `,spaces`.
    #[error("row {row} hasn't a number for each name of the header")]
    Form { row: u64 },
    /// A number of the row is out of its range, or there are too many rows.
    #[error("row {row} has a number out of its range")]
    Range { row: u64 },
    /// The vehicle's number stood in an earlier row.
    #[error("row {row} names a vehicle again")]
    Double { row: u64 },
    /// There was no memory.
    #[error("out of memory")]
    NoMemory,
}

impl From<NoMemory> for FleetFault {
    ghost use Rattle.std.specs.Prelude.{◌≡◌};
    ghost use Rattle.input_tables.specs.declared.faults.FleetFault.TheVariants.{NoMemory};

    ghost from_gives = { λ _ e. e ≡ NoMemory };

    fn from(_: NoMemory) -> FleetFault {
        FleetFault::NoMemory
    }
}

/// Why a line is none of a stream.
#[derive(Clone, Copy, Debug, PartialEq, Eq, Error)]
pub enum StreamFault {
    /// It is no ride `r`, no move of the clock `t`, no cancellation `y` and no comment, and has a field.
    #[error("the line has none of the forms")]
    Form,
    /// A number is out of its range.
    #[error("a number of the line is out of its range")]
    Range,
}
