ghost use Rattle.std.specs.Prelude.{◌≡◌, IfOk, IfErr};
ghost use Rattle.csv.specs.Reading.{default_config, records, strip_bom};
ghost use Rattle.csv.specs.Records.{fields_of};
ghost use Rattle.input_tables.specs.Records.{IsReading, Gives, WantsMemory, records_left};

use crate::faults::FleetFault;
use csv::{ByteRecord, ErrorKind, Reader, ReaderBuilder};
use std::alloc::Global;

/// A reader of the records of a text, the first one among them, of any number of fields each.
pub(crate) fn records_of(alloc: Global, text: &[u8]) -> Reader<&[u8]>
    ensures reading { IsReading result }
    ensures records { records_left result ≡ records default_config (strip_bom text.now) }
{
    ReaderBuilder::new()
        .has_headers(false)
        .flexible(true)
        .from_reader(alloc, text)
}

/// Reads the next record, and says whether there was one. After an error nothing more can be read.
pub(crate) fn next_record(
    reader: &mut Reader<&[u8]>,
    fields: &mut ByteRecord,
) -> Result<bool, FleetFault>
    requires { IsReading reader.old }
    ensures gives { IfOk result
        (λ found. Gives (records_left reader.old) found (fields_of fields.new) reader.new) }
    ensures memory { IfErr result (λ e. e ≡ FleetFault.NoMemory) }
{
    match reader.read_byte_record(fields) {
        Ok(found) => Ok(found),
        Err(error) => Err(fault_of(error.kind())),
    }
}

/// The fault of an error of the crate, which refuses no record for its length.
fn fault_of(error: &ErrorKind) -> FleetFault
    requires { WantsMemory error.now }
    ensures { result ≡ FleetFault.NoMemory }
{
    match error {
        ErrorKind::Io(_) | ErrorKind::OutOfMemory => FleetFault::NoMemory,
        ErrorKind::UnequalLengths { .. }
        | ErrorKind::Utf8 { .. }
        | ErrorKind::Serialize(_)
        | ErrorKind::Deserialize { .. } => unreachable!(),
    }
}
