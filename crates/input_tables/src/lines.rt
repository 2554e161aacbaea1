ghost use Rattle.std.specs.Prelude.{◌≡◌, [], IfOk, IfErr, OnOk};
ghost use Rattle.ride_base.specs.Fields.{fields_of};
ghost use Rattle.input_tables.specs.Numbers.{HasNumber, numbers_of, HasNoNumber, GoesOn, last_number_of, ride_with};
ghost use Rattle.input_tables.specs.Streams.{IsInRange, stream_line_of, move_of, cancel_of, ranged_ride};

use crate::faults::StreamFault;
use ride_base::{LARGEST_32, Line, RequestNo, begins_comment, capped_number, next_field};
use road_graph::NodeNo;
use stop_schedule::{LATEST_MOMENT, Request};

/// The largest number of a request.
const LARGEST_NUMBER: u64 = LATEST_MOMENT;

/// What a line of a request stream says.
#[derive(Clone, Copy, Debug, PartialEq, Eq)]
pub enum StreamLine {
    /// A request is submitted. Its number and moment are at most 2^40, its nodes and riders any numbers of 32 bits.
    Ride(Request),
    /// The clock moves to this moment, at most 2^40.
    Move(u64),
    /// The request of this number, at most 2^40, is cancelled.
    Cancel(RequestNo),
    /// A comment, or a line without fields.
    Nothing,
}

/// What a line of a request stream says: `r ID P D T Q S` is a request, whose wheelchair spaces S may be left out where there are none,
/// `t T` a move of the clock and `y ID` a cancellation. A form that is none is told before a number that is out of its range. It takes
/// no memory.
pub fn stream_line(line: &Line) -> Result<StreamLine, StreamFault>
    ensures says { result ≡ stream_line_of line.now.bytes }
    ensures ranges { IfOk result IsInRange }
{
    let Some((first, rest)) = next_field(line.bytes.as_slice()) else {
        return Ok(StreamLine::Nothing);
    };
    if begins_comment(first) {
        Ok(StreamLine::Nothing)
    } else if first == b"r".as_slice() {
        ride(rest)
    } else if first == b"t".as_slice() {
        clock_move(rest)
    } else if first == b"y".as_slice() {
        cancellation(rest)
    } else {
        Err(StreamFault::Form)
    }
}

/// `r ID P D T Q`, or `r ID P D T Q S`, behind its first field.
fn ride(fields: &[u8]) -> Result<StreamLine, StreamFault>
    ensures says { result ≡ ride_with (numbers_of (fields_of fields.now)) }
    ensures ranges { IfOk result IsInRange }
{
    let (no, fields) = next_number(fields)?;
    let (pickup, fields) = next_number(fields)?;
    let (dropoff, fields) = next_number(fields)?;
    let (moment, fields) = next_number(fields)?;
    let (riders, fields) = next_number(fields)?;
    let spaces = last_number(fields)?;
    request(no, pickup, dropoff, moment, riders, spaces)
}

/// The number of the last field, or 0 where no field is left.
fn last_number(fields: &[u8]) -> Result<u64, StreamFault>
    ensures { result ≡ last_number_of (numbers_of (fields_of fields.now)) }
{
    if next_field(fields).is_none() {
        return Ok(0);
    }
    let (number, fields) = next_number(fields)?;
    no_field(fields)?;
    Ok(number)
}

/// `t T`, behind its first field.
fn clock_move(fields: &[u8]) -> Result<StreamLine, StreamFault>
    ensures says { result ≡ move_of (fields_of fields.now) }
    ensures ranges { IfOk result IsInRange }
{
    let (moment, fields) = next_number(fields)?;
    no_field(fields)?;
    if moment <= LATEST_MOMENT {
        Ok(StreamLine::Move(moment))
    } else {
        Err(StreamFault::Range)
    }
}

/// `y ID`, behind its first field.
fn cancellation(fields: &[u8]) -> Result<StreamLine, StreamFault>
    ensures says { result ≡ cancel_of (fields_of fields.now) }
    ensures ranges { IfOk result IsInRange }
{
    let (number, fields) = next_number(fields)?;
    no_field(fields)?;
    if number <= LARGEST_NUMBER {
        Ok(StreamLine::Cancel(RequestNo(number)))
    } else {
        Err(StreamFault::Range)
    }
}

/// The request of these numbers, or that one of them is out of its range.
fn request(
    no: u64,
    pickup: u64,
    dropoff: u64,
    moment: u64,
    riders: u64,
    spaces: u64,
) -> Result<StreamLine, StreamFault>
    ensures says { result ≡ ranged_ride no pickup dropoff moment riders spaces }
    ensures ranges { IfOk result IsInRange }
{
    if no <= LARGEST_NUMBER
        && pickup <= LARGEST_32
        && dropoff <= LARGEST_32
        && moment <= LATEST_MOMENT
        && riders <= LARGEST_32
        && spaces <= LARGEST_32
    {
        Ok(StreamLine::Ride(Request {
            no: RequestNo(no),
            pickup: NodeNo(pickup as u32),
            dropoff: NodeNo(dropoff as u32),
            moment,
            riders: riders as u32,
            spaces: spaces as u32,
        }))
    } else {
        Err(StreamFault::Range)
    }
}

/// The number of the next field, or 2^64 - 1 where it is larger, and what stands behind it.
fn next_number(fields: &[u8]) -> Result<(u64, &[u8]), StreamFault>
    ensures number { IfOk result (λ parts. HasNumber fields.now parts.0 parts.1.now) }
    ensures none { IfErr result
        (λ e. (e ≡ StreamFault.Form) × HasNoNumber (numbers_of (fields_of fields.now))) }
{
    let (field, rest) = next_field(fields).ok_or(StreamFault::Form)?;
    let number = capped_number(field).ok_or(StreamFault::Form)?;
    Ok((number, rest))
}

/// No field is left.
fn no_field(fields: &[u8]) -> Result<(), StreamFault>
    ensures none { OnOk result (fields_of fields.now ≡ []) }
    ensures more { IfErr result
        (λ e. (e ≡ StreamFault.Form) × GoesOn (numbers_of (fields_of fields.now))) }
{
    match next_field(fields) {
        None => Ok(()),
        Some(_) => Err(StreamFault::Form),
    }
}
