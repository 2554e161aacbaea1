ghost use Rattle.std.specs.Prelude.{◌≡◌, ◌≤◌, length, position, Some, None, MatchOption};
ghost use Rattle.ride_base.specs.Digits.{is_digit as is_digit_of};
ghost use Rattle.journal_text.specs.Forms.{largest_number as largest_of, largest_32 as largest_of_32};
ghost use Rattle.journal_text.specs.Drafts.{behind_the, rest_at_end};
ghost use Rattle.journal_text.specs.LineParts.{behind_space_of, digits_ahead, is_no_digit, number_at_front, number_ahead, plain_number_of};

use crate::runs::LARGEST_VALUE;
use ride_base::{RequestNo, VehicleNo, number};
use road_graph::NodeNo;

/// The largest number of a request or a desk, cost, and time of an entry but of a move of the clock.
const LARGEST_NUMBER: u64 = 1 << 62;

/// The largest number of a node, of riders and of a vehicle.
const LARGEST_32: u64 = 4_294_967_295;

/// What stands behind a space at the front. None exactly where there is no space.
pub(crate) fn behind_space(bytes: &[u8]) -> Option<&[u8]>
    ensures rest { MatchOption result (behind_space_of bytes.now ≡ None)
        (λ rest. behind_space_of bytes.now ≡ Some rest.now) }
{
    let (first, rest) = bytes.split_first()?;
    if *first == b' ' { Some(rest) } else { None }
}

/// How many digits stand at the front.
fn digits_at_front(bytes: &[u8]) -> usize
    ensures count { result ≡ digits_ahead bytes.now }
    ensures within { result ≤ length bytes.now }
{
    match first_other(bytes) {
        Some(end) => end,
        None => bytes.len(),
    }
}

/// Where the first byte stands that is no digit.
fn first_other(bytes: &[u8]) -> Option<usize>
    ensures { result ≡ position is_no_digit bytes.now }
{
    bytes.iter().position(|byte| !is_digit(*byte))
}

fn is_digit(byte: u8) -> bool
    ensures { result ≡ is_digit_of byte }
{
    b'0' <= byte && byte <= b'9'
}

/// The number that stands behind a space at the front, and what is left behind its digits. None exactly where there is none, or one
/// with a leading zero or above the limit.
pub(crate) fn next_number(bytes: &[u8], limit: u64) -> Option<(u64, &[u8])>
    ensures number { MatchOption result (number_ahead bytes.now limit ≡ None)
        (λ cut. number_ahead bytes.now limit ≡ Some (cut.0, cut.1.now)) }
{
    number_in_front(behind_space(bytes)?, limit)
}

/// The number at the front, and what is left behind its digits.
fn number_in_front(bytes: &[u8], limit: u64) -> Option<(u64, &[u8])>
    ensures number { MatchOption result (number_at_front bytes.now limit ≡ None)
        (λ cut. number_at_front bytes.now limit ≡ Some (cut.0, cut.1.now)) }
{
    let end = digits_at_front(bytes);
    let value = plain_number(&bytes[..end], limit)?;
    Some((value, &bytes[end..]))
}

/// The number that digits spell without leading zeros.
fn plain_number(digits: &[u8], limit: u64) -> Option<u64>
    ensures { result ≡ plain_number_of digits.now limit }
{
    if digits.len() > 1 && digits[0] == b'0' {
        return None;
    }
    number(digits, limit)
}

/// The same of a number up to 2^62.
pub(crate) fn next_large(bytes: &[u8]) -> Option<(u64, &[u8])>
    ensures number { MatchOption result (number_ahead bytes.now largest_of ≡ None)
        (λ cut. number_ahead bytes.now largest_of ≡ Some (cut.0, cut.1.now)) }
{
    next_number(bytes, LARGEST_NUMBER)
}

/// The same of the number of a request.
pub(crate) fn next_request(bytes: &[u8]) -> Option<(RequestNo, &[u8])>
    ensures number { MatchOption result (number_ahead bytes.now largest_of ≡ None)
        (λ cut. number_ahead bytes.now largest_of ≡ Some (cut.0.0, cut.1.now)) }
{
    let (number, rest) = next_large(bytes)?;
    Some((RequestNo(number), rest))
}

/// The same of a number of 32 bits.
pub(crate) fn next_32(bytes: &[u8]) -> Option<(u32, &[u8])>
    ensures number { MatchOption result (number_ahead bytes.now largest_of_32 ≡ None)
        (λ cut. number_ahead bytes.now largest_of_32 ≡ Some (cut.0, cut.1.now)) }
{
    let (number, rest) = next_number(bytes, LARGEST_32)?;
    Some((number as u32, rest))
}

/// The same of the number of a vehicle.
pub(crate) fn next_vehicle(bytes: &[u8]) -> Option<(VehicleNo, &[u8])>
    ensures number { MatchOption result (number_ahead bytes.now largest_of_32 ≡ None)
        (λ cut. number_ahead bytes.now largest_of_32 ≡ Some (cut.0.0, cut.1.now)) }
{
    let (number, rest) = next_32(bytes)?;
    Some((VehicleNo(number), rest))
}

/// The same of the number of a node.
pub(crate) fn next_node(bytes: &[u8]) -> Option<(NodeNo, &[u8])>
    ensures number { MatchOption result (number_ahead bytes.now largest_of_32 ≡ None)
        (λ cut. number_ahead bytes.now largest_of_32 ≡ Some (cut.0.0, cut.1.now)) }
{
    let (number, rest) = next_32(bytes)?;
    Some((NodeNo(number), rest))
}

/// What stands behind that number, behind a space at the front. None exactly where it isn't there.
pub(crate) fn behind_number(bytes: &[u8], number: u64) -> Option<&[u8]>
    ensures { MatchOption result (behind_the bytes.now number ≡ None)
        (λ rest. behind_the bytes.now number ≡ Some rest.now) }
{
    let (found, rest) = next_number(bytes, number)?;
    if found == number { Some(rest) } else { None }
}

/// ` REST` at the end of a line: a number, or `-` for none.
pub(crate) fn last_rest(bytes: &[u8]) -> Option<Option<u64>>
    ensures { result ≡ rest_at_end bytes.now }
{
    if bytes == b" -".as_slice() {
        return Some(None);
    }
    let (value, rest) = next_number(bytes, LARGEST_VALUE)?;
    if rest.is_empty() {
        Some(Some(value))
    } else {
        None
    }
}
