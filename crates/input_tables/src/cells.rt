ghost use Rattle.std.specs.Prelude.{◌≡◌, reverse};
ghost use Rattle.csv.specs.Records.{fields_of, field_at};
ghost use Rattle.input_tables.specs.Fleets.{without_blanks as without_blanks_of, behind_blanks as behind_blanks_of};
ghost use Rattle.input_tables.specs.Rows.{begins_header, headed_by, is_named, number_in, row_of, spaces_in};

use csv::ByteRecord;
use ride_base::{capped_number, is_blank};

/// The numbers of a row, each cut at the largest of 64 bits.
#[derive(Clone, Copy)]
pub(crate) struct RowNumbers {
    pub(crate) number: u64,
    pub(crate) start: u64,
    pub(crate) seats: u64,
    pub(crate) from: u64,
    pub(crate) until: u64,
    pub(crate) spaces: u64,
}

/// Whether a record begins as `vehicle,start,seats,from,until`.
fn begins_header(fields: &ByteRecord) -> bool
    ensures { result ≡ begins_header (fields_of fields.now) }
{
    is_at(fields, 0, b"vehicle")
        && is_at(fields, 1, b"start")
        && is_at(fields, 2, b"seats")
        && is_at(fields, 3, b"from")
        && is_at(fields, 4, b"until")
}

/// Whether the rows behind this header have wheelchair spaces. None where the record is neither `vehicle,start,seats,from,until` nor
/// that with `,spaces` behind it.
pub(crate) fn has_spaces(fields: &ByteRecord) -> Option<bool>
    ensures { result ≡ headed_by (fields_of fields.now) }
{
    if !begins_header(fields) {
        None
    } else if fields.len() == 5 {
        Some(false)
    } else if fields.len() == 6 && is_at(fields, 5, b"spaces") {
        Some(true)
    } else {
        None
    }
}

/// The wheelchair spaces of a row, 0 where it doesn't tell them. None where they are no number.
fn spaces_at(fields: &ByteRecord, spaces: bool) -> Option<u64>
    ensures { result ≡ spaces_in spaces (fields_of fields.now) }
{
    if spaces {
        number_at(fields, 5)
    } else {
        Some(0)
    }
}

/// The numbers of a row, with wheelchair spaces or without. None where it hasn't so many fields, or one of them is no number.
pub(crate) fn row_numbers(fields: &ByteRecord, spaces: bool) -> Option<RowNumbers>
    ensures { result ≡ row_of spaces (fields_of fields.now) }
{
    if fields.len() != (if spaces { 6 } else { 5 }) {
        return None;
    }
    let (Some(number), Some(start), Some(seats), Some(from), Some(until), Some(spaces)) = (
        number_at(fields, 0),
        number_at(fields, 1),
        number_at(fields, 2),
        number_at(fields, 3),
        number_at(fields, 4),
        spaces_at(fields, spaces),
    ) else {
        return None;
    };
    Some(RowNumbers {
        number,
        start,
        seats,
        from,
        until,
        spaces,
    })
}

/// Whether this field of a record is a name.
fn is_at(fields: &ByteRecord, place: usize, name: &[u8]) -> bool
    ensures { result ≡ is_named (field_at (fields_of fields.now) place) name.now }
{
    match fields.get(place) {
        Some(field) => without_blanks(field) == name,
        None => false,
    }
}

/// The number in this field of a record.
fn number_at(fields: &ByteRecord, place: usize) -> Option<u64>
    ensures { result ≡ number_in (field_at (fields_of fields.now) place) }
{
    capped_number(without_blanks(fields.get(place)?))
}

/// A field without the spaces and tabs round it.
fn without_blanks(field: &[u8]) -> &[u8]
    ensures { result.now ≡ without_blanks_of field.now }
{
    before_blanks(behind_blanks(field))
}

/// A field without the blanks before it.
fn behind_blanks(field: &[u8]) -> &[u8]
    ensures { result.now ≡ behind_blanks_of field.now }
{
    let mut rest = field;
    while let Some((first, behind)) = rest.split_first() {
        if !is_blank(*first) {
            break;
        }
        rest = behind;
    }
    rest
}

/// A field without the blanks behind it.
fn before_blanks(field: &[u8]) -> &[u8]
    ensures { result.now ≡ reverse (behind_blanks_of (reverse field.now)) }
{
    let mut rest = field;
    while let Some((last, before)) = rest.split_last() {
        if !is_blank(*last) {
            break;
        }
        rest = before;
    }
    rest
}
