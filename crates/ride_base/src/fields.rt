ghost use Rattle.std.specs.Prelude.{◌≡◌, ◌<◌, ◌≤◌, length, [], position, Some, MatchOption, IfSome};
ghost use Rattle.std.specs.List.{position_or_len};
ghost use Rattle.ride_base.specs.Fields.{IsCut, fields_of, is_blank as is_blank_of, is_unblank, begins_comment as begins_comment_of, capped_of};

/// The largest number of 32 bits.
pub const LARGEST_32: u64 = u32::MAX as u64;

/// The first field of a line, and what stands behind it. Fields are parted by one or more spaces or tabs. None exactly where no field
/// is left.
pub fn next_field(line: &[u8]) -> Option<(&[u8], &[u8])>
    ensures field { MatchOption result (fields_of line.now ≡ [])
        (λ cut. IsCut line.now cut.0.now cut.1.now) }
    ensures some { IfSome result (λ parts. 0 < length parts.0.now) }
    ensures shorter { IfSome result (λ parts. length parts.1.now < length line.now) }
{
    let start = field_start(line)?;
    let from = &line[start..];
    let end = field_end(from);
    Some((&from[..end], &from[end..]))
}

/// Where the first byte that is no blank stands.
fn field_start(line: &[u8]) -> Option<usize>
    ensures place { result ≡ position is_unblank line.now }
    ensures within { IfSome result (λ start. start < length line.now) }
{
    line.iter().position(|byte| !is_blank(*byte))
}

/// How many bytes stand before the first blank.
fn field_end(bytes: &[u8]) -> usize
    ensures place { result ≡ position_or_len is_blank_of bytes.now }
    ensures within { result ≤ length bytes.now }
{
    match first_blank(bytes) {
        Some(end) => end,
        None => bytes.len(),
    }
}

/// Where the first blank stands.
fn first_blank(bytes: &[u8]) -> Option<usize>
    ensures { result ≡ position is_blank_of bytes.now }
{
    bytes.iter().position(|byte| is_blank(*byte))
}

/// Whether it is a space or a tab.
pub fn is_blank(byte: u8) -> bool
    ensures { result ≡ is_blank_of byte }
{
    byte == b' ' || byte == b'\t'
}

/// Whether a line whose first field this is is a comment: the field begins with `c`.
pub fn begins_comment(field: &[u8]) -> bool
    ensures { result ≡ begins_comment_of field.now }
{
    match field.first() {
        Some(byte) => *byte == b'c',
        None => false,
    }
}

/// The number that decimal digits spell, leading zeros among them, or 2^64 - 1 where it is larger. None exactly where the text is
/// empty or has a byte that is no digit.
pub fn capped_number(bytes: &[u8]) -> Option<u64>
    ensures { result ≡ capped_of bytes.now }
{
    if bytes.is_empty() {
        return None;
    }
    let mut value: u64 = 0;
    for byte in bytes {
        if !byte.is_ascii_digit() {
            return None;
        }
        let digit = u64::from(*byte - b'0');
        value = value.saturating_mul(10).saturating_add(digit);
    }
    Some(value)
}
