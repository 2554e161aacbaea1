ghost use Rattle.std.specs.Prelude.{◌≡◌, ℕ, List, Option};
ghost use Rattle.ride_base.specs.Digits.{number_of};

/// The number that decimal digits spell, leading zeros among them. None exactly where the text is empty, has a byte that is no
/// digit, or spells a number above the limit.
pub fn number(bytes: &[u8], limit: u64) -> Option<u64>
    ensures { result ≡ number_of bytes.now limit }
{
    if bytes.is_empty() {
        return None;
    }
    let mut value: u64 = 0;
    for b in bytes {
        if !b.is_ascii_digit() {
            return None;
        }
        let digit = u64::from(*b - b'0');
        value = value.checked_mul(10)?.checked_add(digit)?;
        if value > limit {
            return None;
        }
    }
    Some(value)
}
