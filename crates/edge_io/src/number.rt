ghost use Rattle.std.specs.Prelude.{◌≡◌, ◌≤◌, ◌<◌, ◌^◌, Some, IfSome, unsigned_abs};
ghost use Rattle.edge_io.specs.Numbers as numbers;

/// The number of the digits, where each byte is one and no number on the way is above `limit`.
fn digits(field: &[u8], limit: u64) -> Option<u64>
    ensures value { result ≡ numbers.digits_up_to limit 0 field.now }
    ensures bound { IfSome result (λ n. n ≤ limit) }
{
    let mut value = 0_u64;
    for digit in field {
        if !digit.is_ascii_digit() {
            return None;
        }
        value = value
            .checked_mul(10)?
            .checked_add(u64::from(*digit - b'0'))?;
        if value > limit {
            return None;
        }
    }
    Some(value)
}

// One function for all numbers, up to any limit of 64 bits. std's `parse` takes a plus and leading zeros.
/// The number of at most `limit` that a field spells in decimal digits, without a leading zero.
pub fn natural(field: &[u8], limit: u64) -> Option<u64>
    ensures value { result ≡ numbers.natural_up_to limit field.now }
    ensures bound { IfSome result (λ n. n ≤ limit) }
{
    match field {
        [] | [b'0', _, ..] => None,
        _ => digits(field, limit),
    }
}

/// The number of at most `limit` from 0 that a field spells: as [`natural`], or below 0 with a minus in front.
pub fn integer(field: &[u8], limit: u32) -> Option<i64>
    ensures value { result ≡ numbers.integer_up_to limit field.now }
    ensures bound { IfSome result (λ z. unsigned_abs z ≤ limit) }
{
    match field {
        [b'-', digits @ ..] => below_zero(natural(digits, u64::from(limit))?),
        _ => Some(natural(field, u64::from(limit))? as i64),
    }
}

/// The number as far below 0. There is none for 0, which has no sign.
fn below_zero(value: u64) -> Option<i64>
    requires { value < 2 ^ 32 }
    ensures value { result ≡ numbers.negative_of (Some value) }
    ensures bound { IfSome result (λ z. unsigned_abs z ≡ value) }
{
    if value == 0 {
        None
    } else {
        Some(-(value as i64))
    }
}

/// Whether each byte is a decimal digit.
fn are_digits(field: &[u8]) -> bool
    ensures { result ≡ numbers.are_digits field.now }
{
    field.iter().all(u8::is_ascii_digit)
}

/// Whether a field spells a number from 0 up, however large, in decimal digits without a leading zero.
pub fn is_natural(field: &[u8]) -> bool
    ensures { result ≡ numbers.is_natural field.now }
{
    match field {
        [] | [b'0', _, ..] => false,
        _ => are_digits(field),
    }
}

/// Whether a field spells a number, however far from 0: as [`is_natural`], or below 0 with a minus in front.
pub fn is_integer(field: &[u8]) -> bool
    ensures { result ≡ numbers.is_integer field.now }
{
    match field {
        [b'-', digits @ ..] => is_natural(digits) && digits != b"0".as_slice(),
        _ => is_natural(field),
    }
}
