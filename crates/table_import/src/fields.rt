//! The numbers and texts of fields.

ghost use Rattle.std.specs.Prelude.{◌≡◌, ◌≤◌, ◌<◌, length, Some, None, if◌then◌else◌};
ghost use Rattle.std.specs.Str.{is_utf8};
ghost use Rattle.std.specs.Str.Parse.{digits_value};
ghost use Rattle.table_import.specs.Imports.{is_number};

use std::str;

/// The most digits with which every number is below 2^64.
const SAFE_DIGITS: usize = 19;

/// The number that a field has in decimal digits. There may be zeros before it.
pub fn number_in(field: &[u8]) -> Option<u64>
    ensures { result ≡ (if is_number field.now then Some (digits_value 10 field.now) else None) }
{
    if field.len() <= SAFE_DIGITS {
        short_number(field)
    } else {
        long_number(field)
    }
}

/// The same of a field that cannot have a number of 2^64 or more, so that no sum has to be tested.
fn short_number(field: &[u8]) -> Option<u64>
    requires { length field.now ≤ 19 }
    ensures { result ≡ (if is_number field.now then Some (digits_value 10 field.now) else None) }
{
    if field.is_empty() {
        return None;
    }
    let mut value = 0;
    for byte in field {
        let digit = byte.wrapping_sub(b'0');
        if digit > 9 {
            return None;
        }
        value = value * 10 + u64::from(digit);
    }
    Some(value)
}

fn long_number(field: &[u8]) -> Option<u64>
    requires { 0 < length field.now }
    ensures { result ≡ (if is_number field.now then Some (digits_value 10 field.now) else None) }
{
    let mut value = 0u64;
    for byte in field {
        if !byte.is_ascii_digit() {
            return None;
        }
        value = value.checked_mul(10)?.checked_add(u64::from(*byte - b'0'))?;
    }
    Some(value)
}

/// Whether a field is UTF-8. Mostly it is ASCII, for which a test of the top bits is enough.
pub fn is_text(field: &[u8]) -> bool
    ensures { result ≡ is_utf8 field.now }
{
    field.is_ascii() || str::from_utf8(field).is_ok()
}
