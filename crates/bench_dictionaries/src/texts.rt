//! Short texts: `t` and eight digits.

ghost use Rattle.std.specs.Prelude.{◌≤◌};

use std::alloc::{AllocError, Global};

/// The text of a number.
pub fn text_of(number: u64) -> [u8; 9] {
    let mut text = *b"t00000000";
    let mut left = number;
    for place in 0..8usize {
        text[8 - place] = b'0' + (left % 10) as u8;
        left /= 10;
    }
    text
}

/// The file of the dictionary of the texts of the numbers below the count.
pub fn file_of(alloc: Global, count: u64) -> Result<Vec<u8>, AllocError>
    requires { count ≤ 100000000 }
{
    let mut bytes = Vec::from_slice(alloc, b"MDIC\x01\0\0\0")?;
    bytes.extend_from_slice(&count.to_le_bytes())?;
    for number in 0..count {
        bytes.extend_from_slice(&9u32.to_le_bytes())?;
        bytes.extend_from_slice(&text_of(number))?;
    }
    Ok(bytes)
}
