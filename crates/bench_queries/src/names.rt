//! Short names by number: one letter, then two bytes, then three.

use std::alloc::AllocError;

/// The bytes behind a name's first. Each word of the query language of two or three letters has one that is left out.
const FURTHER: &[u8; 32] = b"abcdefghijklopqtuvwxz0123456789_";

/// The letter of a number, from `a` again after `z`.
pub fn letter(number: u64) -> u8 {
    b'a' + (number % 26) as u8
}

/// The digit of a number, from `0` again after `9`.
pub fn digit(number: u64) -> u8 {
    b'0' + (number % 10) as u8
}

fn further(number: u64) -> u8 {
    FURTHER[(number % 32) as usize]
}

/// Adds the name of a number. The names of the first 27,482 numbers differ: 26 of one byte, 832 of two, and 26,624 of three.
pub fn put_name(text: &mut Vec<u8>, number: u64) -> Result<(), AllocError> {
    if number < 26 {
        text.push(letter(number))?;
    } else if number < 858 {
        let place = number - 26;
        text.push(letter(place / 32))?;
        text.push(further(place))?;
    } else {
        let place = number - 858;
        text.push(letter(place / 1024))?;
        text.push(further(place / 32))?;
        text.push(further(place))?;
    }
    Ok(())
}
