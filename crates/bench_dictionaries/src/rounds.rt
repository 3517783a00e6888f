//! Rounds over a dictionary.

use crate::texts::text_of;
use catalog_core::Dictionary;
use std::alloc::{AllocError, Global};
use stream_core::List;

/// Copies the bytes in each round.
pub fn copy_rounds(alloc: Global, file: &[u8], rounds: u64) -> Result<u64, AllocError> {
    let mut sum = 0u64;
    for _ in 0..rounds {
        let bytes = Vec::from_slice(alloc, file)?;
        sum = sum.wrapping_add(bytes.len() as u64);
    }
    Ok(sum)
}

/// The number of texts of a dictionary, or 0.
fn count_of(alloc: Global, file: &[u8]) -> Result<u64, AllocError> {
    let bytes = List::from_vec(Vec::from_slice(alloc, file)?);
    match Dictionary::read(alloc, bytes) {
        Ok(dictionary) => Ok(dictionary.count()),
        Err(_) => Ok(0),
    }
}

/// Copies the bytes and opens the dictionary in each round.
pub fn read_rounds(alloc: Global, file: &[u8], rounds: u64) -> Result<u64, AllocError> {
    let mut sum = 0u64;
    for _ in 0..rounds {
        sum = sum.wrapping_add(count_of(alloc, file)?);
    }
    Ok(sum)
}

/// The sum of the codes of all texts, taken in an order that leaps.
fn codes_sum(dictionary: &Dictionary) -> u64 {
    let count = dictionary.count();
    let mut sum = 0u64;
    let mut number = 0u64;
    for _ in 0..count {
        number = number.wrapping_add(611_953) % count;
        sum = sum.wrapping_add(dictionary.code(&text_of(number)).unwrap_or(0));
    }
    sum
}

/// Looks up each text in each round.
pub fn find_rounds(alloc: Global, file: &[u8], rounds: u64) -> Result<u64, AllocError> {
    let bytes = List::from_vec(Vec::from_slice(alloc, file)?);
    let Ok(dictionary) = Dictionary::read(alloc, bytes) else {
        return Ok(0);
    };
    let mut sum = 0u64;
    for _ in 0..rounds {
        sum = sum.wrapping_add(codes_sum(&dictionary));
    }
    Ok(sum)
}
