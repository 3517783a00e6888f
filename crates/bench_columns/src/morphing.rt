//! Rounds in which a column gets another format.

use crate::writing::{bytes_sum, round_sum};
use block_core::Format;
use column_core::Column;
use morph_core::morph;
use std::alloc::{AllocError, Global};

/// Morphs the column in each round. The sum has all bytes of one morph more, so that they are compared.
pub fn morph_rounds(
    alloc: Global,
    column: &Column,
    format: Format,
    rounds: u64,
) -> Result<u64, AllocError> {
    let first = morph::<8>(alloc, column, format)?;
    let mut sum = bytes_sum(first.encoded());
    for round in 0..rounds {
        let morphed = morph::<8>(alloc, column, format)?;
        sum = sum.wrapping_add(round_sum(&morphed, round));
    }
    Ok(sum)
}
