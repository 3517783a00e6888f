//! Rounds in which a column is made.

ghost use Rattle.std.specs.Prelude.{◌≡◌, ◌<◌, ◌≤◌, length, IfOk};
ghost use Rattle.definitions_blocks.specs.Columns.{max_rows};
ghost use Rattle.definitions_columns.specs.ColumnFiles.{static_width_of};
ghost use Rattle.block_core.specs.Formats.{format_of};
ghost use Rattle.column_core.specs.Columns.{shape};

use block_core::{Emit, Format};
use column_core::{Builder, Column, encode_list};
use std::alloc::{AllocError, Global};

/// A checksum of all the bytes.
pub fn bytes_sum(bytes: &[u8]) -> u64 {
    let mut sum = 0u64;
    for byte in bytes {
        sum = sum.wrapping_mul(31).wrapping_add(u64::from(*byte));
    }
    sum.wrapping_add(bytes.len() as u64)
}

/// A byte and the length of a column's file.
pub fn round_sum(column: &Column, round: u64) -> u64 {
    let bytes = column.encoded();
    let byte = match bytes.get(round as usize & 1023) {
        Some(byte) => u64::from(*byte),
        None => 0,
    };
    byte.wrapping_add(bytes.len() as u64 ^ round)
}

/// Builds the column of the values in each round, at that column's width.
pub fn build_rounds(
    alloc: Global,
    column: &Column,
    values: &[u64],
    rounds: u64,
) -> Result<u64, AllocError>
    requires few { length values.now ≤ max_rows }
    requires same { column.now.values ≡ values.now }
{
    let mut sum = 0u64;
    for round in 0..rounds {
        let built = build(alloc, column.format(), column.static_width(), values)?;
        sum = sum.wrapping_add(round_sum(&built, round));
    }
    Ok(sum)
}

/// The column of the values, by a builder.
fn build(
    alloc: Global,
    format: Format,
    static_width: u8,
    values: &[u64],
) -> Result<Column, AllocError>
    requires few { length values.now ≤ max_rows }
    requires width { static_width ≡ static_width_of (format_of format) values.now }
    ensures { IfOk result (λ column. column ≡ shape format values.now) }
{
    let mut builder = Builder::new(alloc, format, static_width)?;
    for value in values {
        builder.push(*value)?;
    }
    builder.finish()
}

/// Encodes the values in each round.
pub fn list_rounds(
    alloc: Global,
    format: Format,
    values: &[u64],
    rounds: u64,
) -> Result<u64, AllocError>
    requires { length values.now ≤ max_rows }
{
    let mut sum = 0u64;
    for round in 0..rounds {
        let column = encode_list(alloc, values, format)?;
        sum = sum.wrapping_add(round_sum(&column, round));
    }
    Ok(sum)
}
