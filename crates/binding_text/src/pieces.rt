//! The pieces that lines are made of.

use catalog_core::ColumnId;
use std::alloc::{AllocError, Global};

/// A sign or a word.
pub fn put(out: &mut Vec<u8>, text: &str) -> Result<(), AllocError> {
    out.extend_from_slice(text.as_bytes())?;
    Ok(())
}

/// A number in decimal.
pub fn put_number(alloc: Global, out: &mut Vec<u8>, number: u64) -> Result<(), AllocError> {
    let digits = format!(in alloc; "{number}")?;
    put(out, digits.as_str())
}

/// The separator before each entry but the first.
pub fn put_between(out: &mut Vec<u8>, number: usize, separator: &str) -> Result<(), AllocError> {
    if number > 0 {
        put(out, separator)?;
    }
    Ok(())
}

/// The number of the column's table, a dot, and its place in the table.
pub fn put_column(alloc: Global, out: &mut Vec<u8>, id: ColumnId) -> Result<(), AllocError> {
    put_number(alloc, out, u64::from(id.table))?;
    put(out, ".")?;
    put_number(alloc, out, u64::from(id.column))
}
