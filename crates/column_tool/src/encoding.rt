//! Words as a column.

ghost use Rattle.std.specs.Prelude.{◌≤◌, length, IfOk};
ghost use Rattle.definitions_blocks.specs.Columns.{max_rows};

use block_core::{Format, MAX_ROWS};
use column_core::{Column, encode_list};
use std::alloc::{AllocError, Global};

/// The words that the bytes encode, as many as a column has at most. Bytes after the last whole word are left.
fn words_of(alloc: Global, bytes: &[u8]) -> Result<Vec<u64>, AllocError>
    ensures { IfOk result (λ values. length values.items ≤ max_rows) }
{
    let (words, _) = bytes.as_chunks::<8>();
    let count = words.len().min(MAX_ROWS as usize);
    let mut values = vec![in alloc; 0; count]?;
    for (value, word) in values.iter_mut().zip(words.iter()) {
        *value = u64::from_le_bytes(*word);
    }
    Ok(values)
}

/// The column of the words.
pub fn encode_words(alloc: Global, bytes: &[u8], format: Format) -> Result<Column, AllocError> {
    let values = words_of(alloc, bytes)?;
    encode_list(alloc, values.as_slice(), format)
}
