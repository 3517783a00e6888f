//! A column as one list.

ghost use Rattle.std.specs.Prelude.{◌≡◌, IfOk};

use block_core::{BLOCK_LEN, Block, BlockSource, Steps};
use column_core::{Column, Cursor};
use std::alloc::{AllocError, Global};
use stream_core::List;

/// The values of a column, decoded block by block. The list is made at its length once, and the column's file is let go.
pub fn decoded(alloc: Global, column: Column) -> Result<List<u64>, AllocError>
    ensures { IfOk result (λ values. values ≡ column.values) }
{
    let count = column.count();
    let mut cursor = Cursor::<8>::new(&column);
    let mut steps = Steps::start(alloc);
    let mut block = Block::new();
    let mut values = Vec::with_capacity(alloc, count as usize)?;
    for number in 0..count.div_ceil(BLOCK_LEN as u64) {
        cursor.block(number, &mut block, &mut steps);
        values.extend_from_slice(block.as_slice())?;
    }
    Ok(List::from_vec(values))
}
