//! Whether the values of a key differ.

ghost use Rattle.std.specs.Prelude.{◌≡◌, ◌↔◌, ◌+◌, ◌<◌, length, IfOk, OnOk, IsErrOf, IsTrue, nat_eq};
ghost use Rattle.std.specs.List.{IsDistinct};
ghost use Rattle.table_core.specs.Held.{HasEqualKeys};
ghost use Rattle.table_core.specs.Keys.{HasEqualNeighbours};

use crate::errors::KeyError;
use block_core::{BLOCK_LEN, Block, BlockSource, Steps};
use column_core::{Column, Cursor};
use std::alloc::{AllocError, Global};

/// Whether no two values of a key are equal. They are copied and sorted, and then equal ones are neighbours.
pub fn check_values(alloc: Global, key: &Column) -> Result<(), KeyError>
    ensures ok { OnOk result (IsDistinct nat_eq key.now.values) }
    ensures repeated { IsErrOf result KeyError.Repeated → HasEqualKeys key.now.values }
{
    let mut values = copied(alloc, key)?;
    values.sort_unstable();
    if has_equal_neighbours(values.as_slice()) {
        return Err(KeyError::Repeated);
    }
    Ok(())
}

/// The values of a column in one list, which is made at its length.
pub fn copied(alloc: Global, column: &Column) -> Result<Vec<u64>, AllocError>
    ensures { IfOk result (λ values. values.items ≡ column.now.values) }
{
    let count = column.count();
    let mut cursor = Cursor::<8>::new(column);
    let mut steps = Steps::start(alloc);
    let mut block = Block::new();
    let mut values = Vec::with_capacity(alloc, count as usize)?;
    for number in 0..count.div_ceil(BLOCK_LEN as u64) {
        cursor.block(number, &mut block, &mut steps);
        values.extend_from_slice(block.as_slice())?;
    }
    Ok(values)
}

/// Whether two neighbours are equal.
fn has_equal_neighbours(values: &[u64]) -> bool
    ensures { IsTrue result ↔ HasEqualNeighbours values.now }
{
    for place in 1..values.len() {
        if values[place - 1] == values[place] {
            return true;
        }
    }
    false
}
