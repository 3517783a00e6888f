//! Whether the values of a column are codes of a dictionary.

ghost use Rattle.std.specs.Prelude.{◌≡◌, option_copied, nat_lt};
ghost use Rattle.std.specs.List.{list_all};
ghost use Rattle.table_core.specs.Tables.{are_codes};

use block_core::{BLOCK_LEN, Block, BlockSource, Steps};
use catalog_core::Dictionary;
use column_core::{Column, Cursor};
use std::alloc::Global;

/// Whether each value is a code of the dictionary, if there is one. Without one no value is looked at.
pub fn has_codes(alloc: Global, dictionary: Option<&Dictionary>, column: &Column) -> bool
    ensures { result ≡ are_codes (option_copied dictionary.entry) column.now.values }
{
    match dictionary {
        Some(texts) => is_below(alloc, column, texts.count()),
        None => true,
    }
}

/// Whether each value of a column is below a bound. The column is decoded a block at a time, and no memory is taken: the
/// allocator is what a count of steps is begun with.
fn is_below(alloc: Global, column: &Column, bound: u64) -> bool
    ensures { result ≡ list_all (λ value. nat_lt value bound) column.now.values }
{
    let mut cursor = Cursor::<8>::new(column);
    let mut steps = Steps::start(alloc);
    let mut block = Block::new();
    for number in 0..column.count().div_ceil(BLOCK_LEN as u64) {
        cursor.block(number, &mut block, &mut steps);
        if !are_below(block.as_slice(), bound) {
            return false;
        }
    }
    true
}

/// Whether each value is below a bound. There is no branch on a value, so that several are compared at once.
fn are_below(values: &[u64], bound: u64) -> bool
    ensures { result ≡ list_all (λ value. nat_lt value bound) values.now }
{
    let mut below = true;
    for value in values {
        below &= *value < bound;
    }
    below
}
