//! Files as columns.

use block_core::{BLOCK_LEN, Block, BlockSource, Steps};
use column_core::{Column, Cursor};
use column_file::{ColumnError, read_column};
use std::alloc::Global;
use std::io;
use stream_core::List;

/// The length that the bytes begin with, and the bytes after it. There is none where fewer bytes follow.
fn split_file(bytes: &[u8]) -> Option<(&[u8], &[u8])> {
    let (len, rest) = bytes.split_first_chunk::<8>()?;
    let len = u64::from_le_bytes(*len);
    if len > rest.len() as u64 {
        return None;
    }
    Some(rest.split_at(len as usize))
}

/// The sum of a block's values, modulo 2^64.
fn block_sum(values: &[u64]) -> u64 {
    let mut sum = 0u64;
    for value in values {
        sum = sum.wrapping_add(*value);
    }
    sum
}

/// The sum of a column's values, modulo 2^64.
fn sum_of(alloc: Global, column: &Column) -> u64 {
    let mut cursor = Cursor::<8>::new(column);
    let mut steps = Steps::start(alloc);
    let mut block = Block::new();
    let mut sum = 0u64;
    for number in 0..column.count().div_ceil(BLOCK_LEN as u64) {
        cursor.block(number, &mut block, &mut steps);
        sum = sum.wrapping_add(block_sum(block.as_slice()));
    }
    sum
}

/// Prints what one file is.
fn check_file(rt: &HostRuntime, bytes: &[u8]) -> io::Result<()> {
    let file = Vec::from_slice(rt.alloc(), bytes)?;
    match read_column(rt.alloc(), List::from_vec(file)) {
        Ok(column) => {
            let (name, count) = (column.format().name(), column.count());
            let sum = sum_of(rt.alloc(), &column);
            println!(rt; "{name} {count} {sum}")
        }
        Err(ColumnError::BadHeader) => println!(rt; "bad header"),
        Err(ColumnError::BadDirectory { block }) => println!(rt; "bad directory {block}"),
        Err(ColumnError::BadBlock { block }) => println!(rt; "bad block {block}"),
        Err(ColumnError::BadWidth) => println!(rt; "bad width"),
        Err(ColumnError::BadTail) => println!(rt; "bad tail"),
        Err(ColumnError::Memory) => println!(rt; "memory"),
    }
}

/// Prints what each file is. A file takes at least the 8 bytes of its length.
pub fn check_files(rt: &HostRuntime, bytes: &[u8]) -> io::Result<()> {
    let mut rest = bytes;
    for _ in 0..bytes.len() / 8 {
        let Some((file, others)) = split_file(rest) else {
            break;
        };
        check_file(rt, file)?;
        rest = others;
    }
    Ok(())
}
