//! Files of the first version, which become columns.

ghost use Rattle.std.specs.Prelude.{◌≡◌, ◌+◌, ◌%◌, ℕ, List as Items, length, take, IfOk};
ghost use Rattle.definitions_blocks.specs.Blocks.{block_values};
ghost use Rattle.definitions_blocks.specs.Formats.{IsColumnWidth, BeginsWithBlock};
ghost use Rattle.definitions_columns.specs.ColumnFiles.{first, head_len, starts_from, IsFileOf};
ghost use Rattle.definitions_columns.specs.Sizes.{tail_of};
ghost use Rattle.definitions_columns.specs.Tails.{packed_len};
ghost use Rattle.block_core.specs.Formats.{format_of};
ghost use Rattle.column_core.specs.Columns.{shape};
ghost use Rattle.column_core.specs.Heads.{IsHeadOf};

use crate::blocks::check_block;
use crate::columns::Column;
use crate::encodings::Encoded;
use crate::heads::{HEAD_LEN, Head, head_of};
use crate::words::rest_from;
use block_core::{BLOCK_LEN, Block, Format};
use std::alloc::{AllocError, Global};
use strand_pack::MAX_WIDTH;
use tail_pack::unpack;

/// The column of a file of the first version. The blocks are kept, and the values after them are packed anew.
pub fn upgraded(alloc: Global, file: Vec<u8>) -> Result<Column, AllocError>
    requires { (format : Format) × (values : Items ℕ) × IsFileOf first (format_of format) values file.items }
    ensures { (format : Format) (values : Items ℕ) → IsFileOf first (format_of format) values file.items → IfOk result (λ column. column ≡ shape format values) }
{
    let head = head_of(file.as_slice());
    let starts = starts_in(alloc, &head, file.as_slice())?;
    let mut tail = Block::new();
    let blocks = take_tail(&head, file, &mut tail);
    Encoded::adopt(head.format, head.static_width, blocks, starts).finish(tail.as_slice())
}

/// Takes the words of the values after the last whole block off the end of a file, and leaves these values in `tail`.
fn take_tail(head: &Head, file: Vec<u8>, tail: &mut Block) -> Vec<u8>
    requires { (values : Items ℕ) × IsFileOf first (format_of head.now.format) values file.items × IsHeadOf head.now first head.now.format values }
    ensures blocks { (front : ℕ) × (front + packed_len (head.now.count % block_values) 64 ≡ length file.items) × (result.items ≡ take front file.items) }
    ensures tail { (values : Items ℕ) → IsFileOf first (format_of head.now.format) values file.items → tail.new ≡ tail_of values }
{
    let count = head.count as usize % BLOCK_LEN;
    let front = file.len() - tail_pack::packed_len(count, MAX_WIDTH);
    unpack(rest_from(file.as_slice(), front), MAX_WIDTH, count, tail);
    let mut blocks = file;
    blocks.truncate(front);
    blocks
}

/// Where the whole blocks of a file of the first version start. Each block is gone over for its length.
fn starts_in(alloc: Global, head: &Head, file: &[u8]) -> Result<Vec<u64>, AllocError>
    requires file { (values : Items ℕ) × IsFileOf first (format_of head.now.format) values file.now × IsHeadOf head.now first head.now.format values }
    ensures { (values : Items ℕ) (is : IsFileOf first (format_of head.now.format) values file.now) → IfOk result (λ starts. starts.items ≡ starts_from head_len is.pieces) }
{
    let blocks = head.count / BLOCK_LEN as u64;
    let mut starts = Vec::with_capacity(alloc, blocks as usize)?;
    let mut place = HEAD_LEN;
    for _block in 0..blocks {
        starts.push(place as u64)?;
        place += len_of_block(head.format, head.static_width, rest_from(file, place));
    }
    Ok(starts)
}

/// How long the block is that the bytes begin with.
fn len_of_block(format: Format, static_width: u8, bytes: &[u8]) -> usize
    requires lawful { IsColumnWidth (format_of format) static_width }
    requires begins { (count : ℕ) × BeginsWithBlock (format_of format) static_width bytes.now count }
    ensures { BeginsWithBlock (format_of format) static_width bytes.now result }
{
    check_block(format, static_width, bytes).unwrap()
}
