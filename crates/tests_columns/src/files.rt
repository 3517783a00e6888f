//! The bytes of column files in both versions, and what a reader says of them.

ghost use Rattle.std.specs.Prelude.{◌≡◌, length, IfOk};

use block_core::Format;
use column_core::{Column, encode_list};
use column_file::{ColumnError, read_column};
use shapes::Shape;
use std::alloc::{AllocError, Global};
use stream_core::List;

/// A block of ones, and then as many values as wide as can be.
pub const RISEN: Shape = Shape::Turning {
    first: 1,
    second: u64::MAX,
    times: 1024,
};

/// The column of so many values of a shape.
pub fn column_of(
    alloc: Global,
    shape: Shape,
    count: u16,
    format: Format,
) -> Result<Column, AllocError>
    ensures { IfOk result (λ column. length column.values ≡ count) }
{
    let values = shape.values(alloc, count as usize)?;
    encode_list(alloc, values.as_slice(), format)
}

/// The first 16 bytes of a file.
pub fn head(tag: u8, width: u8, tail_width: u8, count: u64) -> [u8; 16] {
    let [a, b, c, d, e, f, g, h] = count.to_le_bytes();
    [
        0x4d, 0x43, 0x4f, 0x4c, 2, tag, width, tail_width, a, b, c, d, e, f, g, h,
    ]
}

/// The first 16 bytes of a file of version 1, which says nothing of the tail's width.
pub fn first_head(tag: u8, width: u8, count: u64) -> [u8; 16] {
    let mut bytes = head(tag, width, 0, count);
    bytes[4] = 1;
    bytes
}

/// A directory of these entries.
pub fn directory(alloc: Global, starts: &[u64]) -> Result<Vec<u8>, AllocError> {
    let mut bytes = Vec::new(alloc);
    for start in starts {
        bytes.extend_from_slice(&start.to_le_bytes())?;
    }
    Ok(bytes)
}

/// The directory of as many blocks as so many values have, each of one length; none in `plain` and `static`.
pub fn directory_of(alloc: Global, tag: u8, count: u64, len: usize) -> Result<Vec<u8>, AllocError> {
    let blocks = if tag < 2 { 0 } else { count / 1024 };
    let mut bytes = Vec::new(alloc);
    let mut start = blocks.wrapping_mul(8).wrapping_add(16);
    for _ in 0..blocks {
        bytes.extend_from_slice(&start.to_le_bytes())?;
        start = start.wrapping_add(len as u64);
    }
    Ok(bytes)
}

/// A head and three parts behind it.
pub fn file_of(
    alloc: Global,
    head: [u8; 16],
    first: &[u8],
    second: &[u8],
    third: &[u8],
) -> Result<Vec<u8>, AllocError> {
    let mut bytes = Vec::from_slice(alloc, &head)?;
    bytes.extend_from_slice(first)?;
    bytes.extend_from_slice(second)?;
    bytes.extend_from_slice(third)?;
    Ok(bytes)
}

/// The file of a column in version 1: a head, the blocks, and the other values as words.
pub fn first_file_of(alloc: Global, column: &Column) -> Result<Vec<u8>, AllocError> {
    let count = column.count();
    let head = first_head(column.format().tag(), column.static_width(), count);
    let mut bytes = Vec::from_slice(alloc, &head)?;
    for block in 0..count / 1024 {
        bytes.extend_from_slice(column.block_bytes(block))?;
    }
    for place in 0..count % 1024 {
        bytes.extend_from_slice(&column.tail_value(place).to_le_bytes())?;
    }
    Ok(bytes)
}

/// One value 1,024 times, packed at a width: bit `b` of row `r` is bit `r * width + b` of each of the 16 strands, and bit `k`
/// of strand `s` is bit `k mod 64` of word `(k div 64) * 16 + s`.
pub fn packed(alloc: Global, width: u8, value: u64) -> Result<Vec<u8>, AllocError> {
    let mut bytes = Vec::new(alloc);
    for row_of_words in 0..width as usize {
        let mut word = 0;
        for bit in 0..64 {
            let within = (row_of_words * 64 + bit) % width as usize;
            word |= (value >> (within & 63) & 1) << bit;
        }
        for _ in 0..16 {
            bytes.extend_from_slice(&word.to_le_bytes())?;
        }
    }
    Ok(bytes)
}

/// The column whose file the bytes are.
pub fn read(alloc: Global, bytes: &[u8]) -> Result<Column, ColumnError> {
    read_column(alloc, List::from_vec(Vec::from_slice(alloc, bytes)?))
}

/// Why the bytes are refused, if they are.
pub fn fault_of(alloc: Global, bytes: &[u8]) -> Result<Option<ColumnError>, ColumnError> {
    match read(alloc, bytes) {
        Ok(_) => Ok(None),
        Err(ColumnError::Memory) => Err(ColumnError::Memory),
        Err(fault) => Ok(Some(fault)),
    }
}
