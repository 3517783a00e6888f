//! Blocks to bytes, and bytes to blocks.

ghost use Rattle.std.specs.Prelude.{◌≡◌, ℕ, List, length, IfOk};
ghost use Rattle.definitions_blocks.specs.Blocks.{IsFull};
ghost use Rattle.definitions_blocks.specs.Formats.{BlockOf, IsColumnWidth, FitsFormat};
ghost use Rattle.block_core.specs.Formats.{format_of};

use block_core::{Block, Format};
use column_core::{block_len, check_block, decode_block, encode_block};
use std::alloc::{AllocError, Global};
use strand_pack::width_of;

/// The width of a column of this block alone.
pub fn column_width(format: Format, full: &Block) -> u8
    ensures lawful { IsColumnWidth (format_of format) result }
    ensures fits { FitsFormat (format_of format) result full.now }
{
    match format {
        Format::Static => width_of(full),
        _ => 0,
    }
}

/// How long the block's encoding is.
pub fn encoding_len(format: Format, width: u8, full: &Block) -> usize
    requires lawful { IsColumnWidth (format_of format) width }
    requires full { IsFull full.now }
    requires fits { FitsFormat (format_of format) width full.now }
    ensures { (bytes : List ℕ) → BlockOf (format_of format) width full.now bytes → result ≡ length bytes }
{
    block_len(format, width, full)
}

/// The block's encoding, written at a lane width over bytes of no meaning.
pub fn encoded<const L: usize>(
    alloc: Global,
    format: Format,
    width: u8,
    full: &Block,
) -> Result<Vec<u8>, AllocError>
    requires lawful { IsColumnWidth (format_of format) width }
    requires full { IsFull full.now }
    requires fits { FitsFormat (format_of format) width full.now }
    ensures { IfOk result (λ bytes. BlockOf (format_of format) width full.now bytes.items) }
{
    let mut bytes = vec![in alloc; 0x99; encoding_len(format, width, full)]?;
    encode_block::<L>(format, width, full, bytes.as_mut_slice());
    Ok(bytes)
}

/// Whether the bytes are one block and no more, and at a lane width give these values back.
pub fn gives_back<const L: usize>(format: Format, width: u8, bytes: &[u8], values: &[u64]) -> bool
    requires { IsColumnWidth (format_of format) width }
{
    match check_block(format, width, bytes) {
        Some(len) => {
            let mut block = Block::new();
            decode_block::<L>(format, width, &bytes[..len], &mut block);
            len == bytes.len() && block.as_slice() == values
        }
        None => false,
    }
}

/// The length of the block that the bytes begin with, in a column of width 0.
pub fn found(format: Format, bytes: &[u8]) -> Option<usize> {
    check_block(format, 0, bytes)
}

/// Some bytes, and then others so many times.
pub fn padded(
    alloc: Global,
    head: &[u8],
    others: &[u8],
    times: usize,
) -> Result<Vec<u8>, AllocError> {
    let mut bytes = Vec::from_slice(alloc, head)?;
    for _ in 0..times {
        bytes.extend_from_slice(others)?;
    }
    Ok(bytes)
}
