//! The whole blocks of a column file, each compared with its entry of the directory.

ghost use Rattle.std.specs.Prelude.{◌≡◌, ◌+◌, ◌/◌, ◌^◌, ◌<◌, ◌≤◌, ◌↔◌, ℕ, List, max, length, take, drop, IsTrue, IfOk, IfErr};
ghost use Rattle.definitions_blocks.specs.Blocks.{block_values};
ghost use Rattle.definitions_blocks.specs.Packed.{IsPacked};
ghost use Rattle.definitions_blocks.specs.Encodings.{width_of};
ghost use Rattle.definitions_blocks.specs.Formats.{BlockOf};
ghost use Rattle.definitions_columns.specs.ColumnFiles.{next_width};
ghost use Rattle.definitions_columns.specs.FileFaults.{HasEntry, StartsAt};
ghost use Rattle.block_core.specs.Formats.{format_of};
ghost use Rattle.column_core.specs.Heads.{version_of, BeginsWithHead};
ghost use Rattle.column_file.specs.Reading.{ReadSo};
ghost use Rattle.column_file.specs.Faults.{Names};

use crate::errors::ColumnError;
use block_core::{BLOCK_LEN, Block, Format};
use column_core::{HEAD_LEN, Head, check_block, decode_block};
use strand_pack::word_at;

/// What was read of the blocks: where the last one ends, and the least width that holds them.
#[derive(Drop)]
pub struct Blocks {
    pub end: usize,
    pub widest: u8,
}

/// Reads all blocks that the head tells of.
pub fn read_blocks(head: Head, bytes: &[u8], scratch: &mut Block) -> Result<Blocks, ColumnError>
    requires { BeginsWithHead (version_of head.version) (format_of head.format) head.static_width head.tail_width head.count bytes.now }
    ensures ok { IfOk result (λ found. ReadSo (version_of head.version) (format_of head.format) head.static_width head.count
        (head.count / block_values) found.end found.widest bytes.now) }
    ensures fault { IfErr result (Names bytes.now) }
{
    let mut end = head.first_start() as usize;
    let mut widest = 0;
    for block in 0..head.count / BLOCK_LEN as u64 {
        if !starts_at(head, bytes, block, end) {
            return Err(ColumnError::BadDirectory { block });
        }
        let rest = rest_from(bytes, end);
        match check_block(head.format, head.static_width, rest) {
            Some(len) => {
                widest = widened(head, widest, part(rest, len), scratch);
                end += len;
            }
            None => return Err(ColumnError::BadBlock { block }),
        }
    }
    Ok(Blocks { end, widest })
}

/// Whether the directory, if there is one, says that the block starts at this place.
fn starts_at(head: Head, bytes: &[u8], block: u64, place: usize) -> bool
    requires { block < 2 ^ 32 }
    ensures { IsTrue result ↔ StartsAt (version_of head.version) (format_of head.format) bytes.now block place }
{
    !head.has_directory() || has_entry(bytes, block, place)
}

/// Whether the directory's entry for the block is this place.
fn has_entry(bytes: &[u8], block: u64, place: usize) -> bool
    requires { block < 2 ^ 32 }
    ensures { IsTrue result ↔ HasEntry bytes.now block place }
{
    let word = HEAD_LEN / 8 + block as usize;
    if bytes.len() < 8 * word + 8 {
        return false;
    }
    word_at(bytes, word) == place as u64
}

/// The least width that holds the blocks so far and this one. A block is decoded for it only in the format `static`, and only
/// until the width in the head is reached.
fn widened(head: Head, widest: u8, bytes: &[u8], scratch: &mut Block) -> u8
    requires encoded { (values : List ℕ) × BlockOf (format_of head.format) head.static_width values bytes.now }
    ensures { (values : List ℕ) → BlockOf (format_of head.format) head.static_width values bytes.now →
        result ≡ next_width (format_of head.format) widest values }
{
    match head.format {
        Format::Static => widened_static(head.static_width, widest, bytes, scratch),
        _ => widest,
    }
}

/// The least width that holds the blocks so far and this one, in the format `static`.
fn widened_static(width: u8, widest: u8, bytes: &[u8], scratch: &mut Block) -> u8
    requires encoded { (values : List ℕ) × IsPacked width values bytes.now }
    ensures { (values : List ℕ) → IsPacked width values bytes.now → result ≡ max widest (width_of values) }
{
    if widest >= width {
        return widest;
    }
    decode_block::<8>(Format::Static, width, bytes, scratch);
    let own = strand_pack::width_of(scratch);
    if own > widest { own } else { widest }
}

/// The bytes from a place on: none where they end before it.
pub fn rest_from(bytes: &[u8], place: usize) -> &[u8]
    ensures { result.now ≡ drop place bytes.now }
{
    if bytes.len() < place {
        return &[];
    }
    &bytes[place..]
}

/// The first bytes.
fn part(bytes: &[u8], len: usize) -> &[u8]
    requires { len ≤ length bytes.now }
    ensures { result.now ≡ take len bytes.now }
{
    &bytes[..len]
}
