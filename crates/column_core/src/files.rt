//! Encoded blocks that become the file of a column, in place.

ghost use Rattle.std.specs.Prelude.{◌≡◌, ◌+◌, ◌*◌, ◌/◌, ◌^◌, ◌<◌, ◌≤◌, ◌++◌, ◌∷◌, [], ℕ, List as Items, length, take, drop, slice_index, OnOk, OnErr, IsOk, vec_len, if◌then◌else◌};
ghost use Rattle.std.specs.Vec.{vec_capacity};
ghost use Rattle.std.specs.List.{AllByRecursion};
ghost use Rattle.definitions_blocks.specs.Blocks.{block_values};
ghost use Rattle.definitions_blocks.specs.Columns.{max_rows};
ghost use Rattle.definitions_blocks.specs.Packed.{AreBelow};
ghost use Rattle.definitions_blocks.specs.Words.{word_bytes, words_of};
ghost use Rattle.definitions_columns.specs.Tails as tails;
ghost use Rattle.definitions_columns.specs.Tails.{IsPackedTail};
ghost use Rattle.definitions_columns.specs.ColumnFiles.{second, head_len, column_head, tail_width_of, IsEncoded};
ghost use Rattle.definitions_columns.specs.UnderWay.{AreBlocks, moved_up};
ghost use Rattle.definitions_columns.specs.Sizes.{file_size};
ghost use Rattle.block_core.specs.Formats.{format_of, tag_of};
ghost use Rattle.column_core.specs.Heads.{version_of};

use crate::heads::{HEAD_LEN, Head, Version};
use crate::words::word_bytes_of;
use block_core::{BLOCK_LEN, Format};
use std::alloc::AllocError;
use strand_pack::{MAX_WIDTH, width_of_values};
use tail_pack::{pack, packed_len};

/// Makes the file of whole blocks and the values after them out of the blocks' bytes: a directory is put before them, the
/// values behind them, and the head is written.
pub fn finish_file(
    format: Format,
    width: u8,
    tail: &[u64],
    starts: &[u64],
    bytes: &mut Vec<u8>,
) -> Result<(), AllocError>
    requires short { length tail.now < block_values }
    requires few { (values : Items ℕ) × AreBlocks (format_of format) width values bytes.old.items starts.now × (length values + length tail.now ≤ max_rows) }
    ensures ok { OnOk result ((values : Items ℕ) → AreBlocks (format_of format) width values bytes.old.items starts.now →
        IsEncoded second (format_of format) width (values ++ tail.now) bytes.new.items) }
    ensures sure { (values : Items ℕ) → AreBlocks (format_of format) width values bytes.old.items starts.now →
        file_size (format_of format) width (values ++ tail.now) ≤ vec_capacity bytes.old → IsOk result }
{
    let head = Head {
        version: Version::Second,
        format,
        static_width: width,
        tail_width: tail_width_in(format, tail),
        count: (starts.len() * BLOCK_LEN + tail.len()) as u64,
    };
    add_directory(head.has_directory(), starts, bytes)?;
    append_tail(tail, head.tail_width, bytes)?;
    put_head(&head, bytes);
    Ok(())
}

/// Writes the head over the room for it.
fn put_head(head: &Head, bytes: &mut Vec<u8>)
    requires { head_len ≤ length bytes.old.items }
    ensures { bytes.new.items ≡ column_head (version_of head.now.version) (tag_of head.now.format) head.now.static_width head.now.tail_width head.now.count
        ++ drop head_len bytes.old.items }
{
    write_head(&head.bytes(), bytes.as_mut_slice());
}

fn write_head(head: &[u8; 16], bytes: &mut [u8])
    requires { head_len ≤ length bytes.old }
    ensures written { bytes.new ≡ head.now ++ drop head_len bytes.old }
    ensures size { length bytes.new ≡ length bytes.old }
{
    bytes[..HEAD_LEN].copy_from_slice(head);
}

/// The width of the values after the last whole block: 64 in the format `plain`, and else the least that holds them.
fn tail_width_in(format: Format, tail: &[u64]) -> u8
    ensures width { result ≡ tail_width_of second (format_of format) tail.now }
    ensures narrow { result ≤ 64 }
    ensures small { AreBelow result tail.now }
{
    match format {
        Format::Plain => MAX_WIDTH,
        _ => width_of_values(tail),
    }
}

/// Appends the values, packed at the width.
fn append_tail(tail: &[u64], width: u8, bytes: &mut Vec<u8>) -> Result<(), AllocError>
    requires short { length tail.now < block_values }
    requires narrow { width ≤ 64 }
    requires small { AreBelow width tail.now }
    ensures ok { OnOk result ((packed : Items ℕ) × IsPackedTail width tail.now packed × (bytes.new.items ≡ bytes.old.items ++ packed)) }
    ensures sure { vec_len bytes.old + tails.packed_len (length tail.now) width ≤ vec_capacity bytes.old → IsOk result }
{
    let start = bytes.len();
    bytes.resize(start + packed_len(tail.len(), width), 0)?;
    pack(tail, width, &mut bytes[start..]);
    Ok(())
}

/// Puts a directory behind the room for a head, if there is to be one.
fn add_directory(listed: bool, starts: &[u64], bytes: &mut Vec<u8>) -> Result<(), AllocError>
    requires head { head_len ≤ length bytes.old.items }
    requires within { (block : ℕ) → slice_index starts.now block ≤ length bytes.old.items }
    requires few { length starts.now < 2 ^ 32 }
    ensures ok { OnOk result (bytes.new.items ≡ take head_len bytes.old.items
        ++ ((if listed then words_of (moved_up (8 * length starts.now) starts.now) else []) ++ drop head_len bytes.old.items)) }
    ensures capacity { vec_capacity bytes.old ≤ vec_capacity bytes.new }
    ensures sure { vec_len bytes.old + (if listed then 8 * length starts.now else 0) ≤ vec_capacity bytes.old → IsOk result }
{
    if listed {
        put_directory(starts, bytes)?;
    }
    Ok(())
}

/// Puts a directory behind the room for a head: what stood there moves up, and so do the starts that it names.
fn put_directory(starts: &[u64], bytes: &mut Vec<u8>) -> Result<(), AllocError>
    requires head { head_len ≤ length bytes.old.items }
    requires within { (block : ℕ) → slice_index starts.now block ≤ length bytes.old.items }
    requires few { length starts.now < 2 ^ 32 }
    ensures ok { OnOk result (bytes.new.items ≡ take head_len bytes.old.items
        ++ (words_of (moved_up (8 * length starts.now) starts.now) ++ drop head_len bytes.old.items)) }
    ensures capacity { vec_capacity bytes.old ≤ vec_capacity bytes.new }
    ensures sure { vec_len bytes.old + 8 * length starts.now ≤ vec_capacity bytes.old → IsOk result }
{
    let end = bytes.len();
    let shift = 8 * starts.len();
    bytes.resize(end + shift, 0)?;
    move_up(bytes.as_mut_slice(), end, shift);
    write_entries(starts, shift as u64, bytes.as_mut_slice());
    Ok(())
}

/// Moves the bytes from the head to the end up by so many.
fn move_up(bytes: &mut [u8], end: usize, shift: usize)
    requires head { head_len ≤ end }
    requires room { length bytes.old ≡ end + shift }
    ensures front { take head_len bytes.new ≡ take head_len bytes.old }
    ensures moved { drop (head_len + shift) bytes.new ≡ drop head_len (take end bytes.old) }
    ensures size { length bytes.new ≡ length bytes.old }
{
    bytes.copy_within(HEAD_LEN..end, HEAD_LEN + shift);
}

/// Writes where blocks start, each moved up by so many bytes, as words behind the head.
fn write_entries(starts: &[u64], shift: u64, bytes: &mut [u8])
    requires room { head_len + 8 * length starts.now ≤ length bytes.old }
    requires within { (block : ℕ) → slice_index starts.now block + shift < 2 ^ 64 }
    ensures { bytes.new ≡ take head_len bytes.old ++ (words_of (moved_up shift starts.now) ++ drop (head_len + 8 * length starts.now) bytes.old) }
{
    for block in 0..starts.len() {
        put_entry(bytes, block, starts[block] + shift);
    }
}

/// Writes the entry of a block.
fn put_entry(bytes: &mut [u8], block: usize, start: u64)
    requires { head_len + 8 * block + 8 ≤ length bytes.old }
    ensures { bytes.new ≡ take (head_len + 8 * block) bytes.old ++ (word_bytes start ++ drop (head_len + 8 * block + 8) bytes.old) }
{
    let at = HEAD_LEN + 8 * block;
    bytes[at..at + 8].copy_from_slice(&word_bytes_of(start));
}
