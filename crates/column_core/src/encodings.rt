//! Whole blocks of a list in one format, one after the other, and the file that they become.

ghost use Rattle.std.specs.Prelude.{◌≡◌, ◌+◌, ◌*◌, ◌/◌, ◌%◌, ◌<◌, ◌≤◌, ◌++◌, ◌∷◌, [], ℕ, List as Items, length, take, drop, slice_index, OnOk, OnErr, IsOk, IfOk, max, vec_len};
ghost use Rattle.std.specs.Vec.{vec_capacity};
ghost use Rattle.definitions_blocks.specs.Blocks.{block_values, IsFull};
ghost use Rattle.definitions_blocks.specs.Columns.{max_rows};
ghost use Rattle.definitions_blocks.specs.Formats.{BlockOf, IsColumnWidth, FitsFormat};
ghost use Rattle.definitions_columns.specs.ColumnFiles.{static_width_of, head_len};
ghost use Rattle.definitions_columns.specs.UnderWay.{AreBlocks};
ghost use Rattle.definitions_columns.specs.Sizes.{front_size, file_size};
ghost use Rattle.block_core.specs.Formats.{format_of};
ghost use Rattle.column_core.specs.Columns.{encoding_of, reserve, shape, UnderWay, UnderWay-prop};

use crate::blocks::append_block;
use crate::columns::Column;
use crate::files::finish_file;
use crate::heads::HEAD_LEN;
use block_core::{BLOCK_LEN, Block, Format};
use std::alloc::{AllocError, Global};
use std::marker::Model;

/// A list of whole blocks in one format, under way to a file. Their encodings stand behind the room for a head. The width need
/// not be the least yet. Beside the bytes it keeps where each block starts, in 8 bytes a block. Memory for what is reserved is
/// held already.
#[derive(Drop)]
pub struct Encoded {
    format: Format,
    width: u8,
    bytes: Vec<u8>,
    starts: Vec<u64>,
    reserved_bytes: u64,
    reserved_count: u64,
    ghost stored: { UnderWay format width bytes.items starts.items } by { UnderWay-prop format width bytes.items starts.items },
}

impl Model for Encoded {
    ghost use Rattle.std.specs.Prelude.{◌≤◌, ◌/◌};
    ghost use Rattle.std.specs.Vec.{vec_capacity};
    ghost use Rattle.definitions_blocks.specs.Blocks.{block_values};
    ghost use Rattle.definitions_columns.specs.UnderWay.{AreBlocks};
    ghost use Rattle.block_core.specs.Formats.{format_of};
    ghost use Rattle.column_core.specs.Columns.{Encoding, encoding_of, reserve};

    ghost Value = { Encoding };

    ghost view = { λ encoded. encoding_of encoded.format encoded.width (reserve encoded.reserved_bytes encoded.reserved_count) encoded.stored.0 };

    ghost invariant = { λ encoded. AreBlocks (format_of encoded.format) encoded.width encoded.stored.0 encoded.bytes.items encoded.starts.items
        × (encoded.reserved_bytes ≤ vec_capacity encoded.bytes)
        × (encoded.reserved_count / block_values ≤ vec_capacity encoded.starts) };
}

impl Encoded {
    /// No blocks yet.
    pub fn new(alloc: Global, format: Format, width: u8) -> Result<Encoded, AllocError>
        ensures { IfOk result (λ encoded. encoded ≡ encoding_of format width (reserve 0 0) []) }
    {
        let mut bytes = Vec::with_capacity(alloc, HEAD_LEN)?;
        bytes.extend_from_slice(&[0; HEAD_LEN])?;
        Ok(Encoded {
            format,
            width,
            bytes,
            starts: Vec::new(alloc),
            reserved_bytes: 0,
            reserved_count: 0,
        })
    }

    /// The blocks that the bytes hold, which start at these places.
    pub fn adopt(format: Format, width: u8, bytes: Vec<u8>, starts: Vec<u64>) -> Encoded
        requires { (values : Items ℕ) × AreBlocks (format_of format) width values bytes.items starts.items }
        ensures { (values : Items ℕ) → AreBlocks (format_of format) width values bytes.items starts.items →
            result ≡ encoding_of format width (reserve 0 0) values }
    {
        Encoded {
            format,
            width,
            bytes,
            starts,
            reserved_bytes: 0,
            reserved_count: 0,
        }
    }

    /// Takes memory for a file of so many bytes, and for the starts of the blocks of so many values. What was reserved stays so.
    /// An `Err` changes nothing.
    pub fn reserve(&mut self, bytes: u64, count: u64) -> Result<(), AllocError>
        ensures ok { OnOk result (self.new ≡ encoding_of self.old.format self.old.width
            (reserve (max self.old.reserve.bytes bytes) (max self.old.reserve.count count)) self.old.values) }
        ensures err { OnErr result (self.new ≡ self.old) }
    {
        let bytes = self.reserved_bytes.max(bytes);
        let count = self.reserved_count.max(count);
        make_room(&mut self.bytes, bytes as usize)?;
        make_room(&mut self.starts, count as usize / BLOCK_LEN)?;
        self.reserved_bytes = bytes;
        self.reserved_count = count;
        Ok(())
    }

    /// Appends a whole block. An `Err` changes nothing.
    pub fn push_block(&mut self, full: &Block) -> Result<(), AllocError>
        requires few { length self.old.values + block_values ≤ max_rows }
        requires lawful { IsColumnWidth (format_of self.old.format) self.old.width }
        requires full { IsFull full.now }
        requires fits { FitsFormat (format_of self.old.format) self.old.width full.now }
        ensures ok { OnOk result (self.new ≡ encoding_of self.old.format self.old.width self.old.reserve (self.old.values ++ full.now)) }
        ensures err { OnErr result (self.new ≡ self.old) }
        ensures sure { front_size (format_of self.old.format) self.old.width (self.old.values ++ full.now) ≤ self.old.reserve.bytes →
            length (self.old.values ++ full.now) ≤ self.old.reserve.count → IsOk result }
    {
        grow(
            self.format,
            self.width,
            full,
            &mut self.bytes,
            &mut self.starts,
        )?;
        Ok(())
    }

    /// The column of these blocks and the values after them, fewer than a block. The bytes become its file in place: the blocks
    /// move up behind the directory, if the format has one. An `Err` gives up the blocks.
    pub fn finish(self, tail: &[u64]) -> Result<Column, AllocError>
        requires few { length self.values + length tail.now ≤ max_rows }
        requires short { length tail.now < block_values }
        requires least { self.width ≡ static_width_of (format_of self.format) self.values }
        ensures ok { IfOk result (λ column. column ≡ shape self.format (self.values ++ tail.now)) }
        ensures sure { file_size (format_of self.format) self.width (self.values ++ tail.now) ≤ self.reserve.bytes → IsOk result }
    {
        let mut bytes = self.bytes;
        finish_file(
            self.format,
            self.width,
            tail,
            self.starts.as_slice(),
            &mut bytes,
        )?;
        Ok(Column::of_vec(bytes))
    }
}

/// Appends a block's encoding and where it starts.
fn grow(
    format: Format,
    width: u8,
    full: &Block,
    bytes: &mut Vec<u8>,
    starts: &mut Vec<u64>,
) -> Result<(), AllocError>
    requires encoded { (encoding : Items ℕ) × BlockOf (format_of format) width full.now encoding }
    ensures bytes { OnOk result ((encoding : Items ℕ) × BlockOf (format_of format) width full.now encoding
        × (bytes.new.items ≡ bytes.old.items ++ encoding)) }
    ensures starts { OnOk result (starts.new.items ≡ starts.old.items ++ length bytes.old.items ∷ []) }
    ensures bytes_kept { OnErr result (bytes.new.items ≡ bytes.old.items) }
    ensures starts_kept { OnErr result (starts.new.items ≡ starts.old.items) }
    ensures bytes_capacity { vec_capacity bytes.old ≤ vec_capacity bytes.new }
    ensures starts_capacity { vec_capacity starts.old ≤ vec_capacity starts.new }
    ensures sure { (encoding : Items ℕ) → BlockOf (format_of format) width full.now encoding →
        vec_len bytes.old + length encoding ≤ vec_capacity bytes.old →
        vec_len starts.old < vec_capacity starts.old → IsOk result }
{
    starts.push(bytes.len() as u64)?;
    match append_block(format, width, full, bytes) {
        Ok(()) => Ok(()),
        Err(refused) => {
            starts.truncate(starts.len() - 1);
            Err(refused)
        }
    }
}

/// Takes memory for so many items in all. The items stay, also after an `Err`.
fn make_room<T>(items: &mut Vec<T>, wanted: usize) -> Result<(), AllocError>
    ensures items { items.new.items ≡ items.old.items }
    ensures ok { OnOk result (wanted ≤ vec_capacity items.new) }
    ensures capacity { vec_capacity items.old ≤ vec_capacity items.new }
{
    if wanted <= items.len() {
        return Ok(());
    }
    items.reserve(wanted - items.len())
}
