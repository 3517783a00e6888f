//! Columns built from values: one by one, or from a list.

ghost use Rattle.std.specs.Prelude.{◌≡◌, ◌+◌, ◌%◌, ◌<◌, ◌≤◌, ◌++◌, ◌∷◌, [], length, take, drop, max, true, IsOk, IfOk, OnOk, OnErr};
ghost use Rattle.definitions_blocks.specs.Blocks.{block_values, IsFull};
ghost use Rattle.definitions_blocks.specs.Columns.{max_rows};
ghost use Rattle.definitions_blocks.specs.Formats.{IsColumnWidth, FitsFormat};
ghost use Rattle.definitions_columns.specs.ColumnFiles.{fits_columns, static_width_of};
ghost use Rattle.block_core.specs.Formats.{format_of};
ghost use Rattle.definitions_columns.specs.Sizes.{front_size, file_size, is_within_room};
ghost use Rattle.column_core.specs.Columns.{encoding_of, reserve, shape};
ghost use Rattle.column_core.specs.Scopes.{IsBuilding};

use crate::columns::Column;
use crate::encodings::Encoded;
use block_core::{BLOCK_LEN, Block, Emit, Format, words_fit};
use std::alloc::{AllocError, Global};
use std::marker::Model;
use strand_pack::width_of_values;

/// Builds the column of the values that are pushed. It holds one block. A full one is encoded when the next value comes, or when
/// the column is finished.
#[derive(Drop)]
pub struct Builder {
    encoded: Encoded,
    block: Block,
}

impl Model for Builder {
    ghost use Rattle.column_core.specs.Columns.{Encoding, encoding_of};
    ghost use Rattle.column_core.specs.Scopes.{IsBuilding};

    ghost Value = { Encoding };

    ghost use Rattle.std.specs.Prelude.{◌++◌};

    ghost view = { λ builder. encoding_of builder.encoded.format builder.encoded.width builder.encoded.reserve (builder.encoded.values ++ builder.block) };

    ghost invariant = { λ builder. IsBuilding builder.encoded.format builder.encoded.width builder.encoded.values builder.block };
}

impl Builder {
    /// A builder of no values yet. With `Static` the blocks are packed at `static_width`, which is 0 with any other format.
    pub fn new(alloc: Global, format: Format, static_width: u8) -> Result<Builder, AllocError>
        requires { IsColumnWidth (format_of format) static_width }
        ensures { IfOk result (λ builder. builder ≡ encoding_of format static_width (reserve 0 0) []) }
    {
        Ok(Builder {
            encoded: Encoded::new(alloc, format, static_width)?,
            block: Block::new(),
        })
    }

    /// Takes memory ahead, so that pushes need none. From now on a push is `Ok` as long as the list has at most `count` values
    /// and its head, directory and whole blocks have at most `bytes` bytes. `finish` is `Ok` if that holds of the whole file. The numbers
    /// are for the whole list, with what was pushed before; less than was reserved before changes nothing. Nor does an `Err`.
    pub fn reserve(&mut self, bytes: u64, count: u64) -> Result<(), AllocError>
        ensures ok { OnOk result (self.new ≡ encoding_of self.old.format self.old.width
            (reserve (max self.old.reserve.bytes bytes) (max self.old.reserve.count count)) self.old.values) }
        ensures err { OnErr result (self.new ≡ self.old) }
    {
        self.encoded.reserve(bytes, count)
    }

    /// Takes as many of the first values as have a place in the block that waits. An `Err` changes nothing.
    fn take_some(&mut self, values: &[u64]) -> Result<usize, AllocError>
        requires some { 0 < length values.now }
        requires few { length self.old.values + length values.now ≤ max_rows }
        requires in_scope { fits_columns (format_of self.old.format) self.old.width (self.old.values ++ values.now) ≡ true }
        ensures some { IfOk result (λ n. 0 < n) }
        ensures within { IfOk result (λ n. n ≤ length values.now) }
        ensures ok { IfOk result (λ n. self.new ≡ encoding_of self.old.format self.old.width self.old.reserve (self.old.values ++ take n values.now)) }
        ensures err { OnErr result (self.new ≡ self.old) }
        ensures sure { is_within_room (format_of self.old.format) self.old.width self.old.reserve.bytes self.old.reserve.count (self.old.values ++ values.now) ≡ true → IsOk result }
    {
        if self.block.as_slice().len() == BLOCK_LEN {
            flush(&mut self.encoded, &mut self.block)?;
        }
        let count = values.len().min(BLOCK_LEN - self.block.as_slice().len());
        self.block.append(first_of(values, count));
        Ok(count)
    }

    /// The column of the values that were pushed. An `Err` gives up the builder.
    pub fn finish(self) -> Result<Column, AllocError>
        requires { self.width ≡ static_width_of (format_of self.format) self.values }
        ensures ok { IfOk result (λ column. column ≡ shape self.format self.values) }
        ensures sure { file_size (format_of self.format) self.width self.values ≤ self.reserve.bytes →
            length self.values ≤ self.reserve.count → IsOk result }
    {
        let mut encoded = self.encoded;
        let mut block = self.block;
        if block.as_slice().len() == BLOCK_LEN {
            flush(&mut encoded, &mut block)?;
        }
        encoded.finish(block.as_slice())
    }
}

impl Emit for Builder {
    ghost use Rattle.std.specs.Prelude.{◌≡◌, ◌+◌, ◌<◌, ◌≤◌, ◌++◌, ◌∷◌, [], ℕ, length, take, true, IsOk, OnOk, OnErr};
    ghost use Rattle.definitions_blocks.specs.Columns.{max_rows};
    ghost use Rattle.definitions_columns.specs.ColumnFiles.{fits_columns};
    ghost use Rattle.block_core.specs.Formats.{format_of};
    ghost use Rattle.column_core.specs.Columns.{encoding_of};
    ghost use Rattle.column_core.specs.Scopes.{Frame, frame, has_room};
    ghost use Rattle.definitions_columns.proofs.WidthLaws.{fits_columns-front};
    ghost use Rattle.definitions_columns.proofs.SizeLaws.{is_within_room-front};

    ghost Frame = { Frame };

    ghost frame = { λ builder. frame builder.format builder.width builder.reserve };

    ghost pushed = { λ builder list. builder.values ≡ list };

    ghost scope = { λ of values. fits_columns (format_of of.format) of.width values };

    ghost room = { has_room };

    fn push(&mut self, value: u64) -> Result<(), AllocError>
        requires few { length self.old.values < max_rows }
        requires in_scope { fits_columns (format_of self.old.format) self.old.width (self.old.values ++ value ∷ []) ≡ true }
        ensures ok { OnOk result (self.new ≡ encoding_of self.old.format self.old.width self.old.reserve (self.old.values ++ value ∷ [])) }
        ensures err { OnErr result (self.new ≡ self.old) }
        ensures sure { is_within_room (format_of self.old.format) self.old.width self.old.reserve.bytes self.old.reserve.count (self.old.values ++ value ∷ []) ≡ true → IsOk result }
    {
        if self.block.as_slice().len() == BLOCK_LEN {
            flush(&mut self.encoded, &mut self.block)?;
        }
        self.block.push(value);
        Ok(())
    }

    fn extend(&mut self, values: &[u64]) -> Result<(), AllocError>
        requires few { length self.old.values + length values.now ≤ max_rows }
        requires in_scope { fits_columns (format_of self.old.format) self.old.width (self.old.values ++ values.now) ≡ true }
        ensures ok { OnOk result (self.new ≡ encoding_of self.old.format self.old.width self.old.reserve (self.old.values ++ values.now)) }
        ensures err { OnErr result ((n : ℕ) × (self.new ≡ encoding_of self.old.format self.old.width self.old.reserve (self.old.values ++ take n values.now))) }
        ensures sure { is_within_room (format_of self.old.format) self.old.width self.old.reserve.bytes self.old.reserve.count (self.old.values ++ values.now) ≡ true → IsOk result }
    {
        let mut taken = 0;
        while taken < values.len() {
            taken += self.take_some(rest_from(values, taken))?;
        }
        Ok(())
    }

    ghost scope_law = { λ of values rest. fits_columns-front (format_of of.format) of.width values rest };

    ghost room_law = { λ of values rest. is_within_room-front (format_of of.format) of.width of.reserve.bytes of.reserve.count values rest };
}

/// Encodes a full block, and empties it. An `Err` changes nothing.
fn flush(encoded: &mut Encoded, block: &mut Block) -> Result<(), AllocError>
    requires full { length block.old ≡ block_values }
    requires building { IsBuilding encoded.old.format encoded.old.width encoded.old.values block.old }
    ensures ok { OnOk result (encoded.new ≡ encoding_of encoded.old.format encoded.old.width encoded.old.reserve (encoded.old.values ++ block.old)) }
    ensures emptied { OnOk result (block.new ≡ []) }
    ensures encoded_kept { OnErr result (encoded.new ≡ encoded.old) }
    ensures block_kept { OnErr result (block.new ≡ block.old) }
    ensures sure { front_size (format_of encoded.old.format) encoded.old.width (encoded.old.values ++ block.old) ≤ encoded.old.reserve.bytes →
        length (encoded.old.values ++ block.old) ≤ encoded.old.reserve.count → IsOk result }
{
    words_fit(block.as_slice());
    encoded.push_block(block)?;
    block.clear();
    Ok(())
}

/// The first values.
fn first_of(values: &[u64], count: usize) -> &[u64]
    requires { count ≤ length values.now }
    ensures { result.now ≡ take count values.now }
{
    &values[..count]
}

/// The values from a place on.
fn rest_from(values: &[u64], place: usize) -> &[u64]
    requires { place ≤ length values.now }
    ensures { result.now ≡ drop place values.now }
{
    &values[place..]
}

/// The width of a column with these whole blocks.
fn least_width(format: Format, whole: &[u64]) -> u8
    requires { length whole.now % block_values ≡ 0 }
    ensures width { result ≡ static_width_of (format_of format) whole.now }
    ensures lawful { IsColumnWidth (format_of format) result }
{
    match format {
        Format::Static => width_of_values(whole),
        _ => 0,
    }
}

/// Writes the values over a full block.
fn fill_from(block: &mut Block, values: &[u64])
    requires full { length block.old ≡ block_values }
    requires whole { length values.now ≡ block_values }
    ensures same { block.new ≡ values.now }
    ensures full { IsFull block.new }
{
    words_fit(values);
    block.as_mut_slice().copy_from_slice(values);
}

/// The column of the values in the format. A value is copied once, into the block that is encoded.
pub fn encode_list(alloc: Global, values: &[u64], format: Format) -> Result<Column, AllocError>
    requires { length values.now ≤ max_rows }
    ensures { IfOk result (λ column. column ≡ shape format values.now) }
{
    let whole = values.len() / BLOCK_LEN * BLOCK_LEN;
    let width = least_width(format, &values[..whole]);
    let mut encoded = Encoded::new(alloc, format, width)?;
    let mut block = Block::new();
    block.fill();
    for number in 0..values.len() / BLOCK_LEN {
        let start = number * BLOCK_LEN;
        fill_from(&mut block, &values[start..start + BLOCK_LEN]);
        encoded.push_block(&block)?;
    }
    encoded.finish(rest_from(values, whole))
}
