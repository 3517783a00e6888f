//! Columns: a format and a list, kept as the list's file.

ghost use Rattle.std.specs.Prelude.{◌≡◌, ◌+◌, ◌-◌, ◌*◌, ◌/◌, ◌%◌, ◌<◌, ◌≤◌, true, ℕ, List as Items, All, map, length, take, drop, slice_index, IfOk, IfSome};
ghost use Rattle.definitions_blocks.specs.Words.{word_of};
ghost use Rattle.definitions_blocks.specs.Blocks.{block_values, block_at};
ghost use Rattle.definitions_blocks.specs.Columns.{IsColumn, max_rows};
ghost use Rattle.definitions_blocks.specs.Formats.{plain, BlockOf, IsColumnWidth};
ghost use Rattle.definitions_columns.specs.Tails.{IsPackedTail};
ghost use Rattle.definitions_columns.specs.ColumnFiles.{first, second, head_len, IsFileOf, IsColumnFile, static_width_of, tail_width_of, fits_columns};
ghost use Rattle.definitions_columns.specs.Sizes.{whole_count, block_start, front_size, tail_of};
ghost use Rattle.block_core.specs.Formats.{format_of};
ghost use Rattle.column_core.specs.Columns.{shape, Stored, Stored-prop};

use crate::blocks::{decode_block, pick_value};
use crate::heads::{HEAD_LEN, head_of};
use crate::upgrades::upgraded;
use crate::words::{number_at, rest_from};
use block_core::{BLOCK_LEN, Block, Format};
use std::alloc::{AllocError, Global};
use std::marker::Model;
use stream_core::{Bytes, List};
use tail_pack::packed_len;

/// A list of at most 268,435,456 numbers in one format. It is held as its file alone: what the head says is kept beside it, and
/// where a block starts is read from the directory or follows from the format.
#[derive(Drop)]
pub struct Column {
    format: Format,
    static_width: u8,
    tail_width: u8,
    count: u64,
    bytes: Vec<u8>,
    ghost stored: { Stored format bytes.items } by { Stored-prop format bytes.items },
}

impl Model for Column {
    ghost use Rattle.std.specs.Prelude.{◌≡◌, length};
    ghost use Rattle.definitions_columns.specs.ColumnFiles.{second, IsColumnFile, static_width_of, tail_width_of};
    ghost use Rattle.definitions_columns.specs.Sizes.{tail_of};
    ghost use Rattle.block_core.specs.Formats.{format_of};
    ghost use Rattle.column_core.specs.Columns.{Shape, shape};

    ghost Value = { Shape };

    ghost view = { λ column. shape column.format column.stored.0 };

    ghost invariant = { λ column. IsColumnFile (format_of column.format) column.stored.0 column.bytes.items
        × (column.static_width ≡ static_width_of (format_of column.format) column.stored.0)
        × (column.tail_width ≡ tail_width_of second (format_of column.format) (tail_of column.stored.0))
        × (column.count ≡ length column.stored.0) };
}

impl Column {
    /// The column whose file the bytes are, which are kept as they are. It is the caller who knows that they are a file:
    /// nothing is checked. `column_file::read_column` checks bytes from outside.
    pub fn of_file(bytes: Bytes) -> Column
        requires { (format : Format) × (values : Items ℕ) × IsColumnFile (format_of format) values bytes }
        ensures { (format : Format) (values : Items ℕ) → IsColumnFile (format_of format) values bytes → result ≡ shape format values }
    {
        Column::of_vec(bytes.into_vec())
    }

    /// The same, for a caller who knows where the whole blocks start. The file says it already, so the list is let go.
    pub fn adopt(bytes: Bytes, _starts: List<u64>) -> Column
        requires { (format : Format) × (values : Items ℕ) × IsColumnFile (format_of format) values bytes }
        ensures { (format : Format) (values : Items ℕ) → IsColumnFile (format_of format) values bytes → result ≡ shape format values }
    {
        Column::of_file(bytes)
    }

    /// The column of a file of the first version, which must be one. Its blocks are kept: they move up behind a directory, and
    /// the values after them are packed. It takes 8 bytes for each whole block while it works.
    pub fn upgrade(alloc: Global, bytes: Bytes) -> Result<Column, AllocError>
        requires { (format : Format) × (values : Items ℕ) × IsFileOf first (format_of format) values bytes }
        ensures { (format : Format) (values : Items ℕ) → IsFileOf first (format_of format) values bytes → IfOk result (λ column. column ≡ shape format values) }
    {
        upgraded(alloc, bytes.into_vec())
    }

    pub(crate) fn of_vec(bytes: Vec<u8>) -> Column
        requires { (format : Format) × (values : Items ℕ) × IsColumnFile (format_of format) values bytes.items }
        ensures { (format : Format) (values : Items ℕ) → IsColumnFile (format_of format) values bytes.items → result ≡ shape format values }
    {
        let head = head_of(bytes.as_slice());
        Column {
            format: head.format,
            static_width: head.static_width,
            tail_width: head.tail_width,
            count: head.count,
            bytes,
        }
    }

    pub fn format(&self) -> Format
        ensures { result ≡ self.now.format }
    {
        self.format
    }

    /// How many values there are.
    pub fn count(&self) -> u64
        ensures count { result ≡ length self.now.values }
        ensures few { length self.now.values ≤ max_rows }
        ensures column { IsColumn self.now.values }
    {
        self.count
    }

    /// The width in the head: in the format `static` the least that holds each value of the whole blocks, in any other 0. A
    /// builder of the same format and list may be given it.
    pub fn static_width(&self) -> u8
        ensures width { result ≡ static_width_of (format_of self.now.format) self.now.values }
        ensures lawful { IsColumnWidth (format_of self.now.format) result }
        ensures fits { fits_columns (format_of self.now.format) result self.now.values ≡ true }
    {
        self.static_width
    }

    /// The column's file.
    pub fn encoded(&self) -> &[u8]
        ensures file { IsColumnFile (format_of self.now.format) self.now.values result.now }
        ensures one { (bytes : Items ℕ) → IsColumnFile (format_of self.now.format) self.now.values bytes → bytes ≡ result.now }
    {
        self.bytes.as_slice()
    }

    /// The encoding of a whole block.
    pub fn block_bytes(&self, block: u64) -> &[u8]
        requires { block < length self.now.values / block_values }
        ensures { BlockOf (format_of self.now.format) (static_width_of (format_of self.now.format) self.now.values)
            (block_at self.now.values block) result.now }
    {
        part(
            self.bytes.as_slice(),
            self.block_start(block),
            self.block_start(block + 1),
        )
    }

    /// A value after the last whole block, by its place there.
    pub fn tail_value(&self, place: u64) -> u64
        requires { place < length self.now.values % block_values }
        ensures { result ≡ slice_index self.now.values (length self.now.values / block_values * block_values + place) }
    {
        tail_pack::pick(self.tail_bytes(), self.tail_width, place as usize)
    }

    /// Leaves the values of a block in `into`. The last block may be the tail, which is not whole.
    pub(crate) fn read_block<const L: usize>(&self, number: u64, into: &mut Block)
        requires { number * block_values < length self.now.values }
        ensures { into.new ≡ block_at self.now.values number }
    {
        if number < self.whole_blocks() {
            let bytes = self.block_bytes(number);
            decode_block::<L>(self.format(), self.static_width(), bytes, into);
        } else {
            tail_pack::unpack(self.tail_bytes(), self.tail_width, self.tail_len(), into);
        }
    }

    /// A value of a plain column, whose file is its head and a word for each value.
    pub(crate) fn word(&self, place: u64) -> u64
        requires plain { format_of self.now.format ≡ plain }
        requires within { place < length self.now.values }
        ensures { result ≡ slice_index self.now.values place }
    {
        number_at(rest_from(self.bytes.as_slice(), HEAD_LEN), place as usize)
    }

    /// The values of a plain column at places, as the first of `found`.
    pub(crate) fn words(&self, places: &[u64], found: &mut [u64])
        requires plain { format_of self.now.format ≡ plain }
        requires within { All (λ place. place < length self.now.values) places.now }
        requires room { length places.now ≤ length found.old }
        ensures values { take (length places.now) found.new ≡ map (λ place. slice_index self.now.values place) places.now }
        ensures length { length found.new ≡ length found.old }
    {
        for index in 0..places.len() {
            found[index] = self.word(places[index]);
        }
    }

    /// A value of a whole block, which is not decoded for it. There is none in the formats that give no value cheaper than all.
    pub(crate) fn pick(&self, number: u64, place: u64) -> Option<u64>
        requires whole { number < length self.now.values / block_values }
        requires within { place < block_values }
        ensures { IfSome result (λ value. value ≡ slice_index (block_at self.now.values number) place) }
    {
        pick_value(
            self.format(),
            self.static_width(),
            self.block_bytes(number),
            place as usize,
        )
    }

    /// How many whole blocks there are.
    pub(crate) fn whole_blocks(&self) -> u64
        ensures { result ≡ whole_count self.now.values }
    {
        self.count / BLOCK_LEN as u64
    }

    /// How many values there are after the whole blocks.
    fn tail_len(&self) -> usize
        ensures count { result ≡ length self.now.values % block_values }
        ensures tail { length (tail_of self.now.values) ≡ result }
    {
        self.count as usize % BLOCK_LEN
    }

    /// Where a whole block starts, and where the last one ends.
    fn block_start(&self, block: u64) -> usize
        requires { block ≤ whole_count self.now.values }
        ensures { result ≡ block_start (format_of self.now.format) (static_width_of (format_of self.now.format) self.now.values) self.now.values block }
    {
        match self.format {
            Format::Plain => HEAD_LEN + 8 * BLOCK_LEN * block as usize,
            Format::Static => HEAD_LEN + 128 * self.static_width as usize * block as usize,
            _ if block < self.whole_blocks() => entry_at(self.bytes.as_slice(), block as usize),
            _ => self.tail_start(),
        }
    }

    /// Where the values after the whole blocks start.
    fn tail_start(&self) -> usize
        ensures start { result ≡ front_size (format_of self.now.format) (static_width_of (format_of self.now.format) self.now.values) self.now.values }
    {
        self.bytes.len() - packed_len(self.tail_len(), self.tail_width)
    }

    /// The bytes of the values after the whole blocks.
    fn tail_bytes(&self) -> &[u8]
        ensures { IsPackedTail (tail_width_of second (format_of self.now.format) (tail_of self.now.values)) (tail_of self.now.values) result.now }
    {
        rest_from(self.bytes.as_slice(), self.tail_start())
    }
}

/// The directory's entry for a block.
fn entry_at(bytes: &[u8], block: usize) -> usize
    requires { head_len + 8 * block + 8 ≤ length bytes.now }
    ensures { result ≡ word_of bytes.now (2 + block) }
{
    strand_pack::word_at(bytes, HEAD_LEN / 8 + block) as usize
}

/// The bytes from one place to another.
fn part(bytes: &[u8], start: usize, end: usize) -> &[u8]
    requires forward { start ≤ end }
    requires within { end ≤ length bytes.now }
    ensures { result.now ≡ take (end - start) (drop start bytes.now) }
{
    &bytes[start..end]
}
