//! The size of the file of the list that is pushed, in one format.

ghost use Rattle.std.specs.Prelude.{◌≡◌, true, ℕ, ◌+◌, ◌*◌, ◌^◌, ◌≤◌, [], List, length};
ghost use Rattle.definitions_blocks.specs.Formats.{IsColumnWidth};
ghost use Rattle.definitions_columns.specs.ColumnFiles.{second, static_width_of, fits_columns, first_start, tail_width_of, IsColumnFile};
ghost use Rattle.definitions_columns.specs.Sizes.{size_of};
ghost use Rattle.block_core.specs.Formats.{format_of};
ghost use Rattle.size_chooser.specs.FormatSizes.{format_in, IsFormatSizeOf};

use crate::format_sums::FormatSum;
use crate::tallies::Tally;
use block_core::{BLOCK_LEN, Emit, Format};
use std::alloc::AllocError;
use std::marker::Model;
use strand_pack::{MAX_WIDTH, width_of_values};
use tail_pack::packed_len;

/// What the file of a list would take in one format, found by the one pass over each block that the format needs. It keeps one
/// block, a count and a sum, and asks for no memory.
#[derive(Drop)]
pub struct FormatSize {
    tally: Tally<FormatSum>,
}

impl Model for FormatSize {
    ghost use Rattle.std.specs.Prelude.{ℕ, List};
    ghost use Rattle.size_chooser.specs.FormatSizes.{FormatKept, format_kept, IsFormatSizeOf};

    ghost Value = { FormatKept };

    ghost view = { λ size. format_kept size.tally.count size.tally.block size.tally.meter };

    ghost invariant = { λ size. (values : List ℕ) × IsFormatSizeOf (format_kept size.tally.count size.tally.block size.tally.meter) values };
}

impl FormatSize {
    /// The size of no values.
    pub fn new(format: Format) -> FormatSize
        ensures none { IsFormatSizeOf result [] }
        ensures format { format_in result ≡ format }
    {
        FormatSize {
            tally: Tally::new(FormatSum::none(format)),
        }
    }

    pub fn format(&self) -> Format
        ensures { result ≡ format_in self.now }
    {
        self.tally.meter.format
    }

    /// How many values were pushed.
    pub fn count(&self) -> u64
        ensures { (values : List ℕ) → IsFormatSizeOf self.now values → result ≡ length values }
    {
        self.tally.count
    }

    /// The static width of the file, which is 0 if the format has none.
    pub fn static_width(&self) -> u8
        ensures lawful { IsColumnWidth (format_of (format_in self.now)) result }
        ensures width { (values : List ℕ) → IsFormatSizeOf self.now values → result ≡ static_width_of (format_of (format_in self.now)) values }
        ensures fits { (values : List ℕ) → IsFormatSizeOf self.now values → fits_columns (format_of (format_in self.now)) result values ≡ true }
    {
        self.tally.meter.width
    }

    /// How many bytes the file has.
    pub fn size(&self) -> u64
        ensures size { (values : List ℕ) → IsFormatSizeOf self.now values → result ≡ size_of (format_of (format_in self.now)) values }
        ensures length { (values bytes : List ℕ) → IsFormatSizeOf self.now values →
            IsColumnFile (format_of (format_in self.now)) values bytes → result ≡ length bytes }
    {
        let sum = self.tally.meter;
        let waiting = self.tally.block.as_slice();
        let blocks = self.tally.count / BLOCK_LEN as u64;
        let tail = packed_len(waiting.len(), tail_width(sum.format, waiting)) as u64;
        start_of(sum.format, blocks) + (128 * u64::from(sum.width) * blocks + sum.size) + tail
    }
}

impl Emit for FormatSize {
    ghost use Rattle.std.specs.Prelude.{◌≡◌, ◌+◌, ◌<◌, ◌≤◌, ◌++◌, ◌∷◌, [], ℕ, List, length, true, IsOk};
    ghost use Rattle.definitions_blocks.specs.Columns.{max_rows};
    ghost use Rattle.block_core.specs.declared.formats.Format.{Format};
    ghost use Rattle.size_chooser.specs.FormatSizes.{format_in, IsFormatSizeOf};

    ghost Frame = { Format };

    ghost frame = { λ size. size.sum.format };

    ghost pushed = { IsFormatSizeOf };

    ghost scope = { λ _ _. true };

    ghost room = { λ _ _. true };

    fn push(&mut self, value: u64) -> Result<(), AllocError>
        requires { (list : List ℕ) × IsFormatSizeOf self.old list × (length list < max_rows) }
        ensures taken { (list : List ℕ) → IsFormatSizeOf self.old list → IsFormatSizeOf self.new (list ++ value ∷ []) }
        ensures format { format_in self.new ≡ format_in self.old }
        ensures ok { IsOk result }
    {
        self.tally.push(value);
        Ok(())
    }

    fn extend(&mut self, values: &[u64]) -> Result<(), AllocError>
        requires { (list : List ℕ) × IsFormatSizeOf self.old list × (length list + length values.now ≤ max_rows) }
        ensures taken { (list : List ℕ) → IsFormatSizeOf self.old list → IsFormatSizeOf self.new (list ++ values.now) }
        ensures format { format_in self.new ≡ format_in self.old }
        ensures ok { IsOk result }
    {
        self.tally.extend(values);
        Ok(())
    }

    ghost scope_law = { λ _ _ _ e. e };

    ghost room_law = { λ _ _ _ e. e };
}

/// How many bytes stand before the first of so many blocks: the head, and the directory if the format has one.
fn start_of(format: Format, blocks: u64) -> u64
    requires { blocks ≤ 2 ^ 32 }
    ensures start { result ≡ first_start second (format_of format) blocks }
    ensures small { result ≤ 16 + 8 * blocks }
{
    match format {
        Format::Plain | Format::Static => 16,
        _ => 16 + 8 * blocks,
    }
}

/// The width of the values after the last whole block.
fn tail_width(format: Format, tail: &[u64]) -> u8
    ensures narrow { result ≤ 64 }
    ensures width { result ≡ tail_width_of second (format_of format) tail.now }
{
    match format {
        Format::Plain => MAX_WIDTH,
        _ => width_of_values(tail),
    }
}
