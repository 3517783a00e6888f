//! How long blocks are in one format.

ghost use Rattle.std.specs.Prelude.{◌≡◌, ◌≤◌, [], length};
ghost use Rattle.definitions_blocks.specs.Blocks.{block_values};
ghost use Rattle.definitions_blocks.specs.Formats.{has_static_width};
ghost use Rattle.definitions_columns.specs.Sizes.{block_size};
ghost use Rattle.block_core.specs.Formats.{format_of};
ghost use Rattle.size_chooser.specs.FormatSums.{IsWidestWhere, IsFormatSumOf};

use crate::passes::{gap_bits, runs_of, spread_of, step_bits, step_runs_of};
use crate::sums::packed_size;
use crate::tallies::Meter;
use block_core::{Format, words_fit};
use strand_pack::width_of_values;

/// The static width of all blocks so far, and how many bytes they take, which for `static` stays 0.
#[derive(Clone, Copy)]
pub struct FormatSum {
    pub format: Format,
    pub width: u8,
    pub size: u64,
}

impl FormatSum {
    /// The sum of no blocks.
    pub fn none(format: Format) -> FormatSum
        ensures none { IsFormatSumOf result [] }
        ensures format { result.format ≡ format }
    {
        FormatSum {
            format,
            width: 0,
            size: 0,
        }
    }
}

impl Meter for FormatSum {
    ghost use Rattle.block_core.specs.declared.formats.Format.{Format};
    ghost use Rattle.size_chooser.specs.FormatSums.{IsFormatSumOf};

    ghost Frame = { Format };

    ghost frame = { λ sum. sum.format };

    ghost measured = { IsFormatSumOf };

    fn add(&mut self, block: &[u64]) {
        self.width = self.width.max(width_in(self.format, block));
        self.size += size_in(self.format, block);
    }
}

/// The static width of a block.
fn width_in(format: Format, block: &[u64]) -> u8
    ensures narrow { result ≤ 64 }
    ensures widest { IsWidestWhere (has_static_width (format_of format)) result block.now }
{
    match format {
        Format::Static => width_of_values(block),
        _ => 0,
    }
}

/// How many bytes a block has, by the one pass that its format needs. For `static` it is 0, since all blocks have one width.
fn size_in(format: Format, block: &[u64]) -> u64
    requires { length block.now ≡ block_values }
    ensures size { result ≡ block_size (format_of format) 0 block.now }
    ensures small { result ≤ 10250 }
{
    words_fit(block);
    match format {
        Format::Plain => 8192,
        Format::Static => 0,
        Format::Dynamic => 1 + 128 * u64::from(width_of_values(block)),
        Format::Runs => 2 + 10 * runs_of(block),
        Format::Delta1Dynamic => 9 + packed_size(step_bits(block)),
        Format::Delta16Dynamic => 9 + packed_size(gap_bits(block)),
        Format::ReferenceDynamic => 9 + packed_size(spread_of(block)),
        Format::Delta1Runs => 10 + 10 * step_runs_of(block),
    }
}
