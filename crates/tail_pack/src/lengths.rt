//! How long a tail is.

ghost use Rattle.std.specs.Prelude.{◌≡◌, ◌<◌, ◌≤◌};
ghost use Rattle.definitions_blocks.specs.Blocks.{block_values};
ghost use Rattle.definitions_columns.specs.Tails.{packed_len as tail_len};

/// How many bytes hold so many values of a width.
pub fn packed_len(count: usize, width: u8) -> usize
    requires few { count < block_values }
    requires narrow { width ≤ 64 }
    ensures size { result ≡ tail_len count width }
    ensures small { result ≤ 8192 }
{
    (count * width as usize + 7) / 8
}
