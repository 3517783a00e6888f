//! The width of a block: the least that holds its values, and whether a packed block has it.

ghost use Rattle.std.specs.Prelude.{◌≡◌, ℕ, ◌+◌, ◌-◌, ◌*◌, ◌<◌, ◌≤◌, ◌↔◌, List, length, IsTrue, IsFalse};
ghost use Rattle.std.specs.Int.{bit_at};
ghost use Rattle.definitions_blocks.specs.Packed.{word_bit, AreBelow, IsPacked, IsWidth};

use crate::words::word_at;
use block_core::{Block, ROWS, STRANDS};

/// The width of a 64-bit number, above which no block is packed.
pub const MAX_WIDTH: u8 = 64;

/// The least width that holds all the values of the block, full or not.
pub fn width_of(block: &Block) -> u8
    ensures least { IsWidth result block.now }
    ensures narrow { result ≤ 64 }
{
    width_of_values(block.as_slice())
}

/// The least width that holds all the values.
pub fn width_of_values(values: &[u64]) -> u8
    ensures least { IsWidth result values.now }
    ensures narrow { result ≤ 64 }
{
    let mut all: u64 = 0;
    for value in values {
        all |= *value;
    }
    (64 - all.leading_zeros()) as u8
}

/// How many bytes a block has that is packed at the width.
pub fn packed_len(width: u8) -> usize
    ensures { result ≡ 128 * width }
{
    128 * width as usize
}

/// Whether no smaller width holds the block that the bytes are at this one. Nothing is unpacked for it, and of most blocks
/// little is read.
pub fn is_least_width(packed: &[u8], width: u8) -> bool
    requires narrow { width ≤ 64 }
    requires size { length packed.now ≡ 128 * width }
    ensures { (values : List ℕ) → IsPacked width values packed.now → IsTrue result ↔ IsWidth width values }
{
    if width == 0 {
        return true;
    }
    has_highest_bit(packed, width as usize)
}

/// Whether some value has the highest bit of the width. The highest bits of a row stand in one line of words, and at most the
/// lines up to the first such value are read.
fn has_highest_bit(packed: &[u8], width: usize) -> bool
    requires some { 0 < width }
    requires narrow { width ≤ 64 }
    requires size { length packed.now ≡ 128 * width }
    ensures { (values : List ℕ) → IsPacked width values packed.now → IsFalse result ↔ AreBelow (width - 1) values }
{
    for row in 0..ROWS {
        let bit = row * width + (width - 1);
        if (bits_of_line(packed, bit / 64) >> (bit % 64) as u32) % 2 != 0 {
            return true;
        }
    }
    false
}

/// The bits that some word of a line has.
#[inline(always)]
fn bits_of_line(packed: &[u8], line: usize) -> u64
    requires { 128 * line + 128 ≤ length packed.now }
    ensures { (bit : ℕ) → bit < 64 → (bit_at result bit ≡ 0) ↔ ((strand : ℕ) → strand < 16 → word_bit packed.now (line * 16 + strand) bit ≡ 0) }
{
    let mut all = 0;
    for strand in 0..STRANDS {
        all |= word_at(packed, line * STRANDS + strand);
    }
    all
}
