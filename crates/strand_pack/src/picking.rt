//! One value of a packed block.

ghost use Rattle.std.specs.Prelude.{◌≡◌, ℕ, ◌*◌, ◌<◌, ◌≤◌, List, length, slice_index};
ghost use Rattle.definitions_blocks.specs.Blocks.{block_values};
ghost use Rattle.definitions_blocks.specs.Packed.{IsPacked};

use crate::words::{WORD_BITS, word_at};
use block_core::STRANDS;

/// The value at a place of the block that these `128 * width` bytes are at the width. It reads two words at most, and
/// unpacks nothing.
pub fn pick(bytes: &[u8], width: u8, place: usize) -> u64
    requires narrow { width ≤ 64 }
    requires size { length bytes.now ≡ 128 * width }
    requires within { place < block_values }
    ensures { (values : List ℕ) → IsPacked width values bytes.now → result ≡ slice_index values place }
{
    if width == 0 {
        return 0;
    }
    let start = place / STRANDS * width as usize;
    let word = start / WORD_BITS * STRANDS + place % STRANDS;

    // In the strand's last word a value ends there, and any word may stand for the next.
    let next = if word + STRANDS < STRANDS * width as usize {
        word + STRANDS
    } else {
        word
    };
    let both = u128::from(word_at(bytes, word)) | u128::from(word_at(bytes, next)) << 64;
    let mask = u128::from(u64::MAX >> (64 - width));
    ((both >> (start % WORD_BITS)) & mask) as u64
}
