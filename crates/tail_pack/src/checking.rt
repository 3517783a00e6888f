//! Whether bytes are a tail.

ghost use Rattle.std.specs.Prelude.{◌≡◌, ℕ, ◌+◌, ◌*◌, ◌-◌, ◌<◌, ◌≤◌, ◌↔◌, List, length, slice_index, IsTrue};
ghost use Rattle.definitions_blocks.specs.Blocks.{block_values};
ghost use Rattle.definitions_columns.specs.Tails.{byte_bit, IsPackedTail};

use crate::lengths::packed_len;

/// Whether the bytes are so many values packed at the width. Nothing is unpacked for it: the length and the last byte tell.
pub fn check(bytes: &[u8], width: u8, count: usize) -> bool
    requires few { count < block_values }
    requires narrow { width ≤ 64 }
    ensures { IsTrue result ↔ ((values : List ℕ) × (length values ≡ count) × IsPackedTail width values bytes.now) }
{
    bytes.len() == packed_len(count, width) && ends_clear(bytes, count * width as usize)
}

// Whether no bit is set from the end of so many bits on. They end in the last byte, or with it.
fn ends_clear(bytes: &[u8], bits: usize) -> bool
    requires begun { 8 * length bytes.now < bits + 8 }
    requires inside { bits ≤ 8 * length bytes.now }
    ensures { IsTrue result ↔ ((k : ℕ) → bits ≤ k → byte_bit bytes.now k ≡ 0) }
{
    let used = bits % 8;
    if used == 0 {
        return true;
    }
    bytes[bytes.len() - 1] >> used == 0
}
