//! Packing a tail.
//!
//! A value is put above the bits that wait in a word. A word that is full is written, and what did not fit waits.

ghost use Rattle.std.specs.Prelude.{◌≡◌, ℕ, ◌+◌, ◌*◌, ◌/◌, ◌%◌, ◌^◌, ◌<◌, ◌≤◌, length, slice_index};
ghost use Rattle.definitions_blocks.specs.Blocks.{block_values};
ghost use Rattle.definitions_blocks.specs.Packed.{AreBelow};
ghost use Rattle.definitions_columns.specs.Tails.{packed_len, IsPackedTail};

use block_core::bytes_fit;

/// Writes the values, packed at the width, over `into`. A word of 64 bits is written at a time, and the last bytes alone.
pub fn pack(values: &[u64], width: u8, into: &mut [u8])
    requires short { length values.now < block_values }
    requires narrow { width ≤ 64 }
    requires small { AreBelow width values.now }
    requires long { length into.old ≡ packed_len (length values.now) width }
    ensures { IsPackedTail width values.now into.new }
{
    pack_values(values, width as u32, into);
}

fn pack_values(values: &[u64], width: u32, into: &mut [u8])
    requires short { length values.now < block_values }
    requires narrow { width ≤ 64 }
    requires small { AreBelow width values.now }
    requires long { length into.old ≡ packed_len (length values.now) width }
    ensures { IsPackedTail width values.now into.new }
{
    let mut waiting = 0u64;
    let mut bits = 0u32;
    let mut written = 0usize;
    for value in values {
        let room = 64 - bits;
        waiting |= *value << bits;
        if width < room {
            bits += width;
        } else {
            put_word(waiting, into, written);
            waiting = high_bits(*value, room);
            bits = width - room;
            written += 8;
        }
    }
    put_rest(waiting, into, written);
    bytes_fit(into);
}

// What is left of the value without as many low bits, all 64 at most.
#[inline(always)]
fn high_bits(value: u64, bits: u32) -> u64
    requires { bits ≤ 64 }
    ensures { result ≡ value / 2 ^ bits }
{
    // A shift by all bits is none that the machine has.
    if bits == 64 { 0 } else { value >> bits }
}

// Writes the eight bytes of the word from a place on.
#[inline(always)]
fn put_word(word: u64, into: &mut [u8], place: usize)
    requires { place + 8 ≤ length into.old }
    ensures written { (k : ℕ) → k < 8 → slice_index into.new (place + k) ≡ word / 2 ^ (8 * k) % 2 ^ 8 }
    ensures below { (k : ℕ) → k < place → slice_index into.new k ≡ slice_index into.old k }
{
    set_word(word, &mut into[place..place + 8]);
}

// As an array the eight bytes are written by one store.
#[inline(always)]
fn set_word(word: u64, into: &mut [u8])
    requires { length into.old ≡ 8 }
    ensures { (k : ℕ) → k < 8 → slice_index into.new k ≡ word / 2 ^ (8 * k) % 2 ^ 8 }
{
    if let Some(bytes) = into.as_mut_array::<8>() {
        *bytes = word.to_le_bytes();
    }
}

// Writes the bytes from a place on: the lowest of the word, as many as there are.
fn put_rest(word: u64, into: &mut [u8], place: usize)
    requires begun { place ≤ length into.old }
    requires few { length into.old ≤ place + 8 }
    ensures written { (k : ℕ) → place + k < length into.new → slice_index into.new (place + k) ≡ word / 2 ^ (8 * k) % 2 ^ 8 }
    ensures below { (k : ℕ) → k < place → slice_index into.new k ≡ slice_index into.old k }
{
    set_bytes(word, &mut into[place..]);
}

fn set_bytes(word: u64, into: &mut [u8])
    requires { length into.old ≤ 8 }
    ensures { (k : ℕ) → k < length into.new → slice_index into.new k ≡ word / 2 ^ (8 * k) % 2 ^ 8 }
{
    let len = into.len();
    let bytes = word.to_le_bytes();
    into.copy_from_slice(&bytes[..len]);
}
