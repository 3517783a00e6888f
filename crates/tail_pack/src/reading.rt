//! Reading a tail.
//!
//! A value has at most 71 bits from the beginning of its first byte on, so a window of 16 bytes from there has all of it.

ghost use Rattle.std.specs.Prelude.{◌≡◌, ℕ, ◌+◌, ◌*◌, ◌-◌, ◌^◌, ◌<◌, ◌≤◌, List, length, slice_index};
ghost use Rattle.std.specs.Int.{bit_at};
ghost use Rattle.definitions_blocks.specs.Blocks.{block_values};
ghost use Rattle.definitions_columns.specs.Tails.{byte_bit, IsPackedTail};

use block_core::Block;

/// The value at a place of a tail. It reads at most 16 bytes, and unpacks nothing.
pub fn pick(bytes: &[u8], width: u8, place: usize) -> u64
    requires { (values : List ℕ) × IsPackedTail width values bytes.now × (place < length values) × (length values < block_values) × (width ≤ 64) }
    ensures { (values : List ℕ) → IsPackedTail width values bytes.now → place < length values → result ≡ slice_index values place }
{
    if width == 0 {
        return 0;
    }
    value_at(bytes, width as usize, place)
}

/// Leaves the values of a tail in `into`.
pub fn unpack(bytes: &[u8], width: u8, count: usize, into: &mut Block)
    requires { (values : List ℕ) × IsPackedTail width values bytes.now × (length values ≡ count) × (count < block_values) × (width ≤ 64) }
    ensures { (values : List ℕ) → IsPackedTail width values bytes.now → length values ≡ count → into.new ≡ values }
{
    into.clear();
    for place in 0..count {
        into.push(pick(bytes, width, place));
    }
}

// The value at a place, at a width above 0.
#[inline(always)]
fn value_at(bytes: &[u8], width: usize, place: usize) -> u64
    requires some { 0 < width }
    requires narrow { width ≤ 64 }
    requires few { place < block_values }
    requires inside { place * width ≤ 8 * length bytes.now }
    ensures bits { (b : ℕ) → b < width → bit_at result b ≡ byte_bit bytes.now (place * width + b) }
    ensures small { result < 2 ^ width }
{
    let start = place * width;
    let mask = u128::from(u64::MAX >> (64 - width));
    ((window_at(bytes, start / 8) >> (start % 8)) & mask) as u64
}

// The 128 bits from a byte on. Behind the last byte they are 0.
#[inline(always)]
fn window_at(bytes: &[u8], place: usize) -> u128
    requires { place ≤ length bytes.now }
    ensures { (k : ℕ) → k < 128 → bit_at result k ≡ byte_bit bytes.now (8 * place + k) }
{
    let rest = &bytes[place..];
    match rest.first_chunk::<16>() {
        Some(window) => u128::from_le_bytes(*window),
        None => u128::from_le_bytes(padded(rest)),
    }
}

// Fewer than 16 bytes, and zeros behind them.
fn padded(rest: &[u8]) -> [u8; 16]
    requires { length rest.now < 16 }
    ensures { (k : ℕ) → slice_index result k ≡ slice_index rest.now k }
{
    let mut window = [0; 16];
    window[..rest.len()].copy_from_slice(rest);
    window
}
