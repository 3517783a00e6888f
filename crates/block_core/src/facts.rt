//! What the type of a slice says of its elements.
//!
//! A call tells it to the proof, and costs nothing.

ghost use Rattle.std.specs.Prelude.{ℕ, ◌<◌, ◌^◌, slice_index};

/// A word is below 2^64.
#[inline(always)]
pub fn words_fit(words: &[u64])
    ensures { (place : ℕ) → slice_index words.now place < 2 ^ 64 }
{}

/// A byte is below 2^8.
#[inline(always)]
pub fn bytes_fit(bytes: &[u8])
    ensures { (place : ℕ) → slice_index bytes.now place < 2 ^ 8 }
{}
