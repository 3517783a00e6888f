//! Packing a block.
//!
//! Each strand is a number, written from its lowest word on. Neighbouring strands grow together, a lane for each: a row of
//! values is put above the bits that their words have, and full words are written.

ghost use Rattle.std.specs.Prelude.{◌≡◌, ℕ, ◌+◌, ◌-◌, ◌*◌, ◌/◌, ◌%◌, ◌^◌, ◌<◌, ◌≤◌, ◌⊎◌, length, slice_index, bit_or};
ghost use Rattle.definitions_blocks.specs.Blocks.{block_values};
ghost use Rattle.definitions_blocks.specs.Packed.{AreBelow, IsPacked};
ghost use Rattle.strand_pack.specs.Words.{AreEncoded};

use crate::words::put_words;
use block_core::{Block, ROWS, STRANDS, bytes_fit};
use lane_core::Lanes;

/// Writes the block at the width, in `128 * width` bytes. At a lane width `L` other than 1, 2, 4, 8 and 16 it works as at 1,
/// and the bytes are the same at every one.
pub fn pack<const L: usize>(full: &Block, width: u8, into: &mut [u8])
    requires whole { length full.now ≡ block_values }
    requires narrow { width ≤ 64 }
    requires small { AreBelow width full.now }
    requires size { length into.old ≡ 128 * width }
    ensures { IsPacked width full.now into.new }
{
    pack_values::<L>(full.as_slice(), width as u32, into);
}

// The lane width is chosen once for a block.
fn pack_values<const L: usize>(full: &[u64], width: u32, into: &mut [u8])
    requires whole { length full.now ≡ block_values }
    requires narrow { width ≤ 64 }
    requires small { AreBelow width full.now }
    requires size { length into.old ≡ 128 * width }
    ensures { IsPacked width full.now into.new }
{
    match L {
        2 => pack_groups::<2>(full, width, into),
        4 => pack_groups::<4>(full, width, into),
        8 => pack_groups::<8>(full, width, into),
        16 => pack_groups::<16>(full, width, into),
        _ => pack_groups::<1>(full, width, into),
    }
}

fn pack_groups<const L: usize>(full: &[u64], width: u32, into: &mut [u8])
    requires few { L ≤ 16 }
    requires even { 16 / L * L ≡ 16 }
    requires whole { length full.now ≡ block_values }
    requires narrow { width ≤ 64 }
    requires small { AreBelow width full.now }
    requires size { length into.old ≡ 128 * width }
    ensures { IsPacked width full.now into.new }
{
    for group in 0..STRANDS / L {
        pack_strands::<L>(full, width, group * L, into);
    }
    bytes_fit(into);
}

// Packs as many strands as there are lanes, from the first on.
fn pack_strands<const L: usize>(full: &[u64], width: u32, first: usize, into: &mut [u8])
    requires few { L ≤ 16 }
    requires strands { first + L ≤ 16 }
    requires whole { length full.now ≡ block_values }
    requires narrow { width ≤ 64 }
    requires small { AreBelow width full.now }
    requires size { length into.old ≡ 128 * width }
    ensures encoded { AreEncoded width first (first + L) full.now into.new }
    ensures beside { (k : ℕ) → (k / 8 % 16 < first) ⊎ (first + L ≤ k / 8 % 16) → slice_index into.new k ≡ slice_index into.old k }
{
    let mut words = Lanes::<L>::splat(0);
    let mut bits = 0;
    let mut line = 0;
    for row in 0..ROWS {
        let values = Lanes::<L>::load(&full[row * STRANDS + first..]);
        let room = 64 - bits;
        words = put_above(words, values, bits);
        if width < room {
            bits += width;
        } else {
            put_words(words, into, line * STRANDS + first);
            words = high_bits(values, room);
            bits = width - room;
            line += 1;
        }
    }
    bytes_fit(into);
}

// A row of values above the bits that the words have.
#[inline(always)]
fn put_above<const L: usize>(words: Lanes<L>, values: Lanes<L>, bits: u32) -> Lanes<L>
    requires few { L ≤ 16 }
    requires words { length words ≡ L }
    requires values { length values ≡ L }
    requires bits { bits < 64 }
    ensures each { (lane : ℕ) → lane < L → slice_index result lane ≡ bit_or (slice_index words.entry lane) (slice_index values.entry lane * 2 ^ bits % 2 ^ 64) }
    ensures lanes { length result ≡ L }
{
    words.or(values.shift_up(bits))
}

// What is left of the values without as many low bits, all 64 at most.
#[inline(always)]
fn high_bits<const L: usize>(values: Lanes<L>, bits: u32) -> Lanes<L>
    requires few { L ≤ 16 }
    requires values { length values ≡ L }
    requires words { (lane : ℕ) → slice_index values lane < 2 ^ 64 }
    requires bits { bits ≤ 64 }
    ensures each { (lane : ℕ) → lane < L → slice_index result lane ≡ slice_index values.entry lane / 2 ^ bits }
    ensures lanes { length result ≡ L }
{
    // A shift by all bits is none that the machine has.
    if bits == 64 {
        Lanes::splat(0)
    } else {
        values.shift_down(bits)
    }
}
