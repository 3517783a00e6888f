//! Unpacking a block.
//!
//! A row is the 16 values that begin at the same bit of their strands. So a row is read by the same shifts of neighbouring
//! words, from one line of 16 words or from two.

ghost use Rattle.std.specs.Prelude.{◌≡◌, ℕ, ◌+◌, ◌-◌, ◌*◌, ◌/◌, ◌%◌, ◌^◌, ◌<◌, ◌≤◌, length, slice_index, bit_and, bit_or};
ghost use Rattle.definitions_blocks.specs.Blocks.{block_values};
ghost use Rattle.definitions_blocks.specs.Packed.{IsPacked};
ghost use Rattle.definitions_blocks.specs.Words.{word_of};
ghost use Rattle.strand_pack.specs.Words.{field, value_in};

use crate::words::{WORD_BITS, words_at};
use block_core::{Block, ROWS, STRANDS};
use lane_core::Lanes;

/// Leaves in `into` the block that these `128 * width` bytes are at the width. Any bytes of this length are one. At a lane
/// width `L` other than 1, 2, 4, 8 and 16 it works as at 1.
pub fn unpack<const L: usize>(bytes: &[u8], width: u8, into: &mut Block)
    requires narrow { width ≤ 64 }
    requires size { length bytes.now ≡ 128 * width }
    ensures { IsPacked width into.new bytes.now }
{
    into.fill();
    unpack_into::<L>(bytes, width as usize, into.as_mut_slice());
}

// The lane width is chosen once for a block.
fn unpack_into<const L: usize>(bytes: &[u8], width: usize, into: &mut [u64])
    requires narrow { width ≤ 64 }
    requires size { length bytes.now ≡ 128 * width }
    requires whole { length into.old ≡ block_values }
    ensures { IsPacked width into.new bytes.now }
{
    match L {
        2 => unpack_rows::<2>(bytes, width, into),
        4 => unpack_rows::<4>(bytes, width, into),
        8 => unpack_rows::<8>(bytes, width, into),
        16 => unpack_rows::<16>(bytes, width, into),
        _ => unpack_rows::<1>(bytes, width, into),
    }
}

fn unpack_rows<const L: usize>(bytes: &[u8], width: usize, into: &mut [u64])
    requires few { L ≤ 16 }
    requires even { 16 / L * L ≡ 16 }
    requires narrow { width ≤ 64 }
    requires size { length bytes.now ≡ 128 * width }
    requires whole { length into.old ≡ block_values }
    ensures { IsPacked width into.new bytes.now }
{
    for row in 0..ROWS {
        unpack_row::<L>(
            bytes,
            width,
            row,
            &mut into[row * STRANDS..row * STRANDS + STRANDS],
        );
    }
}

#[inline(always)]
fn unpack_row<const L: usize>(bytes: &[u8], width: usize, row: usize, into: &mut [u64])
    requires few { L ≤ 16 }
    requires even { 16 / L * L ≡ 16 }
    requires narrow { width ≤ 64 }
    requires size { length bytes.now ≡ 128 * width }
    requires within { row < 64 }
    requires sixteen { length into.old ≡ 16 }
    ensures values { (strand : ℕ) → strand < 16 → slice_index into.new strand ≡ value_in bytes.now width row strand }
    ensures kept { length into.new ≡ 16 }
{
    let place = row * width / WORD_BITS * STRANDS;
    let offset = (row * width % WORD_BITS) as u32;
    if width == 0 {
        into.fill(0);
    } else if offset as usize + width <= WORD_BITS {
        row_from_one::<L>(bytes, place, offset, u64::MAX >> (WORD_BITS - width), into);
    } else {
        row_from_two::<L>(bytes, place, offset, u64::MAX >> (WORD_BITS - width), into);
    }
}

// A row whose values end in the words that they begin in.
#[inline(always)]
fn row_from_one<const L: usize>(
    bytes: &[u8],
    place: usize,
    offset: u32,
    mask: u64,
    into: &mut [u64],
)
    requires few { L ≤ 16 }
    requires even { 16 / L * L ≡ 16 }
    requires inside { 8 * (place + 16) ≤ length bytes.now }
    requires offset { offset < 64 }
    requires sixteen { length into.old ≡ 16 }
    ensures values { (strand : ℕ) → strand < 16 → slice_index into.new strand ≡ bit_and (word_of bytes.now (place + strand) / 2 ^ offset) mask }
    ensures kept { length into.new ≡ 16 }
{
    for group in 0..STRANDS / L {
        let first = group * L;
        lanes_from_one::<L>(
            bytes,
            place + first,
            offset,
            mask,
            &mut into[first..first + L],
        );
    }
}

#[inline(always)]
fn lanes_from_one<const L: usize>(
    bytes: &[u8],
    place: usize,
    offset: u32,
    mask: u64,
    into: &mut [u64],
)
    requires few { L ≤ 16 }
    requires inside { 8 * (place + L) ≤ length bytes.now }
    requires offset { offset < 64 }
    requires lanes { length into.old ≡ L }
    ensures values { (lane : ℕ) → lane < L → slice_index into.new lane ≡ bit_and (word_of bytes.now (place + lane) / 2 ^ offset) mask }
    ensures kept { length into.new ≡ L }
{
    let low = words_at::<L>(bytes, place).shift_down(offset);
    low.and(Lanes::splat(mask)).store(into);
}

// A row whose values begin in one word and end in the strand's next.
#[inline(always)]
fn row_from_two<const L: usize>(
    bytes: &[u8],
    place: usize,
    offset: u32,
    mask: u64,
    into: &mut [u64],
)
    requires few { L ≤ 16 }
    requires even { 16 / L * L ≡ 16 }
    requires inside { 8 * (place + 32) ≤ length bytes.now }
    requires some { 0 < offset }
    requires offset { offset < 64 }
    requires sixteen { length into.old ≡ 16 }
    ensures values { (strand : ℕ) → strand < 16 → slice_index into.new strand ≡ bit_and (bit_or (word_of bytes.now (place + strand) / 2 ^ offset) (word_of bytes.now (place + 16 + strand) * 2 ^ (64 - offset) % 2 ^ 64)) mask }
    ensures kept { length into.new ≡ 16 }
{
    for group in 0..STRANDS / L {
        let first = group * L;
        lanes_from_two::<L>(
            bytes,
            place + first,
            offset,
            mask,
            &mut into[first..first + L],
        );
    }
}

#[inline(always)]
fn lanes_from_two<const L: usize>(
    bytes: &[u8],
    place: usize,
    offset: u32,
    mask: u64,
    into: &mut [u64],
)
    requires few { L ≤ 16 }
    requires inside { 8 * (place + 16 + L) ≤ length bytes.now }
    requires some { 0 < offset }
    requires offset { offset < 64 }
    requires lanes { length into.old ≡ L }
    ensures values { (lane : ℕ) → lane < L → slice_index into.new lane ≡ bit_and (bit_or (word_of bytes.now (place + lane) / 2 ^ offset) (word_of bytes.now (place + 16 + lane) * 2 ^ (64 - offset) % 2 ^ 64)) mask }
    ensures kept { length into.new ≡ L }
{
    let low = words_at::<L>(bytes, place).shift_down(offset);
    let high = words_at::<L>(bytes, place + STRANDS).shift_up(64 - offset);
    low.or(high).and(Lanes::splat(mask)).store(into);
}
