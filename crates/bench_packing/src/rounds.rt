//! Rounds over eight blocks.

ghost use Rattle.std.specs.Prelude.{◌≡◌, ◌*◌, ◌^◌, ◌<◌, ◌≤◌, length};
ghost use Rattle.definitions_blocks.specs.Blocks.{block_values};
ghost use Rattle.definitions_blocks.specs.Packed.{AreBelow};

use block_core::Block;
use shapes::next_state;
use strand_pack::{pack, packed_len, unpack};

/// How many blocks a round goes over.
const BLOCKS: usize = 8;

/// How many bytes a block packed at 64 bits takes.
const MOST_BYTES: usize = 8192;

/// The low bits of a value.
fn low_bits(value: u64, width: u8) -> u64
    requires { width ≤ 64 }
    ensures { result < 2 ^ width }
{
    if width == 64 {
        value
    } else {
        value % (1u64 << width)
    }
}

/// Values below 2^width that differ from place to place.
fn block_below(width: u8) -> Block
    requires { width ≤ 64 }
    ensures whole { length result ≡ block_values }
    ensures small { AreBelow width result }
{
    let mut block = Block::new();
    let mut value = 1u64;
    for _place in 0..1024u32 {
        value = next_state(value);
        block.push(low_bits(value >> 7 ^ value, width));
    }
    block
}

/// Packs a block eight times, one behind the other.
fn pack_all<const L: usize>(full: &Block, width: u8, into: &mut [u8; MOST_BYTES * BLOCKS])
    requires whole { length full.now ≡ block_values }
    requires narrow { width ≤ 64 }
    requires small { AreBelow width full.now }
{
    let len = packed_len(width);
    for number in 0..BLOCKS {
        pack::<L>(full, width, &mut into[number * len..number * len + len]);
    }
}

/// Unpacks eight blocks in each round, and adds up a value of each.
pub fn unpack_rounds<const L: usize>(width: u8, rounds: u64) -> u64
    requires { width ≤ 64 }
{
    let mut bytes = [0u8; MOST_BYTES * BLOCKS];
    let len = packed_len(width);
    pack_all::<L>(&block_below(width), width, &mut bytes);
    let mut block = Block::new();
    let mut sum = 0u64;
    for round in 0..rounds {
        for number in 0..BLOCKS {
            unpack::<L>(&bytes[number * len..number * len + len], width, &mut block);
            let values = block.as_slice();
            sum = sum.wrapping_add(values[(round & 1023) as usize]);
        }
    }
    sum
}

/// Packs a block eight times in each round, and adds up a byte of each.
pub fn pack_rounds<const L: usize>(width: u8, rounds: u64) -> u64
    requires { width ≤ 64 }
{
    let mut bytes = [0u8; MOST_BYTES * BLOCKS];
    let full = block_below(width);
    let mut sum = 0u64;
    for round in 0..rounds {
        pack_all::<L>(&full, width, &mut bytes);
        sum = sum.wrapping_add(u64::from(bytes[(round & 1023) as usize]));
    }
    sum
}
