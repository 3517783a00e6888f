//! Blocks of several shapes. `bench/formats.cpp` makes the same ones.

ghost use Rattle.definitions_blocks.specs.Blocks.{IsFull};

use block_core::Block;
use shapes::{Random, Shape};

/// The block of a number that a seed gives: 0 and 1 any values, 2 and 3 runs, 4 and 5 steps, 6 and 7 near a base, 8 and 9 runs of
/// steps.
pub fn block_of(number: u64, seed: u64) -> Block
    ensures { IsFull result }
{
    let (bits, longest, rises) = match number {
        0 => (7, 1, false),
        1 => (33, 1, false),
        2 => (20, 40, false),
        3 => (20, 2, false),
        4 => (4, 1, true),
        5 => (20, 1, true),
        6 => (10, 1, false),
        7 => (33, 1, false),
        8 => (10, 40, true),
        _ => (10, 2, true),
    };
    let random = Random {
        seed,
        bits,
        longest,
        base: if number < 4 { 0 } else { 1 << 40 },
        rises,
    };
    Shape::Random(random).block()
}
