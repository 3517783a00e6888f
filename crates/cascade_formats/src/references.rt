//! Differences to the least value of the block, a frame of reference.

ghost use Rattle.std.specs.Prelude.{◌≡◌, ℕ, ◌+◌, ◌^◌, ◌<◌, ◌≤◌, ◌↔◌, IsTrue, length, slice_index};
ghost use Rattle.definitions_blocks.specs.Blocks.{block_values};
ghost use Rattle.definitions_blocks.specs.Differences.{least_of, reference_of, raised, AreReferenceDifferences};
ghost use Rattle.definitions_blocks.proofs.ReferenceLaws.{reference_laws};

use block_core::{BLOCK_LEN, Block, Transform, words_fit};

/// Each value's difference to the block's least value, which is the base.
pub struct Reference<const L: usize>;

impl<const L: usize> Transform for Reference<L> {
    type Base = u64;

    ghost base_of = { least_of };

    ghost differences_of = { reference_of };

    fn split(full: &Block, into: &mut Block) -> u64
        requires { length full.now ≡ block_values }
        ensures base { result ≡ least_of full.now }
        ensures differences { into.new ≡ reference_of full.now }
        ensures each { AreReferenceDifferences result full.now into.new }
    {
        into.fill();
        let values = full.as_slice();
        let (least, _) = extremes(values);
        lower(values, least, into.as_mut_slice());
        least
    }

    fn join(base: u64, block: &mut Block) {
        raise(base, block.as_mut_slice());
    }

    fn allowed(base: u64, differences: &Block) -> bool {
        let values = differences.as_slice();
        words_fit(values);
        values.len() == BLOCK_LEN && can_be_raised(base, values)
    }

    ghost laws = { reference_laws };
}

// Whether the least is 0, and the base can be added to each.
fn can_be_raised(base: u64, differences: &[u64]) -> bool
    requires { length differences.now ≡ block_values }
    ensures { IsTrue result ↔ (least_of differences.now ≡ 0) × ((place : ℕ) → place < length differences.now → base + slice_index differences.now place < 2 ^ 64) }
{
    let (zeros, bits) = zeros_and_bits(differences);
    if zeros == 0 {
        return false;
    }

    // Mostly the base can be added to all their bits, and the greatest is not looked for.
    if bits <= u64::MAX - base {
        return true;
    }
    let (_, greatest) = extremes(differences);
    greatest <= u64::MAX - base
}

// How many values are 0, and a number that has all their bits.
fn zeros_and_bits(values: &[u64]) -> (u64, u64)
    requires { length values.now ≡ block_values }
    ensures none { (result.0 ≡ 0) ↔ ((place : ℕ) → place < length values.now → 0 < slice_index values.now place) }
    ensures bits { (place : ℕ) → place < length values.now → slice_index values.now place ≤ result.1 }
{
    let mut zeros = 0;
    let mut bits = 0;
    for value in values {
        if *value == 0 {
            zeros += 1;
        }
        bits |= *value;
    }
    (zeros, bits)
}

// The least and the greatest value, in one pass.
fn extremes(values: &[u64]) -> (u64, u64)
    requires { 0 < length values.now }
    ensures least { result.0 ≡ least_of values.now }
    ensures greatest { (place : ℕ) → place < length values.now → slice_index values.now place ≤ result.1 }
    ensures bound { (limit : ℕ) → ((place : ℕ) → place < length values.now → slice_index values.now place ≤ limit) → result.1 ≤ limit }
{
    let mut least = values[0];
    let mut greatest = values[0];
    for value in values {
        least = least.min(*value);
        greatest = greatest.max(*value);
    }
    (least, greatest)
}

// Leaves in `into` the differences to a value that none is below.
fn lower(values: &[u64], least: u64, into: &mut [u64])
    requires least { least ≡ least_of values.now }
    requires room { length into.old ≡ length values.now }
    ensures { into.new ≡ reference_of values.now }
{
    for place in 0..values.len() {
        into[place] = values[place] - least;
    }
}

// Adds the base to each difference.
fn raise(base: u64, block: &mut [u64])
    ensures { block.new ≡ raised base block.old }
{
    for difference in block.iter_mut() {
        *difference = difference.wrapping_add(base);
    }
}
