//! Differences to a value some places earlier, and the sums that undo them.

ghost use Rattle.std.specs.Prelude.{◌≡◌, ℕ, ◌+◌, ◌*◌, ◌/◌, ◌%◌, ◌^◌, ◌<◌, ◌≤◌, ◌↔◌, IsTrue, length, slice_index};
ghost use Rattle.definitions_blocks.specs.Blocks.{block_values, IsFull};
ghost use Rattle.definitions_blocks.specs.Differences.{first_of, lagged_differences, AreLaggedSums};

use block_core::{BLOCK_LEN, STRANDS, words_fit};
use lane_core::Lanes;

/// Leaves in `into` each value's difference to the one `LAG` places before, and of the first ones to the first.
#[inline(always)]
pub fn subtract_earlier<const LAG: usize>(values: &[u64], into: &mut [u64]) -> u64
    requires some { 0 < LAG }
    requires few { LAG ≤ 16 }
    requires whole { length values.now ≡ block_values }
    requires room { length into.old ≡ block_values }
    ensures base { result ≡ first_of values.now }
    ensures differences { into.new ≡ lagged_differences LAG values.now }
{
    words_fit(values);
    let base = values[0];
    for place in 0..LAG {
        into[place] = values[place].wrapping_sub(base);
    }
    for place in LAG..BLOCK_LEN {
        into[place] = values[place].wrapping_sub(values[place - LAG]);
    }
    base
}

/// Turns differences to the value before into the values.
pub fn sum_up(base: u64, block: &mut [u64])
    ensures { AreLaggedSums 1 base block.old block.new }
{
    let mut sum = base;
    for value in block.iter_mut() {
        sum = value.wrapping_add(sum);
        *value = sum;
    }
}

/// Turns differences to the value 16 places earlier into the values. At a lane width `L` other than 1, 2, 4, 8 and 16 it works
/// as at 1.
pub fn sum_strands<const L: usize>(base: u64, block: &mut [u64])
    requires { length block.old ≡ block_values }
    ensures { AreLaggedSums 16 base block.old block.new }
{
    match L {
        2 => sum_rows::<2>(base, block),
        4 => sum_rows::<4>(base, block),
        8 => sum_rows::<8>(base, block),
        16 => sum_rows::<16>(base, block),
        _ => sum_rows::<1>(base, block),
    }
}

// A group of lanes is at most a row, so what is added to it is done before.
fn sum_rows<const L: usize>(base: u64, block: &mut [u64])
    requires few { L ≤ 16 }
    requires even { 16 / L * L ≡ 16 }
    requires whole { length block.old ≡ block_values }
    ensures { AreLaggedSums 16 base block.old block.new }
{
    for place in 0..STRANDS {
        block[place] = block[place].wrapping_add(base);
    }
    for group in 0..63 * (STRANDS / L) {
        add_earlier::<L>(block, group * L);
    }
}

// Adds to the lanes that stand 16 places after the first one the lanes from the first one on.
#[inline(always)]
fn add_earlier<const L: usize>(block: &mut [u64], first: usize)
    requires few { L ≤ 16 }
    requires inside { first + 16 + L ≤ length block.old }
    requires short { length block.old ≤ block_values }
    ensures added { (lane : ℕ) → lane < L → slice_index block.new (first + 16 + lane) ≡ (slice_index block.old (first + 16 + lane) + slice_index block.old (first + lane)) % 2 ^ 64 }
    ensures below { (place : ℕ) → place < first + 16 → slice_index block.new place ≡ slice_index block.old place }
    ensures above { (place : ℕ) → first + 16 + L ≤ place → slice_index block.new place ≡ slice_index block.old place }
    ensures kept { length block.new ≡ length block.old }
{
    let earlier = Lanes::<L>::load(&block[first..first + L]);
    let here = Lanes::<L>::load(&block[first + STRANDS..first + STRANDS + L]);
    here.add(earlier)
        .store(&mut block[first + STRANDS..first + STRANDS + L]);
}

/// Whether these are a block's worth and the first is 0.
pub fn begin_at_zero(differences: &[u64]) -> bool
    ensures { IsTrue result ↔ (length differences.now ≡ block_values) × (slice_index differences.now 0 ≡ 0) }
{
    differences.len() == BLOCK_LEN && differences[0] == 0
}
