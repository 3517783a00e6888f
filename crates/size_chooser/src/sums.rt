//! How wide blocks are, and how long in each format.

ghost use Rattle.std.specs.Prelude.{◌≡◌, ℕ, ◌+◌, ◌-◌, ◌*◌, ◌^◌, ◌<◌, ◌≤◌, ◌++◌, [], List, length};
ghost use Rattle.std.specs.Int.{leading_zeros, w64};
ghost use Rattle.definitions_blocks.specs.Blocks.{block_values};
ghost use Rattle.size_chooser.specs.Sums.{AreSumsOf, AreBounded};

use crate::surveys::survey_of;
use crate::tallies::Meter;
use block_core::words_fit;

/// The least width of all blocks so far, and how many bytes they take in each format whose blocks differ in length.
#[derive(Clone, Copy)]
pub struct BlockSums {
    pub width: u8,
    pub dynamic: u64,
    pub runs: u64,
    pub delta1_dynamic: u64,
    pub delta16_dynamic: u64,
    pub reference_dynamic: u64,
    pub delta1_runs: u64,
}

impl BlockSums {
    /// The sums of no blocks.
    pub fn none() -> BlockSums
        ensures { AreSumsOf result [] }
    {
        BlockSums {
            width: 0,
            dynamic: 0,
            runs: 0,
            delta1_dynamic: 0,
            delta16_dynamic: 0,
            reference_dynamic: 0,
            delta1_runs: 0,
        }
    }

    /// The sums of one block. Each of its values is read once.
    pub fn of(block: &[u64]) -> BlockSums
        requires { length block.now ≡ block_values }
        ensures { AreSumsOf result block.now }
    {
        words_fit(block);
        let found = survey_of(block);
        BlockSums {
            width: width_of_bits(found.all),
            dynamic: 1 + packed_size(found.all),
            runs: 2 + 10 * found.runs,
            delta1_dynamic: 9 + packed_size(found.steps),
            delta16_dynamic: 9 + packed_size(found.gaps),
            reference_dynamic: 9 + packed_size(found.high - found.low),
            delta1_runs: 10 + 10 * found.step_runs,
        }
    }

    /// The sums of these blocks and one more.
    pub fn plus(self, block: BlockSums) -> BlockSums
        requires small { AreBounded self (2 ^ 62) }
        requires one { AreBounded block (2 ^ 62) }
        ensures { (blocks last : List ℕ) → AreSumsOf self blocks → AreSumsOf block last →
            length last ≡ block_values → AreSumsOf result (blocks ++ last) }
    {
        BlockSums {
            width: self.width.max(block.width),
            dynamic: self.dynamic + block.dynamic,
            runs: self.runs + block.runs,
            delta1_dynamic: self.delta1_dynamic + block.delta1_dynamic,
            delta16_dynamic: self.delta16_dynamic + block.delta16_dynamic,
            reference_dynamic: self.reference_dynamic + block.reference_dynamic,
            delta1_runs: self.delta1_runs + block.delta1_runs,
        }
    }
}

impl Meter for BlockSums {
    ghost use Rattle.size_chooser.specs.Sums.{AreSumsOf};

    ghost Frame = { Unit {0} };

    ghost frame = { λ _. tt };

    ghost measured = { AreSumsOf };

    fn add(&mut self, block: &[u64]) {
        *self = self.plus(BlockSums::of(block));
    }
}

/// The least width of values with these bits.
#[inline(always)]
pub fn width_of_bits(all: u64) -> u8
    ensures { result ≡ 64 - leading_zeros w64 all }
{
    (64 - all.leading_zeros()) as u8
}

/// How many bytes a block of values with these bits has, packed at their width.
#[inline(always)]
pub fn packed_size(all: u64) -> u64
    ensures { result ≡ 128 * (64 - leading_zeros w64 all) }
{
    128 * u64::from(64 - all.leading_zeros())
}
