//! How close together keys lie.

ghost use Rattle.std.specs.Prelude.{◌≡◌, ◌+◌, ◌≤◌, ◌<◌, ◌*◌, ◌^◌, All, length, IsTrue};
ghost use Rattle.definitions_operators.specs.Costs.{block_count};

use block_core::{BLOCK_LEN, Block, BlockSource, Steps};

/// A table by value is used if there are at most so many values a key from the least key to the greatest. Then it takes at most four times the memory
/// of a chain, which takes 36 bytes a key or more.
const SPREAD: u64 = 32;

/// The least and the greatest key. If there is no key, the least is above the greatest.
#[derive(Clone, Copy)]
pub struct Range {
    pub low: u64,
    pub high: u64,
}

impl Range {
    /// Whether a table by value is worth its memory for so many keys.
    pub fn is_dense(self, count: u64) -> bool
        ensures order { IsTrue result → self.low ≤ self.high }
        ensures small { IsTrue result → self.high < self.low + 32 * count }
        ensures fits { IsTrue result → self.high + 1 < 2 ^ 64 }
    {
        self.low <= self.high && self.high < u64::MAX && (self.high - self.low) / SPREAD < count
    }
}

/// The range of the keys. It decodes each block once.
pub fn range_of<S: BlockSource, G>(keys: &mut S, steps: &mut Steps<G>) -> Range
    ensures within { All (λ key. (result.low ≤ key) × (key ≤ result.high)) (S.list keys.old) }
    ensures kept { S.list keys.new ≡ S.list keys.old }
    ensures later { steps.old ≤ steps.new }
    ensures steps { steps.new ≤ steps.old + block_count (S.list keys.old) }
{
    let mut block = Block::new();
    let mut range = Range {
        low: u64::MAX,
        high: 0,
    };
    for number in 0..keys.count().div_ceil(BLOCK_LEN as u64) {
        keys.block(number, &mut block, steps);
        range = widened(range, block.as_slice());
    }
    range
}

/// The range of keys that lie in a slice.
pub fn range_in(keys: &[u64]) -> Range
    ensures within { All (λ key. (result.low ≤ key) × (key ≤ result.high)) keys.now }
{
    widened(
        Range {
            low: u64::MAX,
            high: 0,
        },
        keys,
    )
}

/// The least range with a range and some keys.
fn widened(range: Range, keys: &[u64]) -> Range
    ensures low { result.low ≤ range.low }
    ensures high { range.high ≤ result.high }
    ensures within { All (λ key. (result.low ≤ key) × (key ≤ result.high)) keys.now }
{
    let mut wide = range;
    for key in keys {
        wide.low = wide.low.min(*key);
        wide.high = wide.high.max(*key);
    }
    wide
}
