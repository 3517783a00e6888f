//! A block of at most 1,024 values.

ghost use Rattle.std.specs.Prelude.{◌≡◌, ◌+◌, ◌-◌, ◌<◌, ◌≤◌, ◌++◌, ◌∷◌, [], List, ℕ, length, replicate};
ghost use Rattle.std.specs.List.{refill};
ghost use Rattle.std.specs.Borrow.{Lends, sem, u64 as word, Array};
ghost use Rattle.block_core.specs.contracts.blocks.Block.{the_row};
ghost use Rattle.definitions_blocks.specs.Blocks.{block_values};

use arrayvec::ArrayVec;
use std::marker::Model;

/// How many values a block has.
pub const BLOCK_LEN: usize = 1024;

/// How many strands a packed block has. Neighbouring values stand in different ones.
pub const STRANDS: usize = 16;

/// How many rows a packed block has: 16 values, one in each strand.
pub const ROWS: usize = 64;

/// How many values a column has at most.
pub const MAX_ROWS: u64 = 268_435_456;

const _: () = prove!(MAX_ROWS == 1 << 28);

/// At most 1,024 values, kept in place: 8 KiB and a length. A full block has 1,024. Lend it by reference; moving one copies
/// all of it.
#[derive(Drop)]
pub struct Block {
    values: ArrayVec<u64, 1024>,
}

impl Model for Block {
    ghost use Rattle.std.specs.Prelude.{List, ℕ};

    ghost Value = { List ℕ };

    ghost view = { λ block. block.values.items };
}

impl Block {
    /// An empty block.
    pub fn new() -> Block
        ensures { result ≡ [] }
    {
        Block {
            values: ArrayVec::new(),
        }
    }

    /// A block of these values, which must fit.
    pub fn of(values: &[u64]) -> Block
        requires { length values.now ≤ block_values }
        ensures { result ≡ values.now }
    {
        let mut block = Block::new();
        block.append(values);
        block
    }

    pub fn clear(&mut self)
        ensures { self.new ≡ [] }
    {
        self.values.clear();
    }

    /// Appends a value. The block must not be full.
    pub fn push(&mut self, value: u64)
        requires { length self.old < block_values }
        ensures { self.new ≡ self.old ++ value ∷ [] }
    {
        self.values.push(value);
    }

    /// Appends values, which must fit.
    pub fn append(&mut self, values: &[u64])
        requires { length self.old + length values.now ≤ block_values }
        ensures { self.new ≡ self.old ++ values.now }
    {
        let _fits = self.values.try_extend_from_slice(values);
    }

    /// Makes the block full, so that all of it can be written in place. What it holds stays, and zeros follow.
    pub fn fill(&mut self)
        ensures length { length self.new ≡ block_values }
        ensures values { self.new ≡ self.old ++ replicate (block_values - length self.old) 0 }
    {
        for _ in self.values.len()..BLOCK_LEN {
            self.values.push(0);
        }
    }

    /// The values, to be written in place: with `fill` the fast way to make a block. What is written is the block once the
    /// borrow ends, and its length stays.
    pub fn as_mut_slice(&mut self) -> &mut [u64]
        ensures* writes_back { sem 𝓛 (Lends the_row (Array word 0) self.entry result (refill (length self.old) self.old)) }
        ensures value { result.now ≡ self.old }
    {
        self.values.as_mut_slice()
    }

    pub fn as_slice(&self) -> &[u64]
        ensures values { result.now ≡ self.now }
        ensures short { length result.now ≤ block_values }
    {
        self.values.as_slice()
    }
}
