//! Keys by their places, in a chain.

ghost use Rattle.std.specs.Prelude.{◌≡◌, ℕ, ◌+◌, ◌<◌, ◌≤◌, length, slice_index, IfOk};
ghost use Rattle.definitions_blocks.specs.Columns.{max_rows};
ghost use Rattle.join_ops.specs.KeyMaps.{IsNextLink};

use chain_table::Chain;
use std::alloc::{AllocError, Global};
use std::marker::Model;

/// A chain with an entry for each place. The last place was entered first, so that walks, which go from new to old, rise.
#[derive(Drop)]
pub struct ChainTable {
    chain: Chain,
    count: u32,
}

impl Model for ChainTable {
    ghost use Rattle.std.specs.Prelude.{◌≡◌, List, ℕ, length, reverse};

    ghost Value = { List ℕ };

    ghost view = { λ table. reverse table.chain.keys };

    ghost invariant = { λ table. table.count ≡ length table.chain.keys };
}

impl ChainTable {
    /// The keys by their places.
    pub fn of(alloc: Global, keys: &[u64]) -> Result<ChainTable, AllocError>
        requires few { length keys.now ≤ max_rows }
        ensures { IfOk result (λ table. table ≡ keys.now) }
    {
        let count = keys.len();
        let mut chain = Chain::new(alloc);
        chain.reserve(count as u32)?;
        for index in 0..count {
            let place = count - 1 - index;
            chain.insert(keys[place], place as u64);
        }
        chain.balance();
        Ok(ChainTable {
            chain,
            count: count as u32,
        })
    }

    /// A link to the first place of a key.
    #[inline(always)]
    pub fn first_link(&self, key: u64) -> u32
        ensures { IsNextLink self.now key 0 result }
    {
        match self.chain.first(key) {
            Some(entry) => self.count - entry,
            None => 0,
        }
    }

    /// A link to the next place with the key of a place.
    #[inline(always)]
    pub fn next_link(&self, place: u32) -> u32
        requires { place < length self.now }
        ensures { IsNextLink self.now (slice_index self.now place) (place + 1) result }
    {
        match self.chain.next_of(self.count - 1 - place) {
            Some(entry) => self.count - entry,
            None => 0,
        }
    }
}
