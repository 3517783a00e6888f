//! Distinct keys in chains.

ghost use Rattle.std.specs.Prelude.{◌≡◌, ℕ, ◌+◌, ◌<◌, ◌≤◌, ◌++◌, ◌∷◌, [], length, IfOk};
ghost use Rattle.definitions_operators.specs.Operators.{has};
ghost use Rattle.join_ops.specs.KeySets.{HaveSameKeys, AreDistinct};

use block_core::Steps;
use chain_table::Chain;
use scan_ops::PlaceTest;
use std::alloc::{AllocError, Global};
use std::marker::Model;

/// Keys in a chain, each once.
#[derive(Drop)]
pub struct ChainedKeys {
    chain: Chain,
}

impl Model for ChainedKeys {
    ghost use Rattle.chain_table.specs.Entries.{Entries};
    ghost use Rattle.join_ops.specs.KeySets.{AreDistinct};

    ghost Value = { Entries };

    ghost view = { λ set. set.chain };

    ghost invariant = { λ set. AreDistinct set.chain.keys };
}

impl ChainedKeys {
    /// No keys, and room for so many.
    pub fn none(alloc: Global, count: u32) -> Result<ChainedKeys, AllocError>
        requires { count ≤ 268435456 }
        ensures keys { IfOk result (λ set. set.keys ≡ []) }
        ensures room { IfOk result (λ set. set.room ≡ count) }
    {
        let mut chain = Chain::new(alloc);
        chain.reserve(count)?;
        Ok(ChainedKeys { chain })
    }

    /// Adds keys that are not there yet.
    pub fn add_all(&mut self, keys: &[u64])
        requires { length self.old.keys + length keys.now ≤ self.old.room }
        ensures keys { HaveSameKeys self.new.keys (self.old.keys ++ keys.now) }
        ensures few { length self.new.keys ≤ length self.old.keys + length keys.now }
        ensures room { self.new.room ≡ self.old.room }
    {
        for key in keys {
            self.add(*key);
        }
    }

    /// Takes other buckets if many keys fell into one. It looks only after 1, 2, 4 and so on blocks, so all looks together cost no more than a few over
    /// all keys.
    pub fn balance_after(&mut self, blocks: u64)
        ensures { self.new ≡ self.old }
    {
        if blocks.is_power_of_two() {
            self.chain.balance();
        }
    }

    /// Adds a key, unless it is there.
    fn add(&mut self, key: u64)
        requires { length self.old.keys < self.old.room }
        ensures keys { HaveSameKeys self.new.keys (self.old.keys ++ key ∷ []) }
        ensures few { length self.new.keys ≤ length self.old.keys + 1 }
        ensures room { self.new.room ≡ self.old.room }
    {
        if self.contains(key) {
            return;
        }
        self.chain.insert(key, 0);
    }

    /// Tells a proof that no key is there twice, and does nothing.
    #[inline(always)]
    pub fn tell(&self)
        ensures { AreDistinct self.now.keys }
    {
        let _ = &self.chain;
    }

    /// Whether the value is a key.
    #[inline(always)]
    pub fn contains(&self, value: u64) -> bool
        ensures { result ≡ has self.now.keys value }
    {
        self.chain.first(value).is_some()
    }
}

impl PlaceTest for ChainedKeys {
    ghost use Rattle.definitions_operators.specs.Operators.{has};

    ghost passes = { λ set. has set.keys };

    ghost cost = { λ _. 1 };

    fn mark<G>(
        &self,
        values: &[u64],
        first: u64,
        places: &mut [u64],
        steps: &mut Steps<G>,
    ) -> usize {
        steps.tick_by(values.len() as u64);
        let mut kept = 0;
        let mut place = first;
        for value in values {
            places[kept] = place;
            place += 1;
            kept += usize::from(self.contains(*value));
        }
        kept
    }
}
