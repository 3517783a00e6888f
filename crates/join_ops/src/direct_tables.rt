//! Keys that lie close together, in a table by value.

ghost use Rattle.std.specs.Prelude.{◌≡◌, ℕ, ◌+◌, ◌-◌, ◌^◌, ◌<◌, ◌≤◌, [], All, length, replicate, slice_index, IfOk};
ghost use Rattle.definitions_blocks.specs.Columns.{max_rows};
ghost use Rattle.join_ops.specs.KeyMaps.{IsNextLink, IsDirect};

use crate::ranges::Range;
use std::alloc::{AllocError, Global};
use std::marker::Model;

/// For each value from `low` on the first place of a key, and for each place the next one with the same key, as links: one more than the place, and 0
/// for none. The last value has no key, and stands for each value behind.
#[derive(Drop)]
pub struct DirectTable {
    low: u64,
    heads: Vec<u32>,
    keys: Vec<u64>,
    next: Vec<u32>,
}

impl Model for DirectTable {
    ghost use Rattle.std.specs.Prelude.{List, ℕ};
    ghost use Rattle.join_ops.specs.KeyMaps.{IsDirect};

    ghost Value = { List ℕ };

    ghost view = { λ table. table.keys.items };

    ghost invariant = { λ table. IsDirect table.low table.heads.items table.keys.items table.next.items };
}

impl DirectTable {
    /// The keys of a range by their places.
    pub fn of(alloc: Global, keys: Vec<u64>, range: Range) -> Result<DirectTable, AllocError>
        requires few { length keys.items ≤ max_rows }
        requires within { All (λ key. (range.low ≤ key) × (key ≤ range.high)) keys.items }
        requires order { range.low ≤ range.high }
        requires small { range.high < range.low + 2 ^ 40 }
        requires fits { range.high + 1 < 2 ^ 64 }
        ensures { IfOk result (λ table. table ≡ keys.items) }
    {
        let mut heads = zeros(alloc, (range.high - range.low) as usize + 2)?;
        let mut next = zeros(alloc, keys.len())?;
        link_all(
            range.low,
            keys.as_slice(),
            heads.as_mut_slice(),
            next.as_mut_slice(),
        );
        Ok(DirectTable {
            low: range.low,
            heads,
            keys,
            next,
        })
    }

    /// A link to the first place of a key.
    #[inline(always)]
    pub fn first_link(&self, key: u64) -> u32
        ensures { IsNextLink self.now key 0 result }
    {
        let last = self.heads.len() - 1;
        self.heads[(key.wrapping_sub(self.low) as usize).min(last)]
    }

    /// A link to the next place with the key of a place.
    #[inline(always)]
    pub fn next_link(&self, place: u32) -> u32
        requires { place < length self.now }
        ensures { IsNextLink self.now (slice_index self.now place) (place + 1) result }
    {
        self.next[place as usize]
    }
}

/// Links all keys, from the last place to the first.
fn link_all(low: u64, keys: &[u64], heads: &mut [u32], next: &mut [u32])
    requires few { length keys.now < 2 ^ 32 }
    requires fits { low + length heads.old < 2 ^ 64 + 1 }
    requires some { 0 < length heads.old }
    requires none { (distance : ℕ) → slice_index heads.old distance ≡ 0 }
    requires linked { length next.old ≡ length keys.now }
    requires within { All (λ key. (low ≤ key) × (key + 1 < low + length heads.old)) keys.now }
    ensures size { length heads.new ≡ length heads.old }
    ensures direct { IsDirect low heads.new keys.now next.new }
{
    let count = keys.len();
    for index in 0..count {
        let place = count - 1 - index;
        let distance = (keys[place] - low) as usize;
        next[place] = heads[distance];
        heads[distance] = place as u32 + 1;
    }
}

/// So many links to nothing.
fn zeros(alloc: Global, count: usize) -> Result<Vec<u32>, AllocError>
    ensures { IfOk result (λ links. links.items ≡ replicate count 0) }
{
    vec![in alloc; 0; count]
}
