//! Maps from keys to their places.

ghost use Rattle.std.specs.Prelude.{◌≡◌, ℕ, ◌+◌, ◌^◌, ◌<◌, ◌≤◌, ◌++◌, [], true, All, length, reverse, take, slice_index, MatchOption, IfOk};
ghost use Rattle.definitions_blocks.specs.Columns.{max_rows};
ghost use Rattle.block_core.specs.Counts.{next_count};
ghost use Rattle.definitions_operators.specs.Costs.{block_count};
ghost use Rattle.join_ops.specs.KeyMaps.{IsNextFrom, IsNextLink};
ghost use Rattle.join_ops.specs.KeySets.{AreDistinct};
ghost use Rattle.join_ops.specs.KeysOf.{keys_by_place};

use crate::chain_tables::ChainTable;
use crate::direct_tables::DirectTable;
use crate::ranges::range_in;
use block_core::{BLOCK_LEN, Block, BlockSource, Steps};
use std::alloc::{AllocError, Global};
use std::marker::Model;

/// How the keys of a map are kept.
#[derive(Drop)]
pub(crate) enum Table {
    Direct(DirectTable),
    Chained(ChainTable),
}

impl Table {
    /// A link to the first place of a key.
    #[inline(always)]
    fn first_link(&self, key: u64) -> u32
        ensures { IsNextLink (keys_by_place self.now) key 0 result }
    {
        match self {
            Table::Direct(table) => table.first_link(key),
            Table::Chained(table) => table.first_link(key),
        }
    }

    /// A link to the next place with the key of a place.
    #[inline(always)]
    fn next_link(&self, place: u32) -> u32
        requires { place < length (keys_by_place self.now) }
        ensures { IsNextLink (keys_by_place self.now) (slice_index (keys_by_place self.now) place) (place + 1) result }
    {
        match self {
            Table::Direct(table) => table.next_link(place),
            Table::Chained(table) => table.next_link(place),
        }
    }
}

/// A list of keys, which may repeat, and for each key its places. They are a table by value if there are at most 32 values a key from the least to the
/// greatest, and a chain otherwise, in which the last place was entered first, so that walks rise. The entries of a map are numbered by their places.
#[derive(Drop)]
pub struct KeyMap {
    pub(crate) table: Table,
    /// If this is set, no key stands twice.
    distinct: bool,
}

impl Model for KeyMap {
    ghost use Rattle.std.specs.Prelude.{◌≡◌, true, List, ℕ};
    ghost use Rattle.join_ops.specs.KeysOf.{keys_by_place};
    ghost use Rattle.join_ops.specs.KeySets.{AreDistinct};

    ghost Value = { List ℕ };

    ghost view = { λ map. keys_by_place map.table };

    ghost invariant = { λ map. map.distinct ≡ true → AreDistinct (keys_by_place map.table) };
}

impl KeyMap {
    /// The map of a list of keys. It decodes each block once, into a list of its own.
    pub fn build<S: BlockSource, G>(
        alloc: Global,
        keys: &mut S,
        steps: &mut Steps<G>,
    ) -> Result<KeyMap, AllocError>
        ensures keys { IfOk result (λ map. map ≡ S.list keys.old) }
        ensures kept { S.list keys.new ≡ S.list keys.old }
        ensures later { steps.old ≤ steps.new }
        ensures steps { steps.new ≤ steps.old + block_count (S.list keys.old) }
    {
        let list = list_of(alloc, keys, steps)?;
        map_of(alloc, list)
    }

    /// The first place of a key. It takes one step.
    #[inline]
    pub fn first_of<G>(&self, key: u64, steps: &mut Steps<G>) -> Option<u32>
        ensures first { IsNextFrom self.now key 0 result }
        ensures steps { steps.new ≡ next_count steps.old }
        ensures later { steps.old ≤ steps.new }
    {
        steps.tick();
        place_of_link(self.first_link(key))
    }

    /// The next entry with the key of an entry. Places rise along the walk.
    #[inline]
    pub fn next_of(&self, entry: u32) -> Option<u32>
        requires { entry < length self.now }
        ensures { IsNextFrom self.now (slice_index self.now entry) (entry + 1) result }
    {
        place_of_link(self.next_link(entry))
    }

    /// The place of an entry.
    #[inline]
    pub fn place(&self, entry: u32) -> u64
        requires { entry < length self.now }
        ensures { result ≡ entry }
    {
        u64::from(entry)
    }

    /// The least place of a key. It takes one step.
    #[inline]
    pub fn place_of<G>(&self, key: u64, steps: &mut Steps<G>) -> Option<u64>
        ensures first { IsNextFrom self.now key 0 result }
        ensures steps { steps.new ≡ next_count steps.old }
        ensures later { steps.old ≤ steps.new }
    {
        match self.first_of(key, steps) {
            Some(place) => Some(u64::from(place)),
            None => None,
        }
    }

    /// A link to the first place of a key.
    #[inline(always)]
    pub(crate) fn first_link(&self, key: u64) -> u32
        ensures { IsNextLink self.now key 0 result }
    {
        self.table.first_link(key)
    }

    /// A link to the next place with the key of a place.
    #[inline(always)]
    pub(crate) fn next_link(&self, place: u32) -> u32
        requires { place < length self.now }
        ensures { IsNextLink self.now (slice_index self.now place) (place + 1) result }
    {
        self.table.next_link(place)
    }

    /// Whether it is known that no key stands twice.
    #[inline(always)]
    pub(crate) fn is_distinct(&self) -> bool
        ensures { result ≡ true → AreDistinct self.now }
    {
        self.distinct
    }
}

/// The place that a link names.
#[inline(always)]
fn place_of_link(link: u32) -> Option<u32>
    ensures { MatchOption result (link ≡ 0) (λ place. place + 1 ≡ link) }
{
    if link == 0 { None } else { Some(link - 1) }
}

/// All keys, in order.
fn list_of<S: BlockSource, G>(
    alloc: Global,
    keys: &mut S,
    steps: &mut Steps<G>,
) -> Result<Vec<u64>, AllocError>
    ensures keys { IfOk result (λ list. list.items ≡ S.list keys.old) }
    ensures few { IfOk result (λ list. length list.items ≤ max_rows) }
    ensures kept { S.list keys.new ≡ S.list keys.old }
    ensures later { steps.old ≤ steps.new }
    ensures steps { steps.new ≤ steps.old + block_count (S.list keys.old) }
{
    let count = keys.count();
    let mut block = Block::new();
    let mut list = Vec::with_capacity(alloc, count as usize)?;
    for number in 0..count.div_ceil(BLOCK_LEN as u64) {
        keys.block(number, &mut block, steps);
        list.extend_from_slice(block.as_slice())?;
    }
    Ok(list)
}

fn map_of(alloc: Global, keys: Vec<u64>) -> Result<KeyMap, AllocError>
    requires few { length keys.items ≤ max_rows }
    ensures { IfOk result (λ map. map ≡ keys.items) }
{
    let count = keys.len() as u32;
    let table = table_of(alloc, keys)?;
    let distinct = are_distinct(&table, count);
    Ok(KeyMap { table, distinct })
}

fn table_of(alloc: Global, keys: Vec<u64>) -> Result<Table, AllocError>
    requires few { length keys.items ≤ max_rows }
    ensures { IfOk result (λ table. keys_by_place table ≡ keys.items) }
{
    let range = range_in(keys.as_slice());
    if range.is_dense(keys.len() as u64) {
        let table = DirectTable::of(alloc, keys, range)?;
        return Ok(Table::Direct(table));
    }
    let table = ChainTable::of(alloc, keys.as_slice())?;
    Ok(Table::Chained(table))
}

/// Whether no key of a table of so many places stands twice.
fn are_distinct(table: &Table, count: u32) -> bool
    requires { count ≡ length (keys_by_place table.now) }
    ensures { result ≡ true → AreDistinct (keys_by_place table.now) }
{
    for place in 0..count {
        if table.next_link(place) > 0 {
            return false;
        }
    }
    true
}
