//! Sets of keys, and the semi-join.

ghost use Rattle.std.specs.Prelude.{◌≡◌, ℕ, ◌+◌, ◌*◌, ◌^◌, ◌<◌, ◌≤◌, [], true, All, List, take, length, IfOk, IsOk, OnOk, OnErr};
ghost use Rattle.block_core.specs.Counts.{next_count};
ghost use Rattle.definitions_operators.specs.Costs.{block_count};
ghost use Rattle.definitions_operators.specs.Operators.{has, semi_join};
ghost use Rattle.join_ops.specs.KeySets.{IsSetOf};

use crate::chained_keys::ChainedKeys;
use crate::dense_sets::DenseSet;
use crate::ranges::{Range, range_of};
use block_core::{BLOCK_LEN, Block, BlockSource, Emit, Steps};
use scan_ops::emit_places;
use std::alloc::{AllocError, Global};
use std::marker::Model;

/// How the keys of a set are kept.
#[derive(Drop)]
pub(crate) enum Keys {
    Dense(DenseSet),
    Chained(ChainedKeys),
}

/// Keys, each once. They are a table of one byte a value if there are at most 32 values a key from the least to the greatest, and a chain otherwise.
#[derive(Drop)]
pub struct KeySet {
    pub(crate) keys: Keys,
}

impl Model for KeySet {
    ghost use Rattle.std.specs.Prelude.{List, ℕ};
    ghost use Rattle.join_ops.specs.KeysIn.{keys_in};

    ghost Value = { List ℕ };

    ghost view = { λ set. keys_in set.keys };
}

impl KeySet {
    /// The distinct keys of a list. It decodes each block twice.
    pub fn build<S: BlockSource, G>(
        alloc: Global,
        keys: &mut S,
        steps: &mut Steps<G>,
    ) -> Result<KeySet, AllocError>
        ensures keys { IfOk result (λ set. IsSetOf set (S.list keys.old)) }
        ensures joins { IfOk result (λ set. (values : List ℕ) → semi_join values set ≡ semi_join values (S.list keys.old)) }
        ensures kept { S.list keys.new ≡ S.list keys.old }
        ensures later { steps.old ≤ steps.new }
        ensures steps { steps.new ≤ steps.old + 2 * block_count (S.list keys.old) }
    {
        let range = range_of(keys, steps);
        if range.is_dense(keys.count()) {
            let set = dense_of(alloc, keys, range, steps)?;
            return Ok(KeySet {
                keys: Keys::Dense(set),
            });
        }
        let set = chain_of(alloc, keys, steps)?;
        Ok(KeySet {
            keys: Keys::Chained(set),
        })
    }

    /// Whether a value is a key. It takes one step.
    #[inline]
    pub fn contains<G>(&self, key: u64, steps: &mut Steps<G>) -> bool
        ensures has { result ≡ has self.now key }
        ensures steps { steps.new ≡ next_count steps.old }
        ensures later { steps.old ≤ steps.new }
    {
        steps.tick();
        match &self.keys {
            Keys::Dense(set) => set.contains(key),
            Keys::Chained(set) => set.contains(key),
        }
    }
}

/// The keys of a range, as a table of bytes.
fn dense_of<S: BlockSource, G>(
    alloc: Global,
    keys: &mut S,
    range: Range,
    steps: &mut Steps<G>,
) -> Result<DenseSet, AllocError>
    requires within { All (λ key. (range.low ≤ key) × (key ≤ range.high)) (S.list keys.old) }
    requires order { range.low ≤ range.high }
    requires small { range.high < range.low + 2 ^ 40 }
    requires fits { range.high + 1 < 2 ^ 64 }
    ensures keys { IfOk result (λ set. IsSetOf set.keys (S.list keys.old)) }
    ensures kept { S.list keys.new ≡ S.list keys.old }
    ensures later { steps.old ≤ steps.new }
    ensures steps { steps.new ≤ steps.old + block_count (S.list keys.old) }
{
    let mut set = DenseSet::none(alloc, range.low, (range.high - range.low) as usize + 2)?;
    let mut block = Block::new();
    for number in 0..keys.count().div_ceil(BLOCK_LEN as u64) {
        keys.block(number, &mut block, steps);
        set.add_all(block.as_slice());
    }
    set.tell();
    Ok(set)
}

/// The keys in a chain. It is balanced each time that its list is twice as long, so that keys which were chosen to fall into one bucket are noticed soon, and once at the end.
fn chain_of<S: BlockSource, G>(
    alloc: Global,
    keys: &mut S,
    steps: &mut Steps<G>,
) -> Result<ChainedKeys, AllocError>
    ensures keys { IfOk result (λ set. IsSetOf set.keys (S.list keys.old)) }
    ensures kept { S.list keys.new ≡ S.list keys.old }
    ensures later { steps.old ≤ steps.new }
    ensures steps { steps.new ≤ steps.old + block_count (S.list keys.old) }
{
    let count = keys.count();
    let mut set = ChainedKeys::none(alloc, count as u32)?;
    let mut block = Block::new();
    for number in 0..count.div_ceil(BLOCK_LEN as u64) {
        keys.block(number, &mut block, steps);
        set.add_all(block.as_slice());
        set.balance_after(number + 1);
    }
    set.balance_after(1);
    set.tell();
    Ok(set)
}

/// Emits the places of the values that are keys, which rise. It decodes one block at a time, and takes a step for it and one for each value.
pub fn semi_join_fly<S: BlockSource, O: Emit, G>(
    probe: &mut S,
    keys: &KeySet,
    out: &mut O,
    steps: &mut Steps<G>,
) -> Result<(), AllocError>
    requires empty { O.pushed out.old [] }
    requires in_scope { O.scope (O.frame out.old) (semi_join (S.list probe.old) keys.now) ≡ true }
    ensures ok { OnOk result (O.pushed out.new (semi_join (S.list probe.old) keys.now)) }
    ensures err { OnErr result ((n : ℕ) × O.pushed out.new (take n (semi_join (S.list probe.old) keys.now))) }
    ensures sure { O.room (O.frame out.old) (semi_join (S.list probe.old) keys.now) ≡ true → IsOk result }
    ensures frame { O.frame out.new ≡ O.frame out.old }
    ensures kept { S.list probe.new ≡ S.list probe.old }
    ensures later { steps.old ≤ steps.new }
    ensures steps { steps.new ≤ steps.old + block_count (S.list probe.old) + 1 * length (S.list probe.old) }
{
    match &keys.keys {
        Keys::Dense(set) => emit_places(set, probe, out, steps),
        Keys::Chained(set) => emit_places(set, probe, out, steps),
    }
}
