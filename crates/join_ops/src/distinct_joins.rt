//! Joins with distinct keys, of which a value has one at most.

ghost use Rattle.std.specs.Prelude.{◌≡◌, ℕ, ◌+◌, ◌*◌, ◌^◌, ◌<◌, ◌≤◌, [], true, List, take, length, IsOk, OnOk, OnErr};
ghost use Rattle.definitions_blocks.specs.Columns.{max_rows};
ghost use Rattle.definitions_operators.specs.Costs.{block_count};
ghost use Rattle.definitions_operators.specs.Operators.{join};
ghost use Rattle.join_ops.specs.Joins.{left_places, right_places, lefts_from, rights_from};
ghost use Rattle.join_ops.specs.KeyMaps.{IsNextLink};
ghost use Rattle.join_ops.specs.KeySets.{AreDistinct};

use crate::chain_tables::ChainTable;
use crate::direct_tables::DirectTable;
use block_core::{BLOCK_LEN, Block, BlockSource, Emit, Steps};
use std::alloc::AllocError;

/// A table that names the first place of a key by a link.
pub(crate) trait FirstLinks {
    /// The keys by their places.
    ghost keys: { Self → List ℕ };

    /// A link to the first place of a key.
    fn link_of(&self, key: u64) -> u32
        ensures { IsNextLink (keys self.now) key 0 result };
}

impl FirstLinks for ChainTable {
    ghost keys = { λ table. table };

    #[inline(always)]
    fn link_of(&self, key: u64) -> u32 {
        self.first_link(key)
    }
}

impl FirstLinks for DirectTable {
    ghost keys = { λ table. table };

    #[inline(always)]
    fn link_of(&self, key: u64) -> u32 {
        self.first_link(key)
    }
}

/// Emits the pairs of a join whose keys are distinct, so no walk is needed.
pub(crate) fn join_distinct<T: FirstLinks, S: BlockSource, A: Emit, B: Emit, G>(
    probe: &mut S,
    table: &T,
    left: &mut A,
    right: &mut B,
    steps: &mut Steps<G>,
) -> Result<(), AllocError>
    requires distinct { AreDistinct (T.keys table.now) }
    requires few { length (join (S.list probe.old) (T.keys table.now)) ≤ max_rows }
    requires left_empty { A.pushed left.old [] }
    requires right_empty { B.pushed right.old [] }
    requires left_scope { A.scope (A.frame left.old) (left_places (S.list probe.old) (T.keys table.now)) ≡ true }
    requires right_scope { B.scope (B.frame right.old) (right_places (S.list probe.old) (T.keys table.now)) ≡ true }
    ensures left_ok { OnOk result (A.pushed left.new (left_places (S.list probe.old) (T.keys table.now))) }
    ensures right_ok { OnOk result (B.pushed right.new (right_places (S.list probe.old) (T.keys table.now))) }
    ensures left_err { OnErr result ((n : ℕ) × A.pushed left.new (take n (left_places (S.list probe.old) (T.keys table.now)))) }
    ensures right_err { OnErr result ((n : ℕ) × B.pushed right.new (take n (right_places (S.list probe.old) (T.keys table.now)))) }
    ensures sure { A.room (A.frame left.old) (left_places (S.list probe.old) (T.keys table.now)) ≡ true
        → B.room (B.frame right.old) (right_places (S.list probe.old) (T.keys table.now)) ≡ true → IsOk result }
    ensures left_frame { A.frame left.new ≡ A.frame left.old }
    ensures right_frame { B.frame right.new ≡ B.frame right.old }
    ensures kept { S.list probe.new ≡ S.list probe.old }
    ensures later { steps.old ≤ steps.new }
    ensures steps { steps.new ≤ steps.old + block_count (S.list probe.old) + length (S.list probe.old) }
{
    join_distinct_blocks(probe, table, left, right, steps)
}

/// The pairs of all blocks. Those of a block are handed over by one call for each emitter.
fn join_distinct_blocks<T: FirstLinks, S: BlockSource, A: Emit, B: Emit, G>(
    probe: &mut S,
    table: &T,
    left: &mut A,
    right: &mut B,
    steps: &mut Steps<G>,
) -> Result<(), AllocError>
    requires distinct { AreDistinct (T.keys table.now) }
    requires few { length (rights_from (T.keys table.now) (S.list probe.old)) ≤ max_rows }
    requires left_empty { A.pushed left.old [] }
    requires right_empty { B.pushed right.old [] }
    requires left_scope { A.scope (A.frame left.old) (lefts_from (T.keys table.now) 0 (S.list probe.old)) ≡ true }
    requires right_scope { B.scope (B.frame right.old) (rights_from (T.keys table.now) (S.list probe.old)) ≡ true }
    ensures left_ok { OnOk result (A.pushed left.new (lefts_from (T.keys table.now) 0 (S.list probe.old))) }
    ensures right_ok { OnOk result (B.pushed right.new (rights_from (T.keys table.now) (S.list probe.old))) }
    ensures left_err { OnErr result ((n : ℕ) × A.pushed left.new (take n (lefts_from (T.keys table.now) 0 (S.list probe.old)))) }
    ensures right_err { OnErr result ((n : ℕ) × B.pushed right.new (take n (rights_from (T.keys table.now) (S.list probe.old)))) }
    ensures sure { A.room (A.frame left.old) (lefts_from (T.keys table.now) 0 (S.list probe.old)) ≡ true
        → B.room (B.frame right.old) (rights_from (T.keys table.now) (S.list probe.old)) ≡ true → IsOk result }
    ensures left_frame { A.frame left.new ≡ A.frame left.old }
    ensures right_frame { B.frame right.new ≡ B.frame right.old }
    ensures kept { S.list probe.new ≡ S.list probe.old }
    ensures later { steps.old ≤ steps.new }
    ensures steps { steps.new ≤ steps.old + block_count (S.list probe.old) + 1 * length (S.list probe.old) }
{
    let mut block = Block::new();
    let mut lefts = [0; BLOCK_LEN];
    let mut rights = [0; BLOCK_LEN];
    let count = probe.count();
    for number in 0..count.div_ceil(BLOCK_LEN as u64) {
        probe.block(number, &mut block, steps);
        steps.tick_by(block.as_slice().len() as u64);
        let kept = pair_block(
            table,
            block.as_slice(),
            number * BLOCK_LEN as u64,
            &mut lefts,
            &mut rights,
        );
        left.extend(&lefts[..kept])?;
        right.extend(&rights[..kept])?;
    }
    Ok(())
}

/// Writes the pairs of a block, whose first value has the place `first`, to the front of two lists, and says how many they are. Each value's pair is
/// written, and the next one takes its place if it is none.
fn pair_block<T: FirstLinks>(
    table: &T,
    values: &[u64],
    first: u64,
    lefts: &mut [u64],
    rights: &mut [u64],
) -> usize
    requires distinct { AreDistinct (T.keys table.now) }
    requires left_room { length values.now ≤ length lefts.old }
    requires right_room { length values.now ≤ length rights.old }
    requires fits { first + length values.now < 2 ^ 64 }
    ensures count { result ≤ length values.now }
    ensures lefts { take result lefts.new ≡ lefts_from (T.keys table.now) first values.now }
    ensures rights { take result rights.new ≡ rights_from (T.keys table.now) values.now }
{
    let mut kept = 0;
    let mut place = first;
    for value in values {
        let link = table.link_of(*value);
        lefts[kept] = place;
        rights[kept] = u64::from(link.saturating_sub(1));
        place += 1;
        kept += link.min(1) as usize;
    }
    kept
}
