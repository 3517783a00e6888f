//! Joins: pairs of a place of the probe and a place of the keys with the same value.

ghost use Rattle.std.specs.Prelude.{◌≡◌, ℕ, ◌+◌, ◌*◌, ◌^◌, ◌<◌, ◌≤◌, ◌++◌, true, List, [], take, length, IsOk, OnOk, OnErr};
ghost use Rattle.definitions_blocks.specs.Columns.{max_rows};
ghost use Rattle.definitions_operators.specs.Costs.{block_count};
ghost use Rattle.definitions_operators.specs.Operators.{places_of, join};
ghost use Rattle.scan_ops.specs.Batches.{HoldsWith};
ghost use Rattle.join_ops.specs.Joins.{left_places, right_places, lefts_of, lefts_from, rights_from, MayTake, HoldsFront};

use crate::distinct_joins::join_distinct;
use crate::key_maps::{KeyMap, Table};
use block_core::{BLOCK_LEN, Block, BlockSource, Emit, Steps};
use scan_ops::Batch;
use std::alloc::AllocError;

/// Emits, for each place of the probe, rising, and each place of its value among the keys, rising, the two places. It decodes one block of the probe at
/// a time, and takes a step for it and one for each value. There must be at most 268,435,456 pairs, as `join_fits` says.
pub fn join_fly<S: BlockSource, A: Emit, B: Emit, G>(
    probe: &mut S,
    keys: &KeyMap,
    left: &mut A,
    right: &mut B,
    steps: &mut Steps<G>,
) -> Result<(), AllocError>
    requires few { length (join (S.list probe.old) keys.now) ≤ max_rows }
    requires left_empty { A.pushed left.old [] }
    requires right_empty { B.pushed right.old [] }
    requires left_scope { A.scope (A.frame left.old) (left_places (S.list probe.old) keys.now) ≡ true }
    requires right_scope { B.scope (B.frame right.old) (right_places (S.list probe.old) keys.now) ≡ true }
    ensures left_ok { OnOk result (A.pushed left.new (left_places (S.list probe.old) keys.now)) }
    ensures right_ok { OnOk result (B.pushed right.new (right_places (S.list probe.old) keys.now)) }
    ensures left_err { OnErr result ((n : ℕ) × A.pushed left.new (take n (left_places (S.list probe.old) keys.now))) }
    ensures right_err { OnErr result ((n : ℕ) × B.pushed right.new (take n (right_places (S.list probe.old) keys.now))) }
    ensures sure { A.room (A.frame left.old) (left_places (S.list probe.old) keys.now) ≡ true
        → B.room (B.frame right.old) (right_places (S.list probe.old) keys.now) ≡ true → IsOk result }
    ensures left_frame { A.frame left.new ≡ A.frame left.old }
    ensures right_frame { B.frame right.new ≡ B.frame right.old }
    ensures kept { S.list probe.new ≡ S.list probe.old }
    ensures later { steps.old ≤ steps.new }
    ensures steps { steps.new ≤ steps.old + block_count (S.list probe.old) + length (S.list probe.old) }
{
    if !keys.is_distinct() {
        return join_repeating(probe, keys, left, right, steps);
    }
    match &keys.table {
        Table::Direct(table) => join_distinct(probe, table, left, right, steps),
        Table::Chained(table) => join_distinct(probe, table, left, right, steps),
    }
}

/// Emits the pairs of a join whose keys may repeat.
fn join_repeating<S: BlockSource, A: Emit, B: Emit, G>(
    probe: &mut S,
    keys: &KeyMap,
    left: &mut A,
    right: &mut B,
    steps: &mut Steps<G>,
) -> Result<(), AllocError>
    requires few { length (join (S.list probe.old) keys.now) ≤ max_rows }
    requires left_empty { A.pushed left.old [] }
    requires right_empty { B.pushed right.old [] }
    requires left_scope { A.scope (A.frame left.old) (left_places (S.list probe.old) keys.now) ≡ true }
    requires right_scope { B.scope (B.frame right.old) (right_places (S.list probe.old) keys.now) ≡ true }
    ensures left_ok { OnOk result (A.pushed left.new (left_places (S.list probe.old) keys.now)) }
    ensures right_ok { OnOk result (B.pushed right.new (right_places (S.list probe.old) keys.now)) }
    ensures left_err { OnErr result ((n : ℕ) × A.pushed left.new (take n (left_places (S.list probe.old) keys.now))) }
    ensures right_err { OnErr result ((n : ℕ) × B.pushed right.new (take n (right_places (S.list probe.old) keys.now))) }
    ensures sure { A.room (A.frame left.old) (left_places (S.list probe.old) keys.now) ≡ true
        → B.room (B.frame right.old) (right_places (S.list probe.old) keys.now) ≡ true → IsOk result }
    ensures left_frame { A.frame left.new ≡ A.frame left.old }
    ensures right_frame { B.frame right.new ≡ B.frame right.old }
    ensures kept { S.list probe.new ≡ S.list probe.old }
    ensures later { steps.old ≤ steps.new }
    ensures steps { steps.new ≤ steps.old + block_count (S.list probe.old) + length (S.list probe.old) }
{
    let mut lefts = Batch::new();
    let mut rights = Batch::new();
    join_blocks(probe, keys, &mut lefts, left, &mut rights, right, steps)?;
    lefts.flush(left)?;
    rights.flush(right)?;
    Ok(())
}

/// The pairs of all blocks. The last of them are still in the batches.
fn join_blocks<S: BlockSource, A: Emit, B: Emit, G>(
    probe: &mut S,
    keys: &KeyMap,
    lefts: &mut Batch,
    left: &mut A,
    rights: &mut Batch,
    right: &mut B,
    steps: &mut Steps<G>,
) -> Result<(), AllocError>
    requires few { length (rights_from keys.now (S.list probe.old)) ≤ max_rows }
    requires left_empty { HoldsWith (A.pushed left.old) lefts.old [] }
    requires right_empty { HoldsWith (B.pushed right.old) rights.old [] }
    requires left_scope { A.scope (A.frame left.old) (lefts_from keys.now 0 (S.list probe.old)) ≡ true }
    requires right_scope { B.scope (B.frame right.old) (rights_from keys.now (S.list probe.old)) ≡ true }
    ensures left_ok { OnOk result (HoldsWith (A.pushed left.new) lefts.new (lefts_from keys.now 0 (S.list probe.old))) }
    ensures right_ok { OnOk result (HoldsWith (B.pushed right.new) rights.new (rights_from keys.now (S.list probe.old))) }
    ensures left_err { OnErr result (HoldsFront (A.pushed left.new) (lefts_from keys.now 0 (S.list probe.old))) }
    ensures right_err { OnErr result (HoldsFront (B.pushed right.new) (rights_from keys.now (S.list probe.old))) }
    ensures sure { A.room (A.frame left.old) (lefts_from keys.now 0 (S.list probe.old)) ≡ true
        → B.room (B.frame right.old) (rights_from keys.now (S.list probe.old)) ≡ true → IsOk result }
    ensures left_frame { A.frame left.new ≡ A.frame left.old }
    ensures right_frame { B.frame right.new ≡ B.frame right.old }
    ensures kept { S.list probe.new ≡ S.list probe.old }
    ensures later { steps.old ≤ steps.new }
    ensures steps { steps.new ≤ steps.old + block_count (S.list probe.old) + 1 * length (S.list probe.old) }
{
    let mut block = Block::new();
    let count = probe.count();
    for number in 0..count.div_ceil(BLOCK_LEN as u64) {
        probe.block(number, &mut block, steps);
        steps.tick_by(block.as_slice().len() as u64);
        join_block(
            keys,
            block.as_slice(),
            number * BLOCK_LEN as u64,
            lefts,
            left,
            rights,
            right,
        )?;
    }
    Ok(())
}

/// The pairs of the values of a block, the first of which has the place `first`.
fn join_block<A: Emit, B: Emit>(
    keys: &KeyMap,
    values: &[u64],
    first: u64,
    lefts: &mut Batch,
    left: &mut A,
    rights: &mut Batch,
    right: &mut B,
) -> Result<(), AllocError>
    requires fits { first + length values.now < 2 ^ 64 }
    requires left { MayTake (HoldsWith (A.pushed left.old) lefts.old) (A.scope (A.frame left.old)) (lefts_from keys.now first values.now) }
    requires right { MayTake (HoldsWith (B.pushed right.old) rights.old) (B.scope (B.frame right.old)) (rights_from keys.now values.now) }
    ensures left_ok { OnOk result ((list : List ℕ) → HoldsWith (A.pushed left.old) lefts.old list → HoldsWith (A.pushed left.new) lefts.new (list ++ lefts_from keys.now first values.now)) }
    ensures right_ok { OnOk result ((list : List ℕ) → HoldsWith (B.pushed right.old) rights.old list → HoldsWith (B.pushed right.new) rights.new (list ++ rights_from keys.now values.now)) }
    ensures left_err { OnErr result ((list : List ℕ) → HoldsWith (A.pushed left.old) lefts.old list → HoldsFront (A.pushed left.new) (list ++ lefts_from keys.now first values.now)) }
    ensures right_err { OnErr result ((list : List ℕ) → HoldsWith (B.pushed right.old) rights.old list → HoldsFront (B.pushed right.new) (list ++ rights_from keys.now values.now)) }
    ensures left_frame { A.frame left.new ≡ A.frame left.old }
    ensures right_frame { B.frame right.new ≡ B.frame right.old }
    ensures sure { (lefts_held rights_held : List ℕ) → HoldsWith (A.pushed left.old) lefts.old lefts_held → HoldsWith (B.pushed right.old) rights.old rights_held
        → A.room (A.frame left.old) (lefts_held ++ lefts_from keys.now first values.now) ≡ true
        → B.room (B.frame right.old) (rights_held ++ rights_from keys.now values.now) ≡ true → IsOk result }
{
    let mut place = first;
    for value in values {
        join_value(keys, *value, place, lefts, left, rights, right)?;
        place += 1;
    }
    Ok(())
}

/// The pairs of one value: its place for each of its places among the keys, and these.
#[inline]
fn join_value<A: Emit, B: Emit>(
    keys: &KeyMap,
    value: u64,
    place: u64,
    lefts: &mut Batch,
    left: &mut A,
    rights: &mut Batch,
    right: &mut B,
) -> Result<(), AllocError>
    requires left { MayTake (HoldsWith (A.pushed left.old) lefts.old) (A.scope (A.frame left.old)) (lefts_of place (places_of keys.now value)) }
    requires right { MayTake (HoldsWith (B.pushed right.old) rights.old) (B.scope (B.frame right.old)) (places_of keys.now value) }
    ensures left_ok { OnOk result ((list : List ℕ) → HoldsWith (A.pushed left.old) lefts.old list → HoldsWith (A.pushed left.new) lefts.new (list ++ lefts_of place (places_of keys.now value))) }
    ensures right_ok { OnOk result ((list : List ℕ) → HoldsWith (B.pushed right.old) rights.old list → HoldsWith (B.pushed right.new) rights.new (list ++ places_of keys.now value)) }
    ensures left_err { OnErr result ((list : List ℕ) → HoldsWith (A.pushed left.old) lefts.old list → HoldsFront (A.pushed left.new) (list ++ lefts_of place (places_of keys.now value))) }
    ensures right_err { OnErr result ((list : List ℕ) → HoldsWith (B.pushed right.old) rights.old list → HoldsFront (B.pushed right.new) (list ++ places_of keys.now value)) }
    ensures left_frame { A.frame left.new ≡ A.frame left.old }
    ensures right_frame { B.frame right.new ≡ B.frame right.old }
    ensures sure { (lefts_held rights_held : List ℕ) → HoldsWith (A.pushed left.old) lefts.old lefts_held → HoldsWith (B.pushed right.old) rights.old rights_held
        → A.room (A.frame left.old) (lefts_held ++ lefts_of place (places_of keys.now value)) ≡ true
        → B.room (B.frame right.old) (rights_held ++ places_of keys.now value) ≡ true → IsOk result }
{
    let mut link = keys.first_link(value);
    while link > 0 {
        lefts.push(place, left)?;
        rights.push(u64::from(link - 1), right)?;
        link = keys.next_link(link - 1);
    }
    Ok(())
}
