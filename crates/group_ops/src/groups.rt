//! Groups over any source and emitter.

ghost use Rattle.std.specs.Prelude.{◌≡◌, ℕ, ◌≤◌, ◌+◌, ◌*◌, [], true, take, length, OnOk, OnErr};
ghost use Rattle.definitions_operators.specs.Costs.{block_count};
ghost use Rattle.definitions_operators.specs.Groups.{group, refine, distinct};
ghost use Rattle.group_ops.specs.Pairs.{same_pair, pairs_of, pairs_within};

use crate::GroupTable;
use crate::rows::{number_pairs, number_values};
use block_core::{BLOCK_LEN, Block, BlockSource, Emit, Steps};
use std::alloc::AllocError;

/// Emits each row's group, and the place of each group's first row. The table must be empty; it then has the groups, and only it takes memory. The call
/// decodes one block at a time, and takes a step for it and one for each value.
pub fn group_fly<S: BlockSource, I: Emit, E: Emit, G>(
    values: &mut S,
    table: &mut GroupTable,
    ids: &mut I,
    extents: &mut E,
    steps: &mut Steps<G>,
) -> Result<(), AllocError>
    requires empty { table.old ≡ [] }
    requires ids_empty { I.pushed ids.old [] }
    requires extents_empty { E.pushed extents.old [] }
    requires ids_scope { I.scope (I.frame ids.old) (group (S.list values.old)).ids ≡ true }
    requires extents_scope { E.scope (E.frame extents.old) (group (S.list values.old)).extents ≡ true }
    ensures ids_ok { OnOk result (I.pushed ids.new (group (S.list values.old)).ids) }
    ensures extents_ok { OnOk result (E.pushed extents.new (group (S.list values.old)).extents) }
    ensures ids_err { OnErr result ((n : ℕ) × I.pushed ids.new (take n (group (S.list values.old)).ids)) }
    ensures extents_err { OnErr result ((n : ℕ) × E.pushed extents.new (take n (group (S.list values.old)).extents)) }
    ensures table { OnOk result (table.new ≡ distinct same_pair (pairs_of (S.list values.old))) }
    ensures ids_frame { I.frame ids.new ≡ I.frame ids.old }
    ensures extents_frame { E.frame extents.new ≡ E.frame extents.old }
    ensures kept { S.list values.new ≡ S.list values.old }
    ensures later { steps.old ≤ steps.new }
    ensures steps { steps.new ≤ steps.old + block_count (S.list values.old) + length (S.list values.old) }
{
    let mut block = Block::new();
    let mut numbers = Block::new();
    let mut firsts = Block::new();
    for number in 0..values.count().div_ceil(BLOCK_LEN as u64) {
        values.block(number, &mut block, steps);
        steps.tick_by(block.as_slice().len() as u64);
        number_values(
            block.as_slice(),
            number * BLOCK_LEN as u64,
            table,
            &mut numbers,
            &mut firsts,
        )?;
        ids.extend(numbers.as_slice())?;
        extents.extend(firsts.as_slice())?;
    }
    Ok(())
}

/// Emits each row's group among the pairs of its earlier group and its value, and the place of each group's first row. The table must be empty; it then
/// has the groups, and only it takes memory. The call decodes a block of each operand at a time, and takes a step for each and one for each row.
pub fn refine_fly<B: BlockSource, S: BlockSource, I: Emit, E: Emit, G>(
    before: &mut B,
    values: &mut S,
    table: &mut GroupTable,
    ids: &mut I,
    extents: &mut E,
    steps: &mut Steps<G>,
) -> Result<(), AllocError>
    requires same { length (B.list before.old) ≡ length (S.list values.old) }
    requires empty { table.old ≡ [] }
    requires ids_empty { I.pushed ids.old [] }
    requires extents_empty { E.pushed extents.old [] }
    requires ids_scope { I.scope (I.frame ids.old) (refine (B.list before.old) (S.list values.old)).ids ≡ true }
    requires extents_scope { E.scope (E.frame extents.old) (refine (B.list before.old) (S.list values.old)).extents ≡ true }
    ensures ids_ok { OnOk result (I.pushed ids.new (refine (B.list before.old) (S.list values.old)).ids) }
    ensures extents_ok { OnOk result (E.pushed extents.new (refine (B.list before.old) (S.list values.old)).extents) }
    ensures ids_err { OnErr result ((n : ℕ) × I.pushed ids.new (take n (refine (B.list before.old) (S.list values.old)).ids)) }
    ensures extents_err { OnErr result ((n : ℕ) × E.pushed extents.new (take n (refine (B.list before.old) (S.list values.old)).extents)) }
    ensures table { OnOk result (table.new ≡ distinct same_pair (pairs_within (B.list before.old) (S.list values.old))) }
    ensures ids_frame { I.frame ids.new ≡ I.frame ids.old }
    ensures extents_frame { E.frame extents.new ≡ E.frame extents.old }
    ensures kept_before { B.list before.new ≡ B.list before.old }
    ensures kept_values { S.list values.new ≡ S.list values.old }
    ensures later { steps.old ≤ steps.new }
    ensures steps { steps.new ≤ steps.old + 2 * block_count (S.list values.old) + length (S.list values.old) }
{
    let mut earlier = Block::new();
    let mut block = Block::new();
    let mut numbers = Block::new();
    let mut firsts = Block::new();
    for number in 0..values.count().div_ceil(BLOCK_LEN as u64) {
        before.block(number, &mut earlier, steps);
        values.block(number, &mut block, steps);
        steps.tick_by(block.as_slice().len() as u64);
        number_pairs(
            earlier.as_slice(),
            block.as_slice(),
            number * BLOCK_LEN as u64,
            table,
            &mut numbers,
            &mut firsts,
        )?;
        ids.extend(numbers.as_slice())?;
        extents.extend(firsts.as_slice())?;
    }
    Ok(())
}
