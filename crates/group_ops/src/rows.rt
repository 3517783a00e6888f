//! The rows of one block.

ghost use Rattle.std.specs.Prelude.{◌≡◌, ◌<◌, ◌≤◌, ◌+◌, ◌^◌, length, OnOk};
ghost use Rattle.std.specs.List.{fold};
ghost use Rattle.definitions_blocks.specs.Blocks.{block_values};
ghost use Rattle.definitions_operators.specs.Groups.{with_item};
ghost use Rattle.definitions_operators.proofs.GroupWords.{numbers_from, new_places};
ghost use Rattle.group_ops.specs.Pairs.{same_pair, pairs_of, pairs_within};

use crate::GroupTable;
use block_core::Block;
use std::alloc::AllocError;

/// Numbers the values of a block, the first of which has the place `first`.
pub fn number_values(
    values: &[u64],
    first: u64,
    table: &mut GroupTable,
    ids: &mut Block,
    extents: &mut Block,
) -> Result<(), AllocError>
    requires few { length values.now ≤ block_values }
    requires fits { first + length values.now < 2 ^ 64 }
    ensures ids { OnOk result (ids.new ≡ numbers_from same_pair table.old (pairs_of values.now)) }
    ensures extents { OnOk result (extents.new ≡ new_places same_pair table.old first (pairs_of values.now)) }
    ensures pairs { OnOk result (table.new ≡ fold (with_item same_pair) table.old (pairs_of values.now)) }
{
    ids.clear();
    extents.clear();
    let mut place = first;
    for value in values {
        let found = table.probe(0, *value)?;
        ids.push(found.number);
        if found.fresh {
            extents.push(place);
        }
        place += 1;
    }
    Ok(())
}

/// Numbers the pairs of a block, the first of which has the place `first`.
pub fn number_pairs(
    before: &[u64],
    values: &[u64],
    first: u64,
    table: &mut GroupTable,
    ids: &mut Block,
    extents: &mut Block,
) -> Result<(), AllocError>
    requires same { length before.now ≡ length values.now }
    requires few { length values.now ≤ block_values }
    requires fits { first + length values.now < 2 ^ 64 }
    ensures ids { OnOk result (ids.new ≡ numbers_from same_pair table.old (pairs_within before.now values.now)) }
    ensures extents { OnOk result (extents.new ≡ new_places same_pair table.old first (pairs_within before.now values.now)) }
    ensures pairs { OnOk result (table.new ≡ fold (with_item same_pair) table.old (pairs_within before.now values.now)) }
{
    ids.clear();
    extents.clear();
    for row in 0..values.len() {
        let found = table.probe(before[row], values[row])?;
        ids.push(found.number);
        if found.fresh {
            extents.push(first + row as u64);
        }
    }
    Ok(())
}
