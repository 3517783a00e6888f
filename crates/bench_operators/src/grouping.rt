//! Rounds of grouping.

ghost use Rattle.std.specs.Prelude.{◌≡◌, ◌≤◌, length};
ghost use Rattle.definitions_blocks.specs.Columns.{max_rows};

use crate::operands::{Work, numbers_below};
use crate::output::Output;
use block_core::Steps;
use column_core::{Column, Cursor, encode_list};
use group_ops::{GroupTable, group_fly, refine_fly};
use std::alloc::{AllocError, Global};

/// How many groups are refined.
const BEFORE: u64 = 10;

/// Finds so many groups in each round.
pub fn group_rounds(alloc: Global, work: &Work) -> Result<u64, AllocError>
    requires { work.now.rows ≤ max_rows }
{
    let numbers = numbers_below(alloc, 1, work.rows, work.parameter.max(1))?;
    let values = encode_list(alloc, numbers.as_slice(), work.format)?;
    let mut steps = Steps::start(alloc);
    let mut ids = Output::new(alloc, work.rows)?;
    let mut extents = Output::new(alloc, work.rows)?;
    group_round(alloc, &values, &mut ids, &mut extents, &mut steps)?;
    let mut sum = ids.sum().wrapping_add(extents.sum());
    for round in 0..work.rounds {
        group_round(alloc, &values, &mut ids, &mut extents, &mut steps)?;
        sum = sum.wrapping_add(ids.round_sum(round).wrapping_add(extents.round_sum(round)));
    }
    Ok(sum)
}

fn group_round<G>(
    alloc: Global,
    values: &Column,
    ids: &mut Output,
    extents: &mut Output,
    steps: &mut Steps<G>,
) -> Result<(), AllocError> {
    ids.clear();
    extents.clear();
    let mut table = GroupTable::new(alloc);
    group_fly(
        &mut Cursor::<8>::new(values),
        &mut table,
        ids,
        extents,
        steps,
    )
}

/// Refines ten groups to so many in each round.
pub fn refine_rounds(alloc: Global, work: &Work) -> Result<u64, AllocError>
    requires { work.now.rows ≤ max_rows }
{
    let earlier = numbers_below(alloc, 2, work.rows, BEFORE)?;
    let numbers = numbers_below(alloc, 1, work.rows, (work.parameter / BEFORE).max(1))?;
    let before = encode_list(alloc, earlier.as_slice(), work.format)?;
    let values = encode_list(alloc, numbers.as_slice(), work.format)?;
    let mut steps = Steps::start(alloc);
    let mut ids = Output::new(alloc, work.rows)?;
    let mut extents = Output::new(alloc, work.rows)?;
    refine_round(alloc, &before, &values, &mut ids, &mut extents, &mut steps)?;
    let mut sum = ids.sum().wrapping_add(extents.sum());
    for round in 0..work.rounds {
        refine_round(alloc, &before, &values, &mut ids, &mut extents, &mut steps)?;
        sum = sum.wrapping_add(ids.round_sum(round).wrapping_add(extents.round_sum(round)));
    }
    Ok(sum)
}

fn refine_round<G>(
    alloc: Global,
    before: &Column,
    values: &Column,
    ids: &mut Output,
    extents: &mut Output,
    steps: &mut Steps<G>,
) -> Result<(), AllocError>
    requires { length before.now.values ≡ length values.now.values }
{
    ids.clear();
    extents.clear();
    let mut table = GroupTable::new(alloc);
    refine_fly(
        &mut Cursor::<8>::new(before),
        &mut Cursor::<8>::new(values),
        &mut table,
        ids,
        extents,
        steps,
    )
}
