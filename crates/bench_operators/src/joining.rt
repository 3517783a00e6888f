//! Rounds of semi-joins and joins, and of building what they look up.

ghost use Rattle.std.specs.Prelude.{◌≡◌, ◌≤◌, nat_le, length};
ghost use Rattle.definitions_blocks.specs.Columns.{max_rows};
ghost use Rattle.definitions_operators.specs.Operators.{join};

use crate::operands::{Work, foreign_keys, keys_of};
use crate::output::Output;
use block_core::Steps;
use column_core::{Column, Cursor, encode_list};
use join_ops::{KeyMap, KeySet, join_fits, join_fly, semi_join_fly};
use std::alloc::{AllocError, Global};

/// The rows whose value is among so many keys, in each round. Half of the values are.
pub fn semi_join_rounds(alloc: Global, work: &Work) -> Result<u64, AllocError>
    requires { work.now.rows ≤ max_rows }
{
    let values = foreign_keys(
        alloc,
        work.rows,
        work.parameter.saturating_mul(2).max(1),
        work.sparse,
    )?;
    let probe = encode_list(alloc, values.as_slice(), work.format)?;
    let mut steps = Steps::start(alloc);
    let column = key_column(alloc, work)?;
    let keys = KeySet::build(alloc, &mut Cursor::<8>::new(&column), &mut steps)?;
    let mut out = Output::new(alloc, work.rows)?;
    semi_join_round(&probe, &keys, &mut out, &mut steps)?;
    let mut sum = out.sum();
    for round in 0..work.rounds {
        semi_join_round(&probe, &keys, &mut out, &mut steps)?;
        sum = sum.wrapping_add(out.round_sum(round));
    }
    Ok(sum)
}

fn semi_join_round<G>(
    probe: &Column,
    keys: &KeySet,
    out: &mut Output,
    steps: &mut Steps<G>,
) -> Result<(), AllocError> {
    out.clear();
    semi_join_fly(&mut Cursor::<8>::new(probe), keys, out, steps)
}

/// So many keys as a column.
fn key_column(alloc: Global, work: &Work) -> Result<Column, AllocError> {
    let keys = keys_of(alloc, work.parameter, work.sparse)?;
    encode_list(alloc, keys.as_slice(), work.format)
}

/// Builds a set of so many keys in each round, and looks up a number.
pub fn semi_build_rounds(alloc: Global, work: &Work) -> Result<u64, AllocError> {
    let column = key_column(alloc, work)?;
    let mut steps = Steps::start(alloc);
    let mut sum = 0u64;
    for round in 0..work.rounds {
        let keys = KeySet::build(alloc, &mut Cursor::<8>::new(&column), &mut steps)?;
        let found = u64::from(keys.contains(round, &mut steps));
        sum = sum.wrapping_add(found ^ round);
    }
    Ok(sum)
}

/// The rows of a foreign key beside the places of its values among so many keys, in each round.
pub fn join_rounds(alloc: Global, work: &Work) -> Result<u64, AllocError>
    requires { work.now.rows ≤ max_rows }
{
    let values = foreign_keys(alloc, work.rows, work.parameter.max(1), work.sparse)?;
    let probe = encode_list(alloc, values.as_slice(), work.format)?;
    let mut steps = Steps::start(alloc);
    let column = key_column(alloc, work)?;
    let keys = KeyMap::build(alloc, &mut Cursor::<8>::new(&column), &mut steps)?;
    if !fits(&probe, &keys, &mut steps) {
        return Ok(0);
    }
    let mut left = Output::new(alloc, work.rows)?;
    let mut right = Output::new(alloc, work.rows)?;
    join_round(&probe, &keys, &mut left, &mut right, &mut steps)?;
    let mut sum = left.sum().wrapping_add(right.sum());
    for round in 0..work.rounds {
        join_round(&probe, &keys, &mut left, &mut right, &mut steps)?;
        sum = sum.wrapping_add(left.round_sum(round).wrapping_add(right.round_sum(round)));
    }
    Ok(sum)
}

/// Whether a join has few enough pairs.
fn fits<G>(probe: &Column, keys: &KeyMap, steps: &mut Steps<G>) -> bool
    ensures { result ≡ nat_le (length (join probe.now.values keys.now)) max_rows }
{
    join_fits(&mut Cursor::<8>::new(probe), keys, steps)
}

fn join_round<G>(
    probe: &Column,
    keys: &KeyMap,
    left: &mut Output,
    right: &mut Output,
    steps: &mut Steps<G>,
) -> Result<(), AllocError>
    requires { length (join probe.now.values keys.now) ≤ max_rows }
{
    left.clear();
    right.clear();
    join_fly(&mut Cursor::<8>::new(probe), keys, left, right, steps)
}

/// Builds a map of so many keys in each round, and looks up a number.
pub fn join_build_rounds(alloc: Global, work: &Work) -> Result<u64, AllocError> {
    let column = key_column(alloc, work)?;
    let mut steps = Steps::start(alloc);
    let mut sum = 0u64;
    for round in 0..work.rounds {
        let keys = KeyMap::build(alloc, &mut Cursor::<8>::new(&column), &mut steps)?;
        let found = keys.place_of(round, &mut steps).unwrap_or(0);
        sum = sum.wrapping_add(found ^ round);
    }
    Ok(sum)
}
