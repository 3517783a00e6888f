//! Rounds of sums.

ghost use Rattle.std.specs.Prelude.{◌≡◌, ◌<◌, ◌≤◌, All, length, IfOk};
ghost use Rattle.definitions_blocks.specs.Columns.{max_rows};

use crate::operands::{Work, numbers_below};
use crate::output::Output;
use block_core::{MAX_ROWS, Steps};
use column_core::{Column, Cursor, encode_list};
use std::alloc::{AllocError, Global};
use sum_ops::{Sums, sum_all, sum_by, sum_product_all, sum_product_by};

/// The values are below this number, and take 20 bits.
const BELOW: u64 = 1 << 20;

/// Adds up all values in each round.
pub fn sum_rounds(alloc: Global, work: &Work) -> Result<u64, AllocError>
    requires { work.now.rows ≤ max_rows }
{
    let values = column_of(alloc, work, 1, BELOW)?;
    let mut steps = Steps::start(alloc);
    let mut sum = 0u64;
    for round in 0..work.rounds {
        let mut sums = Sums::new(alloc, 1)?;
        sum_all::<8, Cursor<8>, _>(&mut Cursor::<8>::new(&values), &mut sums, &mut steps);
        sum = sum.wrapping_add(sums.value(0).unwrap_or(1) ^ round);
    }
    Ok(sum)
}

/// Adds up the products of two columns in each round.
pub fn sum_product_rounds(alloc: Global, work: &Work) -> Result<u64, AllocError>
    requires { work.now.rows ≤ max_rows }
{
    let first = column_of(alloc, work, 1, BELOW)?;
    let second = column_of(alloc, work, 2, BELOW)?;
    let mut steps = Steps::start(alloc);
    let mut sum = 0u64;
    for round in 0..work.rounds {
        let mut sums = Sums::new(alloc, 1)?;
        sum_product_all(
            &mut Cursor::<8>::new(&first),
            &mut Cursor::<8>::new(&second),
            &mut sums,
            &mut steps,
        );
        sum = sum.wrapping_add(sums.value(0).unwrap_or(1) ^ round);
    }
    Ok(sum)
}

/// Adds up the values of each of so many groups in each round.
pub fn sum_by_rounds(alloc: Global, work: &Work) -> Result<u64, AllocError>
    requires { work.now.rows ≤ max_rows }
{
    let groups = work.parameter.max(1).min(MAX_ROWS);
    let ids = column_of(alloc, work, 3, groups)?;
    let values = column_of(alloc, work, 1, BELOW)?;
    let mut steps = Steps::start(alloc);
    let mut out = Output::new(alloc, groups)?;
    let mut sum = 0u64;
    for round in 0..work.rounds {
        let sums = sums_by(alloc, groups, &values, &ids, &mut steps)?;
        sum = sum.wrapping_add(sum_of(&sums, &mut out)? ^ round);
    }
    Ok(sum)
}

fn sums_by<G>(
    alloc: Global,
    groups: u64,
    values: &Column,
    ids: &Column,
    steps: &mut Steps<G>,
) -> Result<Sums, AllocError>
    requires few { groups ≤ max_rows }
    requires same { length values.now.values ≡ length ids.now.values }
    requires groups { All (λ id. id < groups) ids.now.values }
{
    let mut sums = Sums::new(alloc, groups)?;
    sum_by(
        &mut Cursor::<8>::new(values),
        &mut Cursor::<8>::new(ids),
        &mut sums,
        steps,
    );
    Ok(sums)
}

/// Adds up the products of each of so many groups in each round.
pub fn sum_product_by_rounds(alloc: Global, work: &Work) -> Result<u64, AllocError>
    requires { work.now.rows ≤ max_rows }
{
    let groups = work.parameter.max(1).min(MAX_ROWS);
    let ids = column_of(alloc, work, 3, groups)?;
    let first = column_of(alloc, work, 1, BELOW)?;
    let second = column_of(alloc, work, 2, BELOW)?;
    let mut steps = Steps::start(alloc);
    let mut out = Output::new(alloc, groups)?;
    let mut sum = 0u64;
    for round in 0..work.rounds {
        let sums = product_sums_by(alloc, groups, &first, &second, &ids, &mut steps)?;
        sum = sum.wrapping_add(sum_of(&sums, &mut out)? ^ round);
    }
    Ok(sum)
}

fn product_sums_by<G>(
    alloc: Global,
    groups: u64,
    first: &Column,
    second: &Column,
    ids: &Column,
    steps: &mut Steps<G>,
) -> Result<Sums, AllocError>
    requires few { groups ≤ max_rows }
    requires same { length first.now.values ≡ length ids.now.values }
    requires second_same { length second.now.values ≡ length ids.now.values }
    requires groups { All (λ id. id < groups) ids.now.values }
{
    let mut sums = Sums::new(alloc, groups)?;
    sum_product_by(
        &mut Cursor::<8>::new(first),
        &mut Cursor::<8>::new(second),
        &mut Cursor::<8>::new(ids),
        &mut sums,
        steps,
    );
    Ok(sums)
}

/// A checksum of all sums, or the first group of which the sum is too wide.
fn sum_of(sums: &Sums, out: &mut Output) -> Result<u64, AllocError> {
    match sums.check() {
        Ok(()) => {
            out.clear();
            sums.emit(out)?;
            Ok(out.sum())
        }
        Err(wide) => Ok(wide.group),
    }
}

/// Numbers below a bound as a column, in no order.
fn column_of(alloc: Global, work: &Work, seed: u64, below: u64) -> Result<Column, AllocError>
    requires few { work.now.rows ≤ max_rows }
    requires some { 0 < below }
    ensures rows { IfOk result (λ column. length column.values ≡ work.now.rows) }
    ensures below { IfOk result (λ column. All (λ number. number < below) column.values) }
{
    let numbers = numbers_below(alloc, seed, work.rows, below)?;
    encode_list(alloc, numbers.as_slice(), work.format)
}
