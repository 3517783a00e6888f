//! Rounds of selections and projections.

ghost use Rattle.std.specs.Prelude.{◌≡◌, ◌<◌, ◌≤◌, All, length, IfOk};
ghost use Rattle.definitions_blocks.specs.Columns.{max_rows};

use crate::operands::{Work, drawn_rows, every, greatest_part, numbers_below, parts};
use crate::output::Output;
use block_core::Steps;
use column_core::{Column, Cursor, Gather, encode_list};
use scan_ops::{project_fly, select_fly};
use std::alloc::{AllocError, Global};

/// The values of a projection are below this number, and take 20 bits.
const BELOW: u64 = 1 << 20;

/// Selects so many percent of the rows in each round.
pub fn select_rounds(alloc: Global, work: &Work) -> Result<u64, AllocError>
    requires { work.now.rows ≤ max_rows }
{
    let values = parts(alloc, 1, work.rows)?;
    let column = encode_list(alloc, values.as_slice(), work.format)?;
    let high = greatest_part(work.parameter);
    let mut steps = Steps::start(alloc);
    let mut out = Output::new(alloc, work.rows)?;
    select_round(&column, high, &mut out, &mut steps)?;
    let mut sum = out.sum();
    for round in 0..work.rounds {
        select_round(&column, high, &mut out, &mut steps)?;
        sum = sum.wrapping_add(out.round_sum(round));
    }
    Ok(sum)
}

fn select_round<G>(
    column: &Column,
    high: u64,
    out: &mut Output,
    steps: &mut Steps<G>,
) -> Result<(), AllocError> {
    out.clear();
    select_fly::<8, Cursor<8>, Output, G>(&mut Cursor::<8>::new(column), 0, high, out, steps)
}

/// Projects a column to so many percent of its rows in each round.
pub fn project_rounds(alloc: Global, work: &Work) -> Result<u64, AllocError>
    requires { work.now.rows ≤ max_rows }
{
    let rows = drawn_rows(alloc, 2, work.rows, work.parameter)?;
    rounds_at(alloc, work, rows.as_slice())
}

/// Projects a column to each so many-th of its rows in each round.
pub fn project_every_rounds(alloc: Global, work: &Work) -> Result<u64, AllocError>
    requires { work.now.rows ≤ max_rows }
{
    let rows = every(alloc, work.rows, work.parameter.max(1))?;
    rounds_at(alloc, work, rows.as_slice())
}

fn rounds_at(alloc: Global, work: &Work, rows: &[u64]) -> Result<u64, AllocError>
    requires few { work.now.rows ≤ max_rows }
    requires short { length rows.now ≤ max_rows }
    requires within { All (λ row. row < work.now.rows) rows.now }
{
    let values = numbers_below(alloc, 1, work.rows, BELOW)?;
    let column = encode_list(alloc, values.as_slice(), work.format)?;
    let places = encode_list(alloc, rows, work.format)?;
    let mut steps = Steps::start(alloc);
    let mut out = Output::new(alloc, work.rows)?;
    project_round(&column, &places, &mut out, &mut steps)?;
    let mut sum = out.sum();
    for round in 0..work.rounds {
        project_round(&column, &places, &mut out, &mut steps)?;
        sum = sum.wrapping_add(out.round_sum(round));
    }
    Ok(sum)
}

fn project_round<G>(
    column: &Column,
    places: &Column,
    out: &mut Output,
    steps: &mut Steps<G>,
) -> Result<(), AllocError>
    requires { All (λ place. place < length column.now.values) places.now.values }
{
    out.clear();
    project_fly(
        &mut Gather::<8>::new(column),
        &mut Cursor::<8>::new(places),
        out,
        steps,
    )
}
