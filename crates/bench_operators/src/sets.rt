//! Rounds of intersections and unions.

ghost use Rattle.std.specs.Prelude.{◌≤◌};
ghost use Rattle.definitions_blocks.specs.Columns.{max_rows};
ghost use Rattle.bench_operators.specs.Drawn.{ArePlaces};

use crate::operands::{Work, drawn_rows};
use crate::output::Output;
use block_core::Steps;
use column_core::{Column, Cursor, encode_list};
use scan_ops::{intersect_fly, union_fly};
use std::alloc::{AllocError, Global};

/// Of how many percent of the rows the second list is.
const SECOND: u64 = 50;

/// Intersects the rows of so many percent with those of half of all in each round.
pub fn intersect_rounds(alloc: Global, work: &Work) -> Result<u64, AllocError>
    requires { work.now.rows ≤ max_rows }
{
    let first = drawn_rows(alloc, 1, work.rows, work.parameter)?;
    let second = drawn_rows(alloc, 2, work.rows, SECOND)?;
    let left = encode_list(alloc, first.as_slice(), work.format)?;
    let right = encode_list(alloc, second.as_slice(), work.format)?;
    let mut steps = Steps::start(alloc);
    let mut out = Output::new(alloc, work.rows)?;
    intersect_round(work.rows, &left, &right, &mut out, &mut steps)?;
    let mut sum = out.sum();
    for round in 0..work.rounds {
        intersect_round(work.rows, &left, &right, &mut out, &mut steps)?;
        sum = sum.wrapping_add(out.round_sum(round));
    }
    Ok(sum)
}

fn intersect_round<G>(
    _rows: u64,
    left: &Column,
    right: &Column,
    out: &mut Output,
    steps: &mut Steps<G>,
) -> Result<(), AllocError>
    requires left { ArePlaces _rows left.now.values }
    requires right { ArePlaces _rows right.now.values }
{
    out.clear();
    intersect_fly(
        &mut Cursor::<8>::new(left),
        &mut Cursor::<8>::new(right),
        out,
        steps,
    )
}

/// Unites the rows of so many percent with those of half of all in each round.
pub fn union_rounds(alloc: Global, work: &Work) -> Result<u64, AllocError>
    requires { work.now.rows ≤ max_rows }
{
    let first = drawn_rows(alloc, 1, work.rows, work.parameter)?;
    let second = drawn_rows(alloc, 2, work.rows, SECOND)?;
    let left = encode_list(alloc, first.as_slice(), work.format)?;
    let right = encode_list(alloc, second.as_slice(), work.format)?;
    let mut steps = Steps::start(alloc);
    let mut out = Output::new(alloc, work.rows)?;
    union_round(work.rows, &left, &right, &mut out, &mut steps)?;
    let mut sum = out.sum();
    for round in 0..work.rounds {
        union_round(work.rows, &left, &right, &mut out, &mut steps)?;
        sum = sum.wrapping_add(out.round_sum(round));
    }
    Ok(sum)
}

fn union_round<G>(
    _rows: u64,
    left: &Column,
    right: &Column,
    out: &mut Output,
    steps: &mut Steps<G>,
) -> Result<(), AllocError>
    requires few { _rows ≤ max_rows }
    requires left { ArePlaces _rows left.now.values }
    requires right { ArePlaces _rows right.now.values }
{
    out.clear();
    union_fly(
        &mut Cursor::<8>::new(left),
        &mut Cursor::<8>::new(right),
        out,
        steps,
    )
}
