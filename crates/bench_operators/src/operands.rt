//! The lists that operators go over. `bench/operators.cpp` makes the same ones.

ghost use Rattle.std.specs.Prelude.{◌≡◌, ◌<◌, ◌≤◌, All, length, IfOk};
ghost use Rattle.definitions_blocks.specs.Columns.{max_rows};
ghost use Rattle.bench_operators.specs.Drawn.{ArePlaces};

use block_core::{Format, MAX_ROWS};
use scan_ops::select;
use shapes::next_state;
use std::alloc::{AllocError, Global};

/// An odd number. Its multiples lie far apart mod 2^64.
const FAR: u64 = 0xD134_2543_DE82_EF95;

/// Neighbouring keys lie so far apart. It is a prime.
const STRIDE: u64 = 7919;

/// How many numbers the rows of a percentage are drawn from.
const PARTS: u64 = 1_000_000;

/// What is to be done.
#[derive(Clone, Copy)]
pub struct Work {
    /// The format of all operands.
    pub format: Format,
    pub rows: u64,
    /// A percentage, or a number of keys or groups.
    pub parameter: u64,
    pub rounds: u64,
    /// Whether keys lie far apart.
    pub sparse: bool,
}

/// Numbers below a bound, in no order.
pub fn numbers_below(
    alloc: Global,
    seed: u64,
    count: u64,
    below: u64,
) -> Result<Vec<u64>, AllocError>
    requires { 0 < below }
    ensures count { IfOk result (λ numbers. length numbers.items ≡ count) }
    ensures below { IfOk result (λ numbers. All (λ number. number < below) numbers.items) }
{
    let mut numbers = Vec::with_capacity(alloc, count as usize)?;
    let mut state = seed;
    for _place in 0..count {
        state = next_state(state);
        numbers.push(number_of(state, below))?;
    }
    Ok(numbers)
}

/// The number below a bound that a state stands for.
fn number_of(state: u64, below: u64) -> u64
    requires { 0 < below }
    ensures { result < below }
{
    (state >> 33) % below
}

/// Numbers of which a selection up to `greatest_part` finds so many percent.
pub fn parts(alloc: Global, seed: u64, count: u64) -> Result<Vec<u64>, AllocError>
    ensures { IfOk result (λ numbers. length numbers.items ≡ count) }
{
    numbers_below(alloc, seed, count, PARTS)
}

/// The greatest part of so many percent.
pub fn greatest_part(percent: u64) -> u64 {
    (percent.min(100) * (PARTS / 100)).saturating_sub(1)
}

/// So many percent of the rows, drawn at random, rising.
pub fn drawn_rows(
    alloc: Global,
    seed: u64,
    count: u64,
    percent: u64,
) -> Result<Vec<u64>, AllocError>
    ensures places { IfOk result (λ rows. ArePlaces count rows.items) }
    ensures few { IfOk result (λ rows. length rows.items ≤ count) }
    ensures below { IfOk result (λ rows. All (λ row. row < count) rows.items) }
{
    let numbers = parts(alloc, seed, count)?;
    let rows = select::<8>(alloc, numbers.as_slice(), 0, greatest_part(percent))?;
    Ok(rows.into_vec())
}

/// Each so many-th row.
pub fn every(alloc: Global, count: u64, step: u64) -> Result<Vec<u64>, AllocError>
    requires few { count ≤ max_rows }
    requires some { 0 < step }
    ensures few { IfOk result (λ rows. length rows.items ≤ max_rows) }
    ensures below { IfOk result (λ rows. All (λ row. row < count) rows.items) }
{
    let mut rows = Vec::new(alloc);
    for row in 0..count {
        if row % step == 0 {
            rows.push(row)?;
        }
    }
    Ok(rows)
}

/// So many distinct keys, in no order.
pub fn keys_of(alloc: Global, count: u64, sparse: bool) -> Result<Vec<u64>, AllocError>
    ensures { IfOk result (λ keys. length keys.items ≤ max_rows) }
{
    let most = count.max(1).min(MAX_ROWS);
    let mut keys = vec![in alloc; 0; most as usize]?;
    for (place, key) in keys.iter_mut().enumerate() {
        *key = (place as u64).wrapping_mul(STRIDE) % most;
    }
    if sparse {
        spread(keys.as_mut_slice());
    }
    Ok(keys)
}

/// A foreign key over so many keys.
pub fn foreign_keys(
    alloc: Global,
    rows: u64,
    keys: u64,
    sparse: bool,
) -> Result<Vec<u64>, AllocError>
    requires { 0 < keys }
    ensures { IfOk result (λ numbers. length numbers.items ≡ rows) }
{
    let mut numbers = numbers_below(alloc, 1, rows, keys)?;
    if sparse {
        spread(numbers.as_mut_slice());
    }
    Ok(numbers)
}

/// Puts numbers far apart.
fn spread(numbers: &mut [u64])
    ensures { length numbers.new ≡ length numbers.old }
{
    for number in numbers.iter_mut() {
        *number = number.wrapping_mul(FAR);
    }
}
