//! Sums of a block.
//!
//! The halves of the words are added apart: neither sum of 1,024 halves comes near 2^64, so no value needs a carry, and several
//! are added at once.

ghost use Rattle.std.specs.Prelude.{◌≡◌, ◌≤◌, ◌*◌, ◌^◌, length, sum, IfSome};
ghost use Rattle.definitions_blocks.specs.Blocks.{block_values};
ghost use Rattle.definitions_operators.specs.Groups.{products_of};
ghost use Rattle.sum_ops.specs.Cells.{cell_of};

use crate::cells::LIMIT;

const HALF: u64 = 0xffff_ffff;

/// The sum of a block.
pub(crate) fn block_sum(values: &[u64]) -> u128
    requires { length values.now ≤ block_values }
    ensures sum { result ≡ sum values.now }
    ensures small { result ≤ length values.now * 2 ^ 64 }
{
    let mut low: u64 = 0;
    let mut high: u64 = 0;
    for value in values {
        low += *value & HALF;
        high += *value >> 32;
    }
    u128::from(low) + u128::from(high) * (1 << 32)
}

/// The sum of the products of two blocks, row by row. If it is 2^64 or more, another number from 2^64 on may stand for it.
pub(crate) fn block_product(first: &[u64], second: &[u64]) -> u128
    requires few { length first.now ≤ block_values }
    requires same { length first.now ≡ length second.now }
    ensures cell { cell_of result ≡ cell_of (sum (products_of first.now second.now)) }
    ensures small { result ≤ length first.now * 2 ^ 64 }
{
    match narrow_product(first, second) {
        Some(total) => total,
        None => wide_product(first, second),
    }
}

/// The sum of the products, unless a value is 2^32 or more.
fn narrow_product(first: &[u64], second: &[u64]) -> Option<u128>
    requires few { length first.now ≤ block_values }
    requires same { length first.now ≡ length second.now }
    ensures sum { IfSome result (λ total. total ≡ sum (products_of first.now second.now)) }
    ensures small { IfSome result (λ total. total ≤ length first.now * 2 ^ 64) }
{
    let mut low: u64 = 0;
    let mut high: u64 = 0;
    let mut above: u64 = 0;
    for row in 0..first.len() {
        let product = (first[row] & HALF) * (second[row] & HALF);
        low += product & HALF;
        high += product >> 32;
        above += (first[row] >> 32) + (second[row] >> 32);
    }
    if above > 0 {
        return None;
    }
    Some(u128::from(low) + u128::from(high) * (1 << 32))
}

/// The sum of the products, each the lesser of itself and 2^64.
fn wide_product(first: &[u64], second: &[u64]) -> u128
    requires few { length first.now ≤ block_values }
    requires same { length first.now ≡ length second.now }
    ensures cell { cell_of result ≡ cell_of (sum (products_of first.now second.now)) }
    ensures small { result ≤ length first.now * 2 ^ 64 }
{
    let mut total: u128 = 0;
    for row in 0..first.len() {
        total += (u128::from(first[row]) * u128::from(second[row])).min(LIMIT);
    }
    total
}
