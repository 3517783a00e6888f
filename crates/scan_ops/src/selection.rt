//! Selections: the rows whose value is in a range.
//!
//! A branch on values in no order is guessed wrong every other time, which costs more than all the rest. So each row of a
//! block is written into room on the stack, where the next row takes its place unless the value was in the range.

ghost use Rattle.std.specs.Prelude.{◌≡◌, ℕ, ◌+◌, ◌*◌, ◌^◌, ◌<◌, ◌≤◌, ◌++◌, [], true, All, map, take, length, slice_index, IfOk, IsOk, OnOk, OnErr};
ghost use Rattle.definitions_operators.specs.Costs.{block_count};
ghost use Rattle.definitions_operators.specs.Operators.{is_within, positions_in};
ghost use Rattle.definitions_operators.specs.Positions.{IsPositionList};

use crate::place_tests::{PlaceTest, emit_places};
use block_core::{BlockSource, Emit, Steps};
use std::alloc::{AllocError, Global};
use stream_core::List;

/// How many rows are written before those that stay are appended. Their 8 KiB stay in the nearest cache.
const BLOCK_LEN: usize = 1024;

/// The position list of the values from `low` to `high`. The lane width `L` changes nothing in the result.
pub fn select<const L: usize>(
    alloc: Global,
    values: &[u64],
    low: u64,
    high: u64,
) -> Result<List<u64>, AllocError>
    ensures positions { IfOk result (λ positions. positions ≡ positions_in low high values.now) }
    ensures list { IfOk result (IsPositionList (λ place. is_within low high (slice_index values.now place)) (length values.now)) }
    ensures within { IfOk result (λ positions. All (λ position. position < length values.now) positions) }
{
    let positions = positions_of(alloc, values, low, high)?;
    Ok(List::from_vec(positions))
}

#[tactic(auto, using(definitions_operators::proofs::PositionLaws::positions_in_none))]
fn positions_of(alloc: Global, values: &[u64], low: u64, high: u64) -> Result<Vec<u64>, AllocError>
    ensures { IfOk result (λ positions. positions.items ≡ positions_in low high values.now) }
{
    let mut positions = Vec::new(alloc);
    if low <= high {
        append_positions(&mut positions, values, low, high)?;
    }
    Ok(positions)
}

fn append_positions(
    positions: &mut Vec<u64>,
    values: &[u64],
    low: u64,
    high: u64,
) -> Result<(), AllocError>
    requires { low ≤ high }
    ensures { OnOk result (positions.new.items ≡ positions.old.items ++ positions_in low high values.now) }
{
    let mut rows = [0; BLOCK_LEN];
    let mut first = 0;
    while first < values.len() {
        let end = first + BLOCK_LEN.min(values.len() - first);
        let kept = mark(&values[first..end], first as u64, low, high, &mut rows);
        positions.extend_from_slice(&rows[..kept])?;
        first = end;
    }
    Ok(())
}

/// Writes the rows of the values in the range to the front of the room, and says how many they are.
fn mark(values: &[u64], first: u64, low: u64, high: u64, rows: &mut [u64]) -> usize
    requires order { low ≤ high }
    requires room { length values.now ≤ length rows.old }
    requires fits { first + length values.now < 2 ^ 64 }
    ensures count { result ≤ length values.now }
    ensures rows { take result rows.new ≡ map (λ place. first + place) (positions_in low high values.now) }
{
    let mut kept = 0;
    let mut row = first;
    for value in values {
        rows[kept] = row;
        row += 1;
        kept += usize::from(is_within(*value, low, high));
    }
    kept
}

/// The values from `low` to `high`; none if `high` is less.
#[derive(Clone, Copy)]
struct Range {
    low: u64,
    high: u64,
}

impl PlaceTest for Range {
    ghost use Rattle.definitions_operators.specs.Operators.{is_within};

    ghost passes = { λ range. is_within range.low range.high };

    ghost cost = { λ _. 0 };

    #[tactic(auto, using(definitions_operators::proofs::PositionLaws::positions_in_none))]
    fn mark<G>(
        &self,
        values: &[u64],
        first: u64,
        places: &mut [u64],
        _steps: &mut Steps<G>,
    ) -> usize {
        if self.low > self.high {
            return 0;
        }
        mark(values, first, self.low, self.high, places)
    }
}

/// Emits the places of the values from `low` to `high`, which rise. It decodes one block at a time and takes one step for each. The lane
/// width `L` changes nothing.
pub fn select_fly<const L: usize, S: BlockSource, O: Emit, G>(
    values: &mut S,
    low: u64,
    high: u64,
    out: &mut O,
    steps: &mut Steps<G>,
) -> Result<(), AllocError>
    requires empty { O.pushed out.old [] }
    requires in_scope { O.scope (O.frame out.old) (positions_in low high (S.list values.old)) ≡ true }
    ensures ok { OnOk result (O.pushed out.new (positions_in low high (S.list values.old))) }
    ensures err { OnErr result ((n : ℕ) × O.pushed out.new (take n (positions_in low high (S.list values.old)))) }
    ensures sure { O.room (O.frame out.old) (positions_in low high (S.list values.old)) ≡ true → IsOk result }
    ensures frame { O.frame out.new ≡ O.frame out.old }
    ensures kept { S.list values.new ≡ S.list values.old }
    ensures later { steps.old ≤ steps.new }
    ensures steps { steps.new ≤ steps.old + block_count (S.list values.old) }
{
    emit_places(&Range { low, high }, values, out, steps)
}

/// One comparison does for two, since the difference to `low` wraps around for what is below it.
fn is_within(value: u64, low: u64, high: u64) -> bool
    requires { low ≤ high }
    ensures { result ≡ is_within low high value }
{
    value.wrapping_sub(low) <= high - low
}

#[cfg(test)]
mod tests {
    use super::*;
    use std::test::Fail;

    #[test]
    fn both_ends_of_a_range_are_in_it(rt: HostRuntime) -> Result<(), Fail> {
        let values = [2, 3, 5, 7, 8];
        let some = select::<1>(rt.alloc(), &values, 3, 7)?;
        assert_eq!(rt; some.as_slice(), [1, 2, 3].as_slice(), "from 3 to 7");
        let other_width = select::<3>(rt.alloc(), &values, 3, 7)?;
        assert_eq!(rt;
            other_width.as_slice(),
            [1, 2, 3].as_slice(),
            "from 3 to 7, three lanes"
        );
        let none = select::<16>(rt.alloc(), &values, 7, 3)?;
        assert_eq!(rt; none.as_slice().len(), 0, "from 7 to 3");
        Ok(())
    }

    #[test]
    fn rows_go_on_behind_a_block(rt: HostRuntime) -> Result<(), Fail> {
        let mut values = vec![in rt.alloc(); 0; 1024]?;
        values.extend_from_slice(&[u64::MAX, 0, u64::MAX])?;
        let found = select::<8>(rt.alloc(), values.as_slice(), 1, u64::MAX)?;
        assert_eq!(rt; found.as_slice(), [1024, 1026].as_slice());
        Ok(())
    }
}
