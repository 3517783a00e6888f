//! Lists through the bounds of the traits that stand for them, and through nothing else.

ghost use Rattle.std.specs.Prelude.{◌≡◌, ℕ, ◌≤◌, true, [], length, take, IsOk, OnOk, OnErr};
ghost use Rattle.definitions_blocks.specs.Columns.{max_rows};
ghost use Rattle.tests_columns.specs.Squares.{squares};

use block_core::{Block, BlockSource, Emit, PlaceSource, Steps};
use std::alloc::{AllocError, Global};

/// The values of all blocks of a source, one after the other.
pub fn blocks_of<S: BlockSource>(alloc: Global, source: &mut S) -> Result<Vec<u64>, AllocError> {
    let mut steps = Steps::start(alloc);
    let mut block = Block::new();
    let mut values = Vec::new(alloc);
    for number in 0..source.count().div_ceil(1024) {
        source.block(number, &mut block, &mut steps);
        values.extend_from_slice(block.as_slice())?;
    }
    Ok(values)
}

/// The values at those of the places that the source has, one after the other.
pub fn looked_up<P: PlaceSource>(
    alloc: Global,
    source: &mut P,
    places: &[u64],
) -> Result<Vec<u64>, AllocError> {
    let mut steps = Steps::start(alloc);
    let mut values = Vec::new(alloc);
    let count = source.count();
    for place in places {
        if *place < count {
            values.push(source.value_at(*place, &mut steps))?;
        }
    }
    Ok(values)
}

/// The values of a list at those of the places that it has, one after the other.
pub fn picked(alloc: Global, values: &[u64], places: &[u64]) -> Result<Vec<u64>, AllocError> {
    let mut picked = Vec::new(alloc);
    for place in places {
        if let Some(value) = values.get(*place as usize) {
            picked.push(*value)?;
        }
    }
    Ok(picked)
}

/// Pushes the values in order.
pub fn push_all<E: Emit>(into: &mut E, values: &[u64]) -> Result<(), AllocError>
    requires empty { E.pushed into.old [] }
    requires few { length values.now ≤ max_rows }
    requires in_scope { E.scope (E.frame into.old) values.now ≡ true }
    ensures ok { OnOk result (E.pushed into.new values.now) }
    ensures err { OnErr result ((n : ℕ) × E.pushed into.new (take n values.now)) }
    ensures frame { E.frame into.new ≡ E.frame into.old }
    ensures sure { E.room (E.frame into.old) values.now ≡ true → IsOk result }
{
    into.extend(values)
}

/// Pushes the squares of the numbers below this one.
pub fn push_squares<E: Emit>(into: &mut E, below: u64) -> Result<(), AllocError>
    requires empty { E.pushed into.old [] }
    requires few { below ≤ max_rows }
    requires in_scope { E.scope (E.frame into.old) (squares below) ≡ true }
    ensures ok { OnOk result (E.pushed into.new (squares below)) }
    ensures err { OnErr result ((n : ℕ) × E.pushed into.new (take n (squares below))) }
    ensures frame { E.frame into.new ≡ E.frame into.old }
    ensures sure { E.room (E.frame into.old) (squares below) ≡ true → IsOk result }
{
    for number in 0..below {
        into.push(number * number)?;
    }
    Ok(())
}
