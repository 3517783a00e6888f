//! Values through the bound of an emitter, and through nothing else.

ghost use Rattle.std.specs.Prelude.{◌≡◌, ◌-◌, ◌<◌, ◌≤◌, true, [], length, take, drop, OnOk};
ghost use Rattle.definitions_blocks.specs.Columns.{max_rows};

use block_core::Emit;
use std::alloc::AllocError;

/// Pushes the values one by one.
pub fn push_each<E: Emit>(into: &mut E, values: &[u64]) -> Result<(), AllocError>
    requires empty { E.pushed into.old [] }
    requires few { length values.now ≤ max_rows }
    requires in_scope { E.scope (E.frame into.old) values.now ≡ true }
    ensures { OnOk result (E.pushed into.new values.now) }
{
    for value in values {
        into.push(*value)?;
    }
    Ok(())
}

/// Pushes the values in pieces of so many.
pub fn push_pieces<E: Emit>(into: &mut E, values: &[u64], piece: usize) -> Result<(), AllocError>
    requires empty { E.pushed into.old [] }
    requires few { length values.now ≤ max_rows }
    requires some { 0 < piece }
    requires small { piece ≤ max_rows }
    requires in_scope { E.scope (E.frame into.old) values.now ≡ true }
    ensures { OnOk result (E.pushed into.new values.now) }
{
    let mut taken = 0;
    while taken < values.len() {
        let end = values.len().min(taken + piece);
        into.extend(part(values, taken, end))?;
        taken = end;
    }
    Ok(())
}

/// The values from a place on, up to an end.
fn part(values: &[u64], start: usize, end: usize) -> &[u64]
    requires ends { end ≤ length values.now }
    requires starts { start ≤ end }
    ensures { result.now ≡ take (end - start) (drop start values.now) }
{
    &values[start..end]
}
