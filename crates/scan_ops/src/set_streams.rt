//! Intersections and unions of position lists that are decoded block by block.
//!
//! One block of each list is held. `meet` and `merge` go through what was not used of the two, until one of them is used up or the room is
//! full, and what they wrote is handed over by one call.

ghost use Rattle.std.specs.Prelude.{◌≡◌, ℕ, ◌+◌, ◌≤◌, [], true, List, take, length, IsOk, OnOk, OnErr};
ghost use Rattle.definitions_blocks.specs.Columns.{max_rows};
ghost use Rattle.definitions_operators.specs.Operators.{intersect, union};
ghost use Rattle.definitions_operators.specs.Positions.{Rises};
ghost use Rattle.definitions_operators.specs.Costs.{block_count};
ghost use Rattle.scan_ops.specs.Batches.{HoldsWith};
ghost use Rattle.scan_ops.specs.Unread.{left_of, IsUnread};

use crate::sets::{meet, merge};
use crate::unread::Unread;
use block_core::{BLOCK_LEN, BlockSource, Emit, Steps};
use std::alloc::AllocError;

/// Emits the numbers that stand in both of two rising lists. It decodes one block of each at a time, each block once, and takes a step for each.
pub fn intersect_fly<A: BlockSource, B: BlockSource, O: Emit, G>(
    left: &mut A,
    right: &mut B,
    out: &mut O,
    steps: &mut Steps<G>,
) -> Result<(), AllocError>
    requires left { Rises (A.list left.old) }
    requires right { Rises (B.list right.old) }
    requires empty { O.pushed out.old [] }
    requires in_scope { O.scope (O.frame out.old) (intersect (A.list left.old) (B.list right.old)) ≡ true }
    ensures ok { OnOk result (O.pushed out.new (intersect (A.list left.old) (B.list right.old))) }
    ensures err { OnErr result ((n : ℕ) × O.pushed out.new (take n (intersect (A.list left.old) (B.list right.old)))) }
    ensures sure { O.room (O.frame out.old) (intersect (A.list left.old) (B.list right.old)) ≡ true → IsOk result }
    ensures frame { O.frame out.new ≡ O.frame out.old }
    ensures kept_left { A.list left.new ≡ A.list left.old }
    ensures kept_right { B.list right.new ≡ B.list right.old }
    ensures later { steps.old ≤ steps.new }
    ensures steps { steps.new ≤ steps.old + block_count (A.list left.old) + block_count (B.list right.old) }
{
    let mut unread_left = Unread::all_of(left);
    let mut unread_right = Unread::all_of(right);
    let mut room = [0; BLOCK_LEN];
    loop {
        if !unread_left.fill(left, steps) {
            return Ok(());
        }
        if !unread_right.fill(right, steps) {
            return Ok(());
        }
        let met = meet(unread_left.values(), unread_right.values(), &mut room);
        out.extend(&room[..met.kept])?;
        unread_left.used += met.left;
        unread_right.used += met.right;
    }
}

/// Emits the numbers that stand in one of two rising lists at least, each once. It decodes one block of each at a time, each block once, and
/// takes a step for each.
pub fn union_fly<A: BlockSource, B: BlockSource, O: Emit, G>(
    left: &mut A,
    right: &mut B,
    out: &mut O,
    steps: &mut Steps<G>,
) -> Result<(), AllocError>
    requires left { Rises (A.list left.old) }
    requires right { Rises (B.list right.old) }
    requires few { length (union (A.list left.old) (B.list right.old)) ≤ max_rows }
    requires empty { O.pushed out.old [] }
    requires in_scope { O.scope (O.frame out.old) (union (A.list left.old) (B.list right.old)) ≡ true }
    ensures ok { OnOk result (O.pushed out.new (union (A.list left.old) (B.list right.old))) }
    ensures err { OnErr result ((n : ℕ) × O.pushed out.new (take n (union (A.list left.old) (B.list right.old)))) }
    ensures sure { O.room (O.frame out.old) (union (A.list left.old) (B.list right.old)) ≡ true → IsOk result }
    ensures frame { O.frame out.new ≡ O.frame out.old }
    ensures kept_left { A.list left.new ≡ A.list left.old }
    ensures kept_right { B.list right.new ≡ B.list right.old }
    ensures later { steps.old ≤ steps.new }
    ensures steps { steps.new ≤ steps.old + block_count (A.list left.old) + block_count (B.list right.old) }
{
    let mut unread_left = Unread::all_of(left);
    let mut unread_right = Unread::all_of(right);
    let mut room = [0; BLOCK_LEN];
    loop {
        if !unread_left.fill(left, steps) {
            return emit_rest(right, &mut unread_right, out, steps);
        }
        if !unread_right.fill(right, steps) {
            return emit_rest(left, &mut unread_left, out, steps);
        }
        let merged = merge(unread_left.values(), unread_right.values(), &mut room);
        out.extend(&room[..merged.kept])?;
        unread_left.used += merged.left;
        unread_right.used += merged.right;
    }
}

/// Emits what is left of a list.
fn emit_rest<S: BlockSource, O: Emit, G>(
    source: &mut S,
    unread: &mut Unread,
    out: &mut O,
    steps: &mut Steps<G>,
) -> Result<(), AllocError>
    requires unread { IsUnread (S.list source.old) unread.old }
    requires waits { (whole : List ℕ) × HoldsWith (O.pushed out.old) (left_of (S.list source.old) unread.old) whole × (length whole ≤ max_rows) × (O.scope (O.frame out.old) whole ≡ true) }
    ensures ok { OnOk result ((whole : List ℕ) → HoldsWith (O.pushed out.old) (left_of (S.list source.old) unread.old) whole → O.pushed out.new whole) }
    ensures err { OnErr result ((whole : List ℕ) → HoldsWith (O.pushed out.old) (left_of (S.list source.old) unread.old) whole → (n : ℕ) × O.pushed out.new (take n whole)) }
    ensures sure { (whole : List ℕ) → HoldsWith (O.pushed out.old) (left_of (S.list source.old) unread.old) whole → O.room (O.frame out.old) whole ≡ true → IsOk result }
    ensures frame { O.frame out.new ≡ O.frame out.old }
    ensures kept { S.list source.new ≡ S.list source.old }
    ensures later { steps.old ≤ steps.new }
    ensures steps { steps.new + unread.old.next ≤ steps.old + block_count (S.list source.old) }
{
    while unread.fill(source, steps) {
        out.extend(unread.values())?;
        unread.used = unread.block.as_slice().len();
    }
    Ok(())
}
