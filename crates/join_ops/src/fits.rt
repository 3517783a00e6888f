//! Whether a join is too large.

ghost use Rattle.std.specs.Prelude.{◌≡◌, ℕ, ◌+◌, ◌*◌, ◌<◌, ◌≤◌, nat_le, length, MatchOption};
ghost use Rattle.definitions_blocks.specs.Columns.{max_rows};
ghost use Rattle.definitions_operators.specs.Costs.{block_count};
ghost use Rattle.definitions_operators.specs.Operators.{places_of, join};
ghost use Rattle.join_ops.specs.Joins.{rights_from};

use crate::key_maps::KeyMap;
use block_core::{BLOCK_LEN, Block, BlockSource, MAX_ROWS, Steps};

/// Whether a join has at most 268,435,456 pairs. It walks the pairs one by one, stops at the first one too many, and takes no memory. It decodes one block
/// of the probe at a time, and takes a step for it and one for each value.
pub fn join_fits<S: BlockSource, G>(probe: &mut S, keys: &KeyMap, steps: &mut Steps<G>) -> bool
    ensures fits { result ≡ nat_le (length (join (S.list probe.old) keys.now)) max_rows }
    ensures kept { S.list probe.new ≡ S.list probe.old }
    ensures later { steps.old ≤ steps.new }
    ensures steps { steps.new ≤ steps.old + block_count (S.list probe.old) + 1 * length (S.list probe.old) }
{
    let mut block = Block::new();
    let mut room = MAX_ROWS;
    let count = probe.count();
    for number in 0..count.div_ceil(BLOCK_LEN as u64) {
        probe.block(number, &mut block, steps);
        steps.tick_by(block.as_slice().len() as u64);
        match room_after(keys, block.as_slice(), room) {
            Some(left) => room = left,
            None => return false,
        }
    }
    true
}

/// How much room the pairs of some values leave, or none if there are more than fit.
fn room_after(keys: &KeyMap, values: &[u64], room: u64) -> Option<u64>
    ensures { MatchOption result (room < length (rights_from keys.now values.now)) (λ left. left + length (rights_from keys.now values.now) ≡ room) }
{
    let mut left = room;
    for value in values {
        match room_after_value(keys, *value, left) {
            Some(rest) => left = rest,
            None => return None,
        }
    }
    Some(left)
}

/// How much room the pairs of a value leave.
fn room_after_value(keys: &KeyMap, value: u64, room: u64) -> Option<u64>
    ensures { MatchOption result (room < length (places_of keys.now value)) (λ left. left + length (places_of keys.now value) ≡ room) }
{
    let mut left = room;
    let mut link = keys.first_link(value);
    while link > 0 {
        if left == 0 {
            return None;
        }
        left -= 1;
        link = keys.next_link(link - 1);
    }
    Some(left)
}
