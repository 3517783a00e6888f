//! Rounds over a column that is read by blocks or by places.

ghost use Rattle.std.specs.Prelude.{◌≡◌, ◌<◌, ◌*◌, length, All, IfOk};
ghost use Rattle.block_core.specs.Formats.{format_of};

use block_core::{BLOCK_LEN, Block, BlockSource, PlaceSource, Steps};
use column_core::{Column, Cursor, Gather};
use shapes::next_state;
use std::alloc::{AllocError, Global};

/// Of how many places one is looked up.
const SPARSE: u64 = 3;

/// Decodes every block in each round, and adds up a value of each.
pub fn cursor_rounds<G>(column: &Column, rounds: u64, steps: &mut Steps<G>) -> u64 {
    let mut block = Block::new();
    let mut sum = 0u64;
    for round in 0..rounds {
        sum = sum.wrapping_add(cursor_round(column, (round & 1023) as usize, &mut block, steps));
    }
    sum
}

/// Decodes every block, and adds up the value at a place of each that has it.
fn cursor_round<G>(column: &Column, place: usize, block: &mut Block, steps: &mut Steps<G>) -> u64 {
    let mut cursor = Cursor::<8>::new(column);
    let mut sum = 0u64;
    for number in 0..column.count().div_ceil(BLOCK_LEN as u64) {
        cursor.block(number, block, steps);
        if let Some(value) = block.as_slice().get(place) {
            sum = sum.wrapping_add(*value);
        }
    }
    sum
}

/// Places below the count, for every third value one, rising or random.
pub fn places_of(alloc: Global, random: bool, count: u64) -> Result<Vec<u64>, AllocError>
    ensures { IfOk result (λ places. All (λ place. place < count) places.items) }
{
    let mut places = Vec::new(alloc);
    let mut state = 1;
    for step in 0..count / SPARSE {
        state = next_state(state);
        let place = if random {
            (state >> 33) % count
        } else {
            SPARSE * step
        };
        places.push(place)?;
    }
    Ok(places)
}

/// Looks the places up in each round, and adds up the values.
pub fn gather_rounds<G>(column: &Column, places: &[u64], rounds: u64, steps: &mut Steps<G>) -> u64
    requires { All (λ place. place < length column.now.values) places.now }
{
    let mut gather = Gather::<8>::new(column);
    let mut sum = 0u64;
    for _ in 0..rounds {
        for place in places {
            sum = sum.wrapping_add(gather.value_at(*place, steps));
        }
    }
    sum
}
