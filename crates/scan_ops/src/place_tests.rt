//! The places whose value passes a test, block by block.

ghost use Rattle.std.specs.Prelude.{◌≡◌, ℕ, ◌+◌, ◌*◌, ◌^◌, ◌<◌, ◌≤◌, Bool, true, [], map, take, length, IsOk, OnOk, OnErr};
ghost use Rattle.definitions_operators.specs.Operators.{passing_places};
ghost use Rattle.definitions_operators.specs.Costs.{block_count};

use block_core::{BLOCK_LEN, Block, BlockSource, Emit, Steps};
use std::alloc::AllocError;

/// A test of single values, as whether they are in a range, or keys.
pub trait PlaceTest {
    /// Which values pass.
    ghost passes: { Self → ℕ → Bool };

    /// How many steps a value takes at most.
    ghost cost: { Self → ℕ };

    /// Writes the places of the values that pass to the front of `places`, and says how many they are. The first value has the
    /// place `first`.
    fn mark<G>(&self, values: &[u64], first: u64, places: &mut [u64], steps: &mut Steps<G>) -> usize
        requires room { length values.now ≤ length places.old }
        requires fits { first + length values.now < 2 ^ 64 }
        ensures count { result ≤ length values.now }
        ensures places { take result places.new ≡ map (λ place. first + place) (passing_places (passes self.now) values.now) }
        ensures later { steps.old ≤ steps.new }
        ensures steps { steps.new ≤ steps.old + cost self.now * length values.now };
}

/// Emits the places whose value passes the test. It decodes one block at a time, and hands over the places of a block by one
/// call.
pub fn emit_places<T: PlaceTest, S: BlockSource, O: Emit, G>(
    test: &T,
    values: &mut S,
    out: &mut O,
    steps: &mut Steps<G>,
) -> Result<(), AllocError>
    requires empty { O.pushed out.old [] }
    requires in_scope { O.scope (O.frame out.old) (passing_places (T.passes test.now) (S.list values.old)) ≡ true }
    ensures ok { OnOk result (O.pushed out.new (passing_places (T.passes test.now) (S.list values.old))) }
    ensures err { OnErr result ((n : ℕ) × O.pushed out.new (take n (passing_places (T.passes test.now) (S.list values.old)))) }
    ensures sure { O.room (O.frame out.old) (passing_places (T.passes test.now) (S.list values.old)) ≡ true → IsOk result }
    ensures frame { O.frame out.new ≡ O.frame out.old }
    ensures kept { S.list values.new ≡ S.list values.old }
    ensures later { steps.old ≤ steps.new }
    ensures steps { steps.new ≤ steps.old + block_count (S.list values.old) + T.cost test.now * length (S.list values.old) }
{
    let mut block = Block::new();
    let mut places = [0; BLOCK_LEN];
    let count = values.count();
    for number in 0..count.div_ceil(BLOCK_LEN as u64) {
        values.block(number, &mut block, steps);
        let kept = test.mark(
            block.as_slice(),
            number * BLOCK_LEN as u64,
            &mut places,
            steps,
        );
        out.extend(&places[..kept])?;
    }
    Ok(())
}
