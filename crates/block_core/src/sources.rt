//! Sources of lists: by blocks, and by places.

ghost use Rattle.std.specs.Prelude.{◌≡◌, ℕ, ◌+◌, ◌*◌, ◌<◌, ◌≤◌, List, All, map, length, slice_index};
ghost use Rattle.definitions_blocks.specs.Columns.{max_rows};
ghost use Rattle.definitions_blocks.specs.Blocks.{block_values, block_at};
ghost use Rattle.block_core.specs.Counts.{next_count};

use crate::{Block, Steps};

/// A list that is read a block at a time, in any order.
pub trait BlockSource {
    /// The list that the source stands for.
    ghost list: { Self → List ℕ };

    /// How many values there are, at most 268,435,456.
    fn count(&self) -> u64
        ensures count { result ≡ length (list self.now) }
        ensures few { length (list self.now) ≤ max_rows };

    /// Leaves the values of the block of this number in `into`, at most 1,024. It takes one step.
    fn block<G>(&mut self, number: u64, into: &mut Block, steps: &mut Steps<G>)
        requires { number * block_values < length (list self.old) }
        ensures values { into.new ≡ block_at (list self.old) number }
        ensures list { list self.new ≡ list self.old }
        ensures steps { steps.new ≡ next_count steps.old }
        ensures later { steps.old ≤ steps.new };
}

/// A list of which single values are looked up.
pub trait PlaceSource {
    /// The list that the source stands for.
    ghost list: { Self → List ℕ };

    /// How many values there are.
    fn count(&self) -> u64
        ensures { result ≡ length (list self.now) };

    /// The value at a place. It takes at most one step.
    fn value_at<G>(&mut self, place: u64, steps: &mut Steps<G>) -> u64
        requires { place < length (list self.old) }
        ensures value { result ≡ slice_index (list self.old) place }
        ensures list { list self.new ≡ list self.old }
        ensures later { steps.old ≤ steps.new }
        ensures steps { steps.new ≤ next_count steps.old };

    /// Looks up the value at each of the places, which may come in any order, and gives them as the first of `found`. It takes at
    /// most a step for each. A source overrides it to ask once, and not for each place, how its list is kept.
    fn look_up<'a, G>(
        &mut self,
        places: &[u64],
        found: &'a mut [u64],
        steps: &mut Steps<G>,
    ) -> &'a [u64]
        requires within { All (λ place. place < length (list self.old)) places.now }
        requires room { length places.now ≤ length found.old }
        ensures values { result.now ≡ map (λ place. slice_index (list self.old) place) places.now }
        ensures list { list self.new ≡ list self.old }
        ensures later { steps.old ≤ steps.new }
        ensures steps { steps.new ≤ steps.old + length places.now }
    {
        for index in 0..places.len() {
            found[index] = self.value_at(places[index], steps);
        }
        &found[..places.len()]
    }
}
