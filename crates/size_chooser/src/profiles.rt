//! The sizes of the files of the list that is pushed.

ghost use Rattle.std.specs.Prelude.{◌≡◌, true, ℕ, ◌+◌, ◌<◌, ◌≤◌, [], List, length, slice_index};
ghost use Rattle.definitions_blocks.specs.Columns.{max_rows};
ghost use Rattle.definitions_blocks.specs.Formats.{static};
ghost use Rattle.definitions_columns.specs.ColumnFiles.{static_width_of, fits_columns};
ghost use Rattle.block_core.specs.Formats.{format_of, tag_of};
ghost use Rattle.size_chooser.specs.FileSizes.{AreFileLengths, IsLeast, sizes_of};
ghost use Rattle.size_chooser.specs.Profiles.{IsProfileOf};

use crate::sums::BlockSums;
use crate::tallies::Tally;
use block_core::{BLOCK_LEN, Emit, Format};
use std::alloc::AllocError;
use std::marker::Model;
use strand_pack::width_of_values;
use tail_pack::packed_len;

/// What the files of a list would take, found in one pass without making one. It keeps one block, a count and sums, and asks
/// for no memory.
#[derive(Drop)]
pub struct Profile {
    tally: Tally<BlockSums>,
}

impl Model for Profile {
    ghost use Rattle.std.specs.Prelude.{ℕ, List};
    ghost use Rattle.size_chooser.specs.Profiles.{Kept, kept, IsProfileOf};

    ghost Value = { Kept };

    ghost view = { λ profile. kept profile.tally.count profile.tally.block profile.tally.meter };

    ghost invariant = { λ profile. (values : List ℕ) × IsProfileOf (kept profile.tally.count profile.tally.block profile.tally.meter) values };
}

impl Profile {
    /// The profile of no values.
    pub fn new() -> Profile
        ensures { IsProfileOf result [] }
    {
        Profile {
            tally: Tally::new(BlockSums::none()),
        }
    }

    /// How many values were pushed.
    pub fn count(&self) -> u64
        ensures { (values : List ℕ) → IsProfileOf self.now values → result ≡ length values }
    {
        self.tally.count
    }

    /// The least width of the values that make whole blocks.
    pub fn static_width(&self) -> u8
        ensures narrow { result ≤ 64 }
        ensures width { (values : List ℕ) → IsProfileOf self.now values → result ≡ static_width_of static values }
        ensures fits { (values : List ℕ) → IsProfileOf self.now values → fits_columns static result values ≡ true }
    {
        self.tally.meter.width
    }

    /// How many bytes the eight files have, in the order of the tags.
    pub fn sizes(&self) -> [u64; 8]
        ensures sizes { (values : List ℕ) → IsProfileOf self.now values → result ≡ sizes_of values }
        ensures lengths { (values : List ℕ) → IsProfileOf self.now values → AreFileLengths result values }
    {
        let sums = self.tally.meter;
        let waiting = self.tally.block.as_slice();
        let blocks = self.tally.count / BLOCK_LEN as u64;
        let words = 16 + packed_len(waiting.len(), 64) as u64;
        let packed = 16 + packed_len(waiting.len(), width_of_values(waiting)) as u64;
        let indexed = packed + 8 * blocks;
        [
            words + 8192 * blocks,
            packed + 128 * u64::from(sums.width) * blocks,
            indexed + sums.dynamic,
            indexed + sums.runs,
            indexed + sums.delta1_dynamic,
            indexed + sums.delta16_dynamic,
            indexed + sums.reference_dynamic,
            indexed + sums.delta1_runs,
        ]
    }

    /// The format whose file is the shortest, and of several the one with the lowest tag.
    pub fn least(&self) -> Format
        ensures { (values : List ℕ) → IsProfileOf self.now values → IsLeast values (format_of result) }
    {
        format_at(least_place(&self.sizes()))
    }
}

impl Emit for Profile {
    ghost use Rattle.std.specs.Prelude.{◌+◌, ◌<◌, ◌≤◌, ◌++◌, ◌∷◌, [], ℕ, List, length, true, IsOk};
    ghost use Rattle.definitions_blocks.specs.Columns.{max_rows};
    ghost use Rattle.size_chooser.specs.Profiles.{IsProfileOf};

    ghost Frame = { Unit {0} };

    ghost frame = { λ _. tt };

    ghost pushed = { IsProfileOf };

    ghost scope = { λ _ _. true };

    ghost room = { λ _ _. true };

    fn push(&mut self, value: u64) -> Result<(), AllocError>
        requires { (list : List ℕ) × IsProfileOf self.old list × (length list < max_rows) }
        ensures taken { (list : List ℕ) → IsProfileOf self.old list → IsProfileOf self.new (list ++ value ∷ []) }
        ensures ok { IsOk result }
    {
        self.tally.push(value);
        Ok(())
    }

    fn extend(&mut self, values: &[u64]) -> Result<(), AllocError>
        requires { (list : List ℕ) × IsProfileOf self.old list × (length list + length values.now ≤ max_rows) }
        ensures taken { (list : List ℕ) → IsProfileOf self.old list → IsProfileOf self.new (list ++ values.now) }
        ensures ok { IsOk result }
    {
        self.tally.extend(values);
        Ok(())
    }

    ghost scope_law = { λ _ _ _ e. e };

    ghost room_law = { λ _ _ _ e. e };
}

/// The profile of these values.
pub fn profile_of(values: &[u64]) -> Profile
    requires { length values.now ≤ max_rows }
    ensures { IsProfileOf result values.now }
{
    let mut tally = Tally::new(BlockSums::none());
    tally.extend(values);
    Profile { tally }
}

/// The place of the least number, and of several the first.
fn least_place(numbers: &[u64]) -> usize
    requires { 0 < length numbers.now }
    ensures within { result < length numbers.now }
    ensures least { (place : ℕ) → place < length numbers.now → slice_index numbers.now result ≤ slice_index numbers.now place }
    ensures first { (place : ℕ) → place < result → slice_index numbers.now result < slice_index numbers.now place }
{
    let mut least = 0;
    for place in 1..numbers.len() {
        if numbers[place] < numbers[least] {
            least = place;
        }
    }
    least
}

/// The format of a tag.
fn format_at(tag: usize) -> Format
    requires { tag < 8 }
    ensures { tag_of result ≡ tag }
{
    Format::ALL[tag]
}
