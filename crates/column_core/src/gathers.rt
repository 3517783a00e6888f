//! A column of which values are looked up by their places.

ghost use Rattle.std.specs.Prelude.{◌≡◌, ◌+◌, ◌/◌, ◌<◌, ◌≤◌, All, map, length, take, slice_index};
ghost use Rattle.definitions_blocks.specs.Blocks.{block_values, block_at};
ghost use Rattle.block_core.specs.Counts.{next_count, later_count};

use crate::columns::Column;
use block_core::{BLOCK_LEN, Block, Format, PlaceSource, Steps};
use std::marker::Model;

/// If one value in so many is asked for, picking them costs about as much as decoding the block.
const SPARSE: u64 = 16;

/// The same of a block of runs, of which a part is read for each pick.
const SPARSE_RUNS: u64 = 32;

/// The same of differences to the value 16 places before, of which up to 64 are added up for each pick.
const SPARSE_DELTA16: u64 = 128;

/// The minimum of values that are picked from a block before it is decoded.
const MIN_PICKS: u64 = 8;

/// Looks values of a column up by their places, in any order. A value of a `plain` column is read where it stands. In any other
/// format the block that was decoded last is held, and its values are read there. If the format lets single values be picked
/// from the bytes, a block is decoded only after many of its values were picked.
#[derive(Drop)]
pub struct Gather<'a, const L: usize> {
    column: &'a Column,
    block: Block,
    held: u64,
    picked: u64,
    picks: u64,
}

impl<'a, const L: usize> Model for Gather<'a, L> {
    ghost use Rattle.std.specs.Prelude.{◌≡◌, ◌*◌, ◌<◌, List, ℕ, length};
    ghost use Rattle.definitions_blocks.specs.Blocks.{block_values, block_at};

    ghost Value = { List ℕ };

    ghost view = { λ gather. gather.column.now.values };

    ghost invariant = { λ gather. gather.held * block_values < length gather.column.now.values →
        gather.block ≡ block_at gather.column.now.values gather.held };
}

impl<'a, const L: usize> Gather<'a, L> {
    pub fn new(column: &'a Column) -> Gather<'a, L>
        ensures { result ≡ column.entry.now.values }
    {
        Gather {
            column,
            block: Block::new(),
            // the number of no block
            held: column.count(),
            picked: 0,
            picks: 0,
        }
    }

    /// The values at places, as the first of `found`, in any format but `plain`.
    fn values(&mut self, places: &[u64], found: &mut [u64])
        requires within { All (λ place. place < length self.old) places.now }
        requires room { length places.now ≤ length found.old }
        ensures values { take (length places.now) found.new ≡ map (λ place. slice_index self.old place) places.now }
        ensures length { length found.new ≡ length found.old }
        ensures list { self.new ≡ self.old }
    {
        for index in 0..places.len() {
            found[index] = self.value(places[index]);
        }
    }

    /// The value at a place, from the block that is held if it is there.
    #[inline(always)]
    fn value(&mut self, place: u64) -> u64
        requires { place < length self.old }
        ensures value { result ≡ slice_index self.old place }
        ensures list { self.new ≡ self.old }
    {
        let number = place / BLOCK_LEN as u64;
        let offset = place % BLOCK_LEN as u64;
        if self.held == number {
            return self.block.as_slice()[offset as usize];
        }
        self.find(place)
    }

    /// The value at a place whose block is not held. It is a call of its own, so that a look-up in the block that is held, or in a
    /// plain column, stays short.
    #[inline(never)]
    fn find(&mut self, place: u64) -> u64
        requires { place < length self.old }
        ensures value { result ≡ slice_index self.old place }
        ensures list { self.new ≡ self.old }
    {
        let number = place / BLOCK_LEN as u64;
        let offset = place % BLOCK_LEN as u64;
        if number < self.column.whole_blocks() {
            self.value_in(number, offset)
        } else {
            self.column.tail_value(offset)
        }
    }

    /// The value at a place of the block of this number.
    fn value_in(&mut self, number: u64, place: u64) -> u64
        requires whole { number < length self.old / block_values }
        requires within { place < block_values }
        ensures value { result ≡ slice_index (block_at self.old number) place }
        ensures list { self.new ≡ self.old }
    {
        if self.may_pick(number, place) {
            if let Some(value) = self.column.pick(number, place) {
                return value;
            }
        }
        self.column.read_block::<L>(number, &mut self.block);
        self.held = number;
        self.block.as_slice()[place as usize]
    }

    /// Counts one more pick from a block, unless there were too many up to this place.
    fn may_pick(&mut self, number: u64, place: u64) -> bool
        ensures { self.new ≡ self.old }
    {
        if self.picked != number {
            self.picked = number;
            self.picks = 0;
        }
        if self.picks >= MIN_PICKS && self.picks > place / self.sparse() {
            return false;
        }
        self.picks += 1;
        true
    }

    /// If one value in so many is asked for, picking them costs about as much as decoding the block. It is at least 16.
    fn sparse(&self) -> u64
        ensures { 16 ≤ result }
    {
        match self.column.format() {
            Format::Runs => SPARSE_RUNS,
            Format::Delta16Dynamic => SPARSE_DELTA16,
            _ => SPARSE,
        }
    }
}

impl<'a, const L: usize> PlaceSource for Gather<'a, L> {
    ghost list = { λ gather. gather };

    fn count(&self) -> u64 {
        self.column.count()
    }

    // A source may count less than one step for a look-up. This one counts each.
    fn value_at<G>(&mut self, place: u64, steps: &mut Steps<G>) -> u64
        requires { place < length self.old }
        ensures value { result ≡ slice_index self.old place }
        ensures list { self.new ≡ self.old }
        ensures counted { steps.new ≡ next_count steps.old }
        ensures later { steps.old ≤ steps.new }
        ensures steps { steps.new ≤ next_count steps.old }
    {
        steps.tick();
        match self.column.format() {
            Format::Plain => self.column.word(place),
            _ => self.value(place),
        }
    }

    // The format is looked at once.
    fn look_up<'b, G>(
        &mut self,
        places: &[u64],
        found: &'b mut [u64],
        steps: &mut Steps<G>,
    ) -> &'b [u64]
        requires within { All (λ place. place < length self.old) places.now }
        requires room { length places.now ≤ length found.old }
        ensures values { result.now ≡ map (λ place. slice_index self.old place) places.now }
        ensures list { self.new ≡ self.old }
        ensures counted { steps.new ≡ later_count steps.old (length places.now) }
        ensures later { steps.old ≤ steps.new }
        ensures steps { steps.new ≤ steps.old + length places.now }
    {
        steps.tick_by(places.len() as u64);
        match self.column.format() {
            Format::Plain => self.column.words(places, found),
            _ => self.values(places, found),
        }
        &found[..places.len()]
    }
}
