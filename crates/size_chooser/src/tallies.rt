//! What any pass over a list keeps: a count, the values after the last whole block, and what its meter keeps of the blocks.

ghost use Rattle.std.specs.Prelude.{◌≡◌, ◌+◌, ◌<◌, ◌≤◌, ◌++◌, ◌∷◌, [], ℕ, List, length, take, drop};
ghost use Rattle.definitions_blocks.specs.Blocks.{block_values};
ghost use Rattle.definitions_blocks.specs.Columns.{max_rows};
ghost use Rattle.size_chooser.specs.Tallies.{IsSplit, IsTallyOf};

use block_core::{BLOCK_LEN, Block};

/// What is measured of full blocks, one after the other.
pub trait Meter {
    /// What no block changes, as the format that is measured.
    ghost Frame: { Type 0 };

    ghost frame: { Self → Frame };

    /// That the list is the blocks that were added so far.
    ghost measured: { Self → List ℕ → Type 0 };

    /// Adds a block.
    fn add(&mut self, block: &[u64])
        requires full { length block.now ≡ block_values }
        requires room { (blocks : List ℕ) × measured self.old blocks × (length blocks + length block.now ≤ max_rows) }
        ensures added { (blocks : List ℕ) → measured self.old blocks → measured self.new (blocks ++ block.now) }
        ensures frame { frame self.new ≡ frame self.old };
}

/// A list that is read value by value: how many values there were, those after the last whole block, and what the meter has
/// measured of the whole blocks.
#[derive(Drop)]
pub struct Tally<M> {
    pub count: u64,
    pub block: Block,
    pub meter: M,
}

impl<M: Meter> Tally<M> {
    /// The tally of no values, with a meter that has measured none.
    pub fn new(meter: M) -> Tally<M>
        requires { M.measured meter [] }
        ensures none { IsTallyOf M.measured result.count result.block result.meter [] }
        ensures meter { result.meter ≡ meter }
    {
        Tally {
            count: 0,
            block: Block::new(),
            meter,
        }
    }

    /// Takes a value.
    pub fn push(&mut self, value: u64)
        requires { (list : List ℕ) × IsTallyOf M.measured self.old.count self.old.block self.old.meter list
            × (length list < max_rows) }
        ensures taken { (list : List ℕ) → IsTallyOf M.measured self.old.count self.old.block self.old.meter list →
            IsTallyOf M.measured self.new.count self.new.block self.new.meter (list ++ value ∷ []) }
        ensures frame { M.frame self.new.meter ≡ M.frame self.old.meter }
    {
        self.block.push(value);
        self.count += 1;
        self.close();
    }

    /// Takes values. Whole blocks among them are measured where they stand, and only those that wait are copied.
    pub fn extend(&mut self, values: &[u64])
        requires { (list : List ℕ) × IsTallyOf M.measured self.old.count self.old.block self.old.meter list
            × (length list + length values.now ≤ max_rows) }
        ensures taken { (list : List ℕ) → IsTallyOf M.measured self.old.count self.old.block self.old.meter list →
            IsTallyOf M.measured self.new.count self.new.block self.new.meter (list ++ values.now) }
        ensures frame { M.frame self.new.meter ≡ M.frame self.old.meter }
    {
        let mut taken = 0;
        while taken < values.len() {
            taken += self.take_some(rest_from(values, taken));
        }
    }

    /// Takes some of the first values, and says how many they are.
    fn take_some(&mut self, values: &[u64]) -> usize
        requires some { 0 < length values.now }
        requires room { (list : List ℕ) × IsTallyOf M.measured self.old.count self.old.block self.old.meter list
            × (length list + length values.now ≤ max_rows) }
        ensures some { 0 < result }
        ensures within { result ≤ length values.now }
        ensures taken { (list : List ℕ) → IsTallyOf M.measured self.old.count self.old.block self.old.meter list →
            IsTallyOf M.measured self.new.count self.new.block self.new.meter (list ++ take result values.now) }
        ensures frame { M.frame self.new.meter ≡ M.frame self.old.meter }
    {
        let waiting = self.block.as_slice().len();
        if waiting == 0 && values.len() >= BLOCK_LEN {
            self.take_block(first_of(values, BLOCK_LEN));
            return BLOCK_LEN;
        }
        let count = values.len().min(BLOCK_LEN - waiting);
        self.block.append(first_of(values, count));
        self.count += count as u64;
        self.close();
        count
    }

    /// Takes a whole block. No values wait.
    fn take_block(&mut self, block: &[u64])
        requires full { length block.now ≡ block_values }
        requires none { self.old.block ≡ [] }
        requires room { (list : List ℕ) × IsTallyOf M.measured self.old.count self.old.block self.old.meter list
            × (length list + length block.now ≤ max_rows) }
        ensures taken { (list : List ℕ) → IsTallyOf M.measured self.old.count self.old.block self.old.meter list →
            IsTallyOf M.measured self.new.count self.new.block self.new.meter (list ++ block.now) }
        ensures frame { M.frame self.new.meter ≡ M.frame self.old.meter }
    {
        self.meter.add(block);
        self.count += BLOCK_LEN as u64;
    }

    /// Measures the values that wait if they are a whole block.
    fn close(&mut self)
        requires fits { length self.old.block ≤ block_values }
        requires room { (list : List ℕ) × IsSplit M.measured self.old.block self.old.meter list × (length list ≤ max_rows) }
        ensures count { self.new.count ≡ self.old.count }
        ensures short { length self.new.block < block_values }
        ensures split { (list : List ℕ) → IsSplit M.measured self.old.block self.old.meter list →
            IsSplit M.measured self.new.block self.new.meter list }
        ensures frame { M.frame self.new.meter ≡ M.frame self.old.meter }
    {
        if self.block.as_slice().len() == BLOCK_LEN {
            self.meter.add(self.block.as_slice());
            self.block.clear();
        }
    }
}

/// The first values.
fn first_of(values: &[u64], count: usize) -> &[u64]
    requires { count ≤ length values.now }
    ensures { result.now ≡ take count values.now }
{
    &values[..count]
}

/// The values from a place on.
fn rest_from(values: &[u64], place: usize) -> &[u64]
    requires { place ≤ length values.now }
    ensures { result.now ≡ drop place values.now }
{
    &values[place..]
}
