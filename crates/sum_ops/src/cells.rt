//! One cell for each sum.

ghost use Rattle.std.specs.Prelude.{◌≡◌, ℕ, ◌+◌, ◌*◌, ◌^◌, ◌<◌, ◌≤◌, [], ◌∷◌, true, length, take, replicate, slice_index, slice_set, IsOk, IfOk, IfErr, OnOk, OnErr, MatchOption};
ghost use Rattle.definitions_blocks.specs.Blocks.{block_values, block_at};
ghost use Rattle.definitions_blocks.specs.Columns.{max_rows};
ghost use Rattle.sum_ops.specs.Cells.{limit, cell_of, AreCells, AreNarrow, IsTooWide};

use block_core::{BLOCK_LEN, Block, Emit};
use std::alloc::{AllocError, Global};
use std::marker::Model;

pub(crate) const LIMIT: u128 = 1 << 64;

/// A sum for each group, in cells of 16 bytes. A cell is the lesser of its sum and 2^64.
#[derive(Drop)]
pub struct Sums {
    cells: Vec<u128>,
}

impl Model for Sums {
    ghost use Rattle.std.specs.Prelude.{List, ℕ, length, ◌≤◌};
    ghost use Rattle.definitions_blocks.specs.Columns.{max_rows};
    ghost use Rattle.sum_ops.specs.Cells.{AreCells};

    ghost Value = { List ℕ };

    ghost view = { λ sums. sums.cells.items };

    ghost invariant = { λ sums. AreCells sums.cells.items × (length sums.cells.items ≤ max_rows) };
}

/// The first cell, from 0, whose sum is 2^64 or more.
#[derive(Clone, Copy)]
pub struct TooWide {
    pub group: u64,
}

impl Sums {
    /// So many cells of zero, at most 268,435,456.
    pub fn new(alloc: Global, groups: u64) -> Result<Sums, AllocError>
        requires { groups ≤ max_rows }
        ensures { IfOk result (λ sums. sums ≡ replicate groups 0) }
    {
        let cells = vec![in alloc; 0; groups as usize]?;
        Ok(Sums { cells })
    }

    /// Adds `value * times` to the group's cell.
    #[inline(always)]
    pub fn add(&mut self, group: u64, value: u64, times: u64)
        requires { group < length self.old }
        ensures { self.new ≡ slice_set self.old group (cell_of (slice_index self.old group + value * times)) }
    {
        let cell = &mut self.cells[group as usize];
        *cell = (*cell + u128::from(value) * u128::from(times)).min(LIMIT);
    }

    /// The group's sum. It is `None` exactly if the sum is 2^64 or more.
    pub fn value(&self, group: u64) -> Option<u64>
        requires { group < length self.now }
        ensures { MatchOption result (IsTooWide (slice_index self.now group)) (λ total. (total ≡ slice_index self.now group) × (total < limit)) }
    {
        u64::try_from(self.cells[group as usize]).ok()
    }

    /// Whether all sums are below 2^64, or the first that is not.
    pub fn check(&self) -> Result<(), TooWide>
        ensures ok { OnOk result (AreNarrow self.now) }
        ensures group { IfErr result (λ wide. wide.group < length self.now) }
        ensures wide { IfErr result (λ wide. IsTooWide (slice_index self.now wide.group)) }
        ensures first { IfErr result (λ wide. (id : ℕ) → id < wide.group → slice_index self.now id < limit) }
    {
        for (group, cell) in self.cells.iter().enumerate() {
            if *cell >= LIMIT {
                return Err(TooWide {
                    group: group as u64,
                });
            }
        }
        Ok(())
    }

    /// Emits the sums in order. All of them must be below 2^64, as `check` says.
    pub fn emit<O: Emit>(&self, out: &mut O) -> Result<(), AllocError>
        requires narrow { AreNarrow self.now }
        requires empty { O.pushed out.old [] }
        requires in_scope { O.scope (O.frame out.old) self.now ≡ true }
        ensures ok { OnOk result (O.pushed out.new self.now) }
        ensures err { OnErr result ((n : ℕ) × O.pushed out.new (take n self.now)) }
        ensures sure { O.room (O.frame out.old) self.now ≡ true → IsOk result }
        ensures frame { O.frame out.new ≡ O.frame out.old }
    {
        let mut words = Block::new();
        for number in 0..self.cells.len().div_ceil(BLOCK_LEN) {
            self.read_block(number, &mut words);
            out.extend(words.as_slice())?;
        }
        Ok(())
    }

    /// Leaves the sums of the block of this number in `words`.
    fn read_block(&self, number: usize, words: &mut Block)
        requires narrow { AreNarrow self.now }
        requires within { number * block_values < length self.now }
        ensures { words.new ≡ block_at self.now number }
    {
        let cells = self.cells.as_slice();
        let first = number * BLOCK_LEN;
        let count = BLOCK_LEN.min(cells.len() - first);
        words.clear();
        for cell in &cells[first..first + count] {
            words.push(*cell as u64);
        }
    }

    /// Tells a proof what cells are, and costs nothing.
    #[inline(always)]
    pub fn tell_cells(&self)
        ensures { AreCells self.now }
    {
        let _cells = self.cells.as_slice();
    }

    /// Adds a total to the only cell.
    pub(crate) fn add_total(&mut self, total: u128)
        requires one { length self.old ≡ 1 }
        requires fits { total < 2 ^ 127 }
        ensures { self.new ≡ cell_of (slice_index self.old 0 + total) ∷ [] }
    {
        let cell = &mut self.cells[0];
        *cell = (*cell + total).min(LIMIT);
    }
}
