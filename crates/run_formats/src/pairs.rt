//! The runs of a block, one after the other.

ghost use Rattle.std.specs.Prelude.{ℕ, List};
ghost use Rattle.std.specs.Iterator.{YieldsFirstBy, item_count};
ghost use Rattle.definitions_blocks.specs.Runs.{AreRunsOf, IsRunsBlock};
ghost use Rattle.run_formats.specs.Cells.{run_of, runs_left};

use crate::cells::{cells_of, length_of, run_count_in, value_of};

/// Walks the runs of a borrowed block: the value and the length of each.
#[derive(Clone, Copy)]
pub struct RunIter<'a> {
    cells: &'a [[u8; 10]],
}

impl<'a> RunIter<'a> {
    /// The runs of the block that these bytes encode.
    pub fn new(bytes: &'a [u8]) -> RunIter<'a>
        requires { (values : List ℕ) × IsRunsBlock values bytes.now }
        ensures { (values : List ℕ) → IsRunsBlock values bytes.now → AreRunsOf (runs_left result) values }
    {
        RunIter {
            cells: cells_of(bytes, run_count_in(bytes)),
        }
    }
}

impl<'a> Iterator for RunIter<'a> {
    type Item = (u64, u16);

    ghost next_gives = { YieldsFirstBy run_of runs_left };

    ghost remaining = { item_count runs_left };

    fn next(&mut self) -> Option<(u64, u16)> {
        let (cell, rest) = self.cells.split_first()?;
        self.cells = rest;
        Some((value_of(cell), length_of(cell)))
    }
}
