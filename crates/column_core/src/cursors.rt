//! A column read a block at a time.

ghost use Rattle.std.specs.Prelude.{◌≡◌};

use crate::columns::Column;
use block_core::{Block, BlockSource, Steps};
use std::marker::Model;

/// Reads a column's blocks, straight into the block that is lent. The lane width changes no value.
#[derive(Drop)]
pub struct Cursor<'a, const L: usize> {
    column: &'a Column,
}

impl<'a, const L: usize> Model for Cursor<'a, L> {
    ghost use Rattle.std.specs.Prelude.{List, ℕ};

    ghost Value = { List ℕ };

    ghost view = { λ cursor. cursor.column.now.values };
}

impl<'a, const L: usize> Cursor<'a, L> {
    pub fn new(column: &'a Column) -> Cursor<'a, L>
        ensures { result ≡ column.entry.now.values }
    {
        Cursor { column }
    }
}

impl<'a, const L: usize> BlockSource for Cursor<'a, L> {
    ghost list = { λ cursor. cursor };

    fn count(&self) -> u64 {
        self.column.count()
    }

    fn block<G>(&mut self, number: u64, into: &mut Block, steps: &mut Steps<G>) {
        steps.tick();
        self.column.read_block::<L>(number, into);
    }
}
