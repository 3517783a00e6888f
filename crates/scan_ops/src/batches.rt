//! Values on their way to an emitter.

ghost use Rattle.std.specs.Prelude.{◌≡◌, ℕ, ◌+◌, ◌<◌, ◌≤◌, ◌++◌, ◌∷◌, [], true, List, take, length, IsOk, OnOk, OnErr};
ghost use Rattle.definitions_blocks.specs.Columns.{max_rows};
ghost use Rattle.scan_ops.specs.Batches.{HoldsWith};

use block_core::{BLOCK_LEN, Block, Emit};
use std::alloc::AllocError;
use std::marker::Model;

/// Up to a block of values that wait to be handed over to an emitter by one call. So a call for each value stays short, as long as each batch
/// goes with one emitter.
#[derive(Drop)]
pub struct Batch {
    block: Block,
}

impl Model for Batch {
    ghost use Rattle.std.specs.Prelude.{List, ℕ};

    ghost Value = { List ℕ };

    ghost view = { λ batch. batch.block };
}

impl Batch {
    /// No values.
    pub fn new() -> Batch
        ensures { result ≡ [] }
    {
        Batch {
            block: Block::new(),
        }
    }

    /// Adds a value. If a block of values waits, they are handed over first.
    #[inline]
    pub fn push<O: Emit>(&mut self, value: u64, out: &mut O) -> Result<(), AllocError>
        requires { (list : List ℕ) × HoldsWith (O.pushed out.old) self.old list × (length list ≤ max_rows) × (O.scope (O.frame out.old) list ≡ true) }
        ensures ok { OnOk result ((list : List ℕ) → HoldsWith (O.pushed out.old) self.old list → HoldsWith (O.pushed out.new) self.new (list ++ value ∷ [])) }
        ensures err { OnErr result ((list : List ℕ) → HoldsWith (O.pushed out.old) self.old list → (n : ℕ) × O.pushed out.new (take n list)) }
        ensures sure { (list : List ℕ) → HoldsWith (O.pushed out.old) self.old list → O.room (O.frame out.old) list ≡ true → IsOk result }
        ensures frame { O.frame out.new ≡ O.frame out.old }
    {
        if self.block.as_slice().len() == BLOCK_LEN {
            self.flush(out)?;
        }
        self.block.push(value);
        Ok(())
    }

    /// Hands over what waits.
    pub fn flush<O: Emit>(&mut self, out: &mut O) -> Result<(), AllocError>
        requires { (list : List ℕ) × HoldsWith (O.pushed out.old) self.old list × (length list ≤ max_rows) × (O.scope (O.frame out.old) list ≡ true) }
        ensures ok { OnOk result ((list : List ℕ) → HoldsWith (O.pushed out.old) self.old list → O.pushed out.new list) }
        ensures empty { OnOk result (self.new ≡ []) }
        ensures err { OnErr result ((list : List ℕ) → HoldsWith (O.pushed out.old) self.old list → (n : ℕ) × O.pushed out.new (take n list)) }
        ensures sure { (list : List ℕ) → HoldsWith (O.pushed out.old) self.old list → O.room (O.frame out.old) list ≡ true → IsOk result }
        ensures frame { O.frame out.new ≡ O.frame out.old }
    {
        out.extend(self.block.as_slice())?;
        self.block.clear();
        Ok(())
    }
}
