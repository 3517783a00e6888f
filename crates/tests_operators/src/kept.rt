//! An emitter that keeps its list, and refuses to grow past a length.

ghost use Rattle.std.specs.Prelude.{◌≡◌, [], IfOk};

use crate::checks::is_front;
use block_core::Emit;
use std::alloc::{AllocError, Global};

/// Keeps the values that are pushed, as long as they are no more than the limit. One more is refused, as if memory were wanting.
#[derive(Drop)]
pub struct Kept {
    values: Vec<u64>,
    limit: usize,
}

impl Kept {
    /// No values, and room for so many.
    pub fn new(alloc: Global, limit: usize) -> Kept
        ensures { result.values.items ≡ [] }
    {
        Kept {
            values: Vec::new(alloc),
            limit,
        }
    }

    pub fn values(&self) -> &[u64]
        ensures { result.now ≡ self.now.values.items }
    {
        self.values.as_slice()
    }

    /// Whether these are the values so far, or begin with them.
    pub fn is_front(&self, whole: &[u64]) -> bool {
        is_front(self.values(), whole)
    }

    /// Whether some of the values are missing.
    pub fn is_cut(&self, whole: &[u64]) -> bool {
        self.values.len() < whole.len()
    }
}

impl Emit for Kept {
    ghost use Rattle.std.specs.Prelude.{◌≡◌, true, false, refl};

    ghost Frame = { Unit {0} };

    ghost frame = { λ _. tt };

    ghost pushed = { λ kept list. kept.values.items ≡ list };

    ghost scope = { λ _ _. true };

    ghost room = { λ _ _. false };

    fn push(&mut self, value: u64) -> Result<(), AllocError> {
        if self.values.len() >= self.limit {
            return Err(AllocError);
        }
        self.values.push(value)?;
        Ok(())
    }

    ghost scope_law = { λ _ _ _ _. refl };

    ghost room_law = { λ _ _ _ holds. holds };
}
