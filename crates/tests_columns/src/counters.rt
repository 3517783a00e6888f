//! An emitter that keeps no list.

ghost use Rattle.std.specs.Prelude.{◌≡◌};

use block_core::Emit;
use std::alloc::AllocError;

/// Counts the values that are pushed, and adds them up mod 2^64.
#[derive(Drop)]
pub struct Counter {
    count: u64,
    total: u64,
}

impl Counter {
    /// A counter of no values.
    pub fn new() -> Counter
        ensures count { result.count ≡ 0 }
        ensures total { result.total ≡ 0 }
    {
        Counter { count: 0, total: 0 }
    }

    pub fn count(&self) -> u64
        ensures { result ≡ self.now.count }
    {
        self.count
    }

    pub fn total(&self) -> u64
        ensures { result ≡ self.now.total }
    {
        self.total
    }
}

impl Emit for Counter {
    ghost use Rattle.std.specs.Prelude.{true, refl};
    ghost use Rattle.tests_columns.specs.Counted.{IsCountOf};

    ghost Frame = { Unit {0} };

    ghost frame = { λ _. tt };

    ghost pushed = { λ counter list. IsCountOf counter.count counter.total list };

    ghost scope = { λ _ _. true };

    ghost room = { λ _ _. true };

    fn push(&mut self, value: u64) -> Result<(), AllocError> {
        self.count += 1;
        self.total = self.total.wrapping_add(value);
        Ok(())
    }

    ghost scope_law = { λ _ _ _ _. refl };

    ghost room_law = { λ _ _ _ _. refl };
}
