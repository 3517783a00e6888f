//! A count of steps, for contracts.

ghost use Rattle.std.specs.Prelude.{◌≡◌, ◌≤◌};
ghost use Rattle.block_core.specs.Counts.{later_count, next_count};

use std::alloc::Global;
use std::marker::{Model, PhantomData};

/// The ledger of the counters that `Steps::start` makes.
pub struct Own;

/// How many steps were taken, on the ledger `G`. A step is a block that was fetched, a value that was looked up, a block
/// that was opened, or a probe of a table. Contracts bound an operator's steps by this count; it stops at 2^64 - 1.
#[derive(Drop)]
pub struct Steps<G> {
    count: u64,
    ledger: PhantomData<G>,
}

impl<G> Model for Steps<G> {
    ghost use Rattle.std.specs.Prelude.{ℕ};

    ghost Value = { ℕ };

    ghost view = { λ steps. steps.count };
}

impl Steps<Own> {
    /// A counter at 0. It takes no memory.
    pub fn start(_alloc: Global) -> Steps<Own>
        ensures { result ≡ 0 }
    {
        Steps {
            count: 0,
            ledger: PhantomData,
        }
    }
}

impl<G> Steps<G> {
    /// Counts one step.
    pub fn tick(&mut self)
        ensures next { self.new ≡ next_count self.old }
        ensures later { self.old ≤ self.new }
    {
        self.count = self.count.saturating_add(1);
    }

    /// Counts so many steps.
    pub fn tick_by(&mut self, steps: u64)
        ensures next { self.new ≡ later_count self.old steps }
        ensures later { self.old ≤ self.new }
    {
        self.count = self.count.saturating_add(steps);
    }
}
