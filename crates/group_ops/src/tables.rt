//! The table that numbers groups.

ghost use Rattle.std.specs.Prelude.{◌≡◌, ◌≤◌, not, [], IfOk, OnOk, OnErr};
ghost use Rattle.std.specs.List.{list_any};
ghost use Rattle.block_core.specs.Counts.{next_count};
ghost use Rattle.definitions_operators.specs.Groups.{with_item};
ghost use Rattle.group_ops.specs.Pairs.{same_pair, number_in, HasEachOnce};

use block_core::Steps;
use indexmap::IndexSet;
use std::alloc::{AllocError, Global};
use std::marker::Model;

/// Pairs of an earlier group and a value, numbered in the order in which they came first. It keeps its allocator. A pair takes 16 bytes, and its place in
/// a hash table 15 to 22 more.
#[derive(Drop)]
pub struct GroupTable {
    pairs: IndexSet<(u64, u64)>,
}

impl Model for GroupTable {
    ghost use Rattle.std.specs.Prelude.{List, ℕ};
    ghost use Rattle.group_ops.specs.Pairs.{HasEachOnce};

    ghost Value = { List (ℕ × ℕ) };

    ghost view = { λ table. table.pairs.keys };

    ghost invariant = { λ table. HasEachOnce table.pairs.keys };
}

/// The number of a pair.
#[derive(Clone, Copy, Debug, PartialEq, Eq, Drop)]
pub struct GroupNumber {
    pub number: u64,
    /// Whether the pair was not in the table before.
    pub fresh: bool,
}

impl GroupTable {
    /// A table without pairs. It takes no memory.
    pub fn new(alloc: Global) -> GroupTable
        ensures { result ≡ [] }
    {
        GroupTable {
            pairs: IndexSet::new(alloc),
        }
    }

    /// Takes all pairs out. The memory stays, for the next pass.
    pub fn clear(&mut self)
        ensures { self.new ≡ [] }
    {
        self.pairs.clear();
    }

    /// The number of a pair, which is added if it is not there. `before` is 0 if there is no earlier group. It is one probe, and takes one step.
    pub fn number<G>(
        &mut self,
        before: u64,
        value: u64,
        steps: &mut Steps<G>,
    ) -> Result<GroupNumber, AllocError>
        ensures number { IfOk result (λ found. found.number ≡ number_in self.old (before, value)) }
        ensures fresh { IfOk result (λ found. found.fresh ≡ not (list_any (same_pair (before, value)) self.old)) }
        ensures pairs { OnOk result (self.new ≡ with_item same_pair self.old (before, value)) }
        ensures unchanged { OnErr result (self.new ≡ self.old) }
        ensures steps { steps.new ≡ next_count steps.old }
        ensures later { steps.old ≤ steps.new }
    {
        steps.tick();
        self.probe(before, value)
    }

    /// The same without a step.
    #[inline]
    pub(crate) fn probe(&mut self, before: u64, value: u64) -> Result<GroupNumber, AllocError>
        ensures number { IfOk result (λ found. found.number ≡ number_in self.old (before, value)) }
        ensures fresh { IfOk result (λ found. found.fresh ≡ not (list_any (same_pair (before, value)) self.old)) }
        ensures pairs { OnOk result (self.new ≡ with_item same_pair self.old (before, value)) }
        ensures unchanged { OnErr result (self.new ≡ self.old) }
    {
        let (place, fresh) = self.pairs.insert_full((before, value))?;
        Ok(GroupNumber {
            number: place as u64,
            fresh,
        })
    }

    /// Tells a proof that no pair is there twice, and does nothing.
    #[inline(always)]
    pub fn tell(&self)
        ensures { HasEachOnce self.now }
    {
        let _ = &self.pairs;
    }
}
