//! Names with a value each, which are found by their hash.

ghost use Rattle.std.specs.Prelude.{◌≡◌, [], not, OnOk, OnErr, IfOk};
ghost use Rattle.query_bind.specs.NameMaps.{value_of, is_among, Adds};

use indexmap::IndexMap;
use std::alloc::{AllocError, Global};
use std::marker::Model;

/// Names, none twice, with a value each, in the order in which they were added. They are borrowed, so a name is never copied.
#[derive(Drop)]
pub struct NameMap<'a, V> {
    entries: IndexMap<&'a [u8], V>,
}

impl<'a, V> Model for NameMap<'a, V> {
    ghost use Rattle.std.specs.Prelude.{List as Items, ℕ};
    ghost use Rattle.query_bind.specs.NameMaps.{entries_of};

    ghost Value = { Items (Items ℕ × V) };

    ghost view = { λ names. entries_of names.entries.entries };
}

impl<'a, V: Copy + Drop> NameMap<'a, V> {
    pub fn new(alloc: Global) -> NameMap<'a, V>
        ensures { result ≡ [] }
    {
        NameMap {
            entries: IndexMap::new(alloc),
        }
    }

    /// The value of a name, if it is one of the names.
    pub fn get(&self, name: &[u8]) -> Option<V>
        ensures { result ≡ value_of self.now name.now }
    {
        self.entries.get(name).copied()
    }

    /// Adds a name with its value, and says whether it is new. A name that is there already keeps its value.
    pub fn insert(&mut self, name: &'a [u8], value: V) -> Result<bool, AllocError>
        ensures added { OnOk result (Adds self.old name.entry.now value self.new) }
        ensures fresh { IfOk result (λ fresh. fresh ≡ not (is_among self.old name.entry.now)) }
        ensures unchanged { OnErr result (self.new ≡ self.old) }
    {
        if self.entries.contains_key(name) {
            return Ok(false);
        }
        self.entries.insert(name, value)?;
        Ok(true)
    }
}
