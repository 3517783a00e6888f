//! The aliases of sums, which are found by their order.

ghost use Rattle.std.specs.Prelude.{◌≡◌, [], not, OnOk, OnErr, IfOk};
ghost use Rattle.query_bind.specs.NameMaps.{value_of, is_among, Adds};

use std::alloc::{AllocError, Global};
use std::collections::BTreeMap;
use std::marker::Model;

/// Aliases, none twice, each with the number of its sum, in the order in which they were added. They are borrowed, so none is copied.
///
/// A query can hold any aliases, also many whose hashes are equal, so they are found in a tree. Names of columns are the schema's.
#[derive(Drop)]
pub struct AliasMap<'a> {
    entries: Vec<(&'a [u8], u32)>,
    numbers: BTreeMap<&'a [u8], u32>,
}

impl<'a> Model for AliasMap<'a> {
    ghost use Rattle.std.specs.Prelude.{List as Items, ℕ};
    ghost use Rattle.query_bind.specs.NameMaps.{entries_of};
    ghost use Rattle.query_bind.specs.Aliases.{HasNumbers};

    ghost Value = { Items (Items ℕ × ℕ) };

    ghost view = { λ aliases. entries_of aliases.entries.items };

    ghost invariant = { λ aliases. HasNumbers aliases.numbers (entries_of aliases.entries.items) };
}

impl<'a> AliasMap<'a> {
    pub fn new(alloc: Global) -> AliasMap<'a>
        ensures { result ≡ [] }
    {
        AliasMap {
            entries: Vec::new(alloc),
            numbers: BTreeMap::new(alloc),
        }
    }

    /// The number of an alias, if it is one of the aliases.
    pub fn get(&self, name: &[u8]) -> Option<u32>
        ensures { result ≡ value_of self.now name.now }
    {
        self.numbers.get(name).copied()
    }

    /// Adds an alias with its number, and says whether it is new. One that is there already keeps its number.
    pub fn insert(&mut self, name: &'a [u8], number: u32) -> Result<bool, AllocError>
        ensures added { OnOk result (Adds self.old name.entry.now number self.new) }
        ensures fresh { IfOk result (λ fresh. fresh ≡ not (is_among self.old name.entry.now)) }
        ensures unchanged { OnErr result (self.new ≡ self.old) }
    {
        if self.numbers.contains_key(name) {
            return Ok(false);
        }
        self.entries.reserve(1)?;
        self.numbers.insert(name, number)?;
        self.entries.push_reserved((name, number));
        Ok(true)
    }
}
