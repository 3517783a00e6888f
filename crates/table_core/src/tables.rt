//! The tables of a schema, with what is there of them.

ghost use Rattle.std.specs.Prelude.{◌≡◌, ◌≢◌, ◌<◌, ◌≤◌, ◌^◌, ◌↔◌, Some, None, IsSome, IfSome, IfOk, OnOk, OnErr, IsErrOf, IsTrue, false, is_some, length, replicate, option_map, option_copied, slice_get, slice_set, nat_eq};
ghost use Rattle.std.specs.List.{IsDistinct};
ghost use Rattle.catalog_core.specs.Columns.{column_at};
ghost use Rattle.catalog_core.specs.LawfulSchemas.{IsSchema};
ghost use Rattle.catalog_core.specs.declared.schemas.ColumnDef.{ColumnDef};
ghost use Rattle.catalog_core.specs.Dictionaries.{AreTexts};
ghost use Rattle.catalog_core.specs.declared.schemas.Schema as schemas;
ghost use Rattle.definitions_outcomes.specs.Computed.{and_then};
ghost use Rattle.table_core.specs.Tables.{state_of, IsSoundSlot, Stored, nothing_yet, started, placed, rows_of, slot_at, stored_at, column_of, texts_of, key_values, are_codes, AreSound, IsAwaited, emptied, StartsOnly, PutsOnly};
ghost use Rattle.table_core.specs.Views.{stored_of, state_of_table};
ghost use Rattle.table_core.specs.Held.{AreTablesOf, HasEqualKeys, is_text};

use crate::codes::has_codes;
use crate::errors::{KeyError, PutError};
use crate::keys::check_values;
use catalog_core::{ColumnId, Dictionary, Schema, TableDef};
use column_core::Column;
use std::alloc::{AllocError, Global};
use std::marker::Model;

/// A column, and its dictionary if it is a text column.
#[derive(Drop)]
pub struct StoredColumn {
    pub column: Column,
    pub dictionary: Option<Dictionary>,
}

/// A table: the place of its key, its row count once that is known, and its columns as far as they are there.
#[derive(Drop)]
struct Table {
    key: Option<u32>,
    rows: Option<u64>,
    columns: Vec<Option<StoredColumn>>,
}

/// What is there of the tables of a schema. A column that is there has a value for each row and only codes of its dictionary.
#[derive(Drop)]
pub struct Tables {
    tables: Vec<Table>,
}

impl Model for Tables {
    ghost use Rattle.std.specs.Prelude.{List as Items, map};
    ghost use Rattle.table_core.specs.Tables.{TableState, AreSound};
    ghost use Rattle.table_core.specs.Views.{states_of};

    ghost Value = { Items TableState };

    ghost view = { λ t. states_of t.tables.items };

    ghost invariant = { λ t. AreSound (states_of t.tables.items) };
}

impl Tables {
    /// The tables of the schema, of which nothing is there yet. Memory is taken here, for all columns, and not later.
    pub fn new(alloc: Global, schema: &Schema) -> Result<Tables, AllocError>
        requires { IsSchema schema.now }
        ensures empty { IfOk result (λ tables. tables ≡ nothing_yet schema.now) }
        ensures of { IfOk result (AreTablesOf schema.now) }
    {
        let definitions = schema.tables.as_slice();
        let mut tables = Vec::with_capacity(alloc, definitions.len())?;
        for definition in definitions {
            tables.push(table_of(alloc, definition)?)?;
        }
        Ok(Tables { tables })
    }

    /// Sets a table's row count.
    pub fn start(&mut self, table: u32, rows: u64)
        requires within { table < length self.old }
        requires unset { rows_of self.old table ≡ None }
        ensures started { self.new ≡ started self.old table rows }
        ensures only { StartsOnly table rows self.old self.new }
        ensures of { (schema : schemas.Schema) → AreTablesOf schema self.old → AreTablesOf schema self.new }
    {
        let one = &mut self.tables[table as usize];
        one.rows = Some(rows);
    }

    /// Puts a column at its place, with a dictionary if it is a text column. It is moved and not copied, and no memory is taken. With a
    /// dictionary its values are decoded once, block by block. A refusal changes nothing.
    pub fn put(
        &mut self,
        id: ColumnId,
        column: Column,
        dictionary: Option<Dictionary>,
    ) -> Result<(), PutError>
        requires { IsAwaited self.old id }
        ensures ok { OnOk result (self.new ≡ placed self.old id (record { column = column; texts = dictionary })) }
        ensures only { OnOk result (PutsOnly id (Some (record { column = column; texts = dictionary })) self.old self.new) }
        ensures of { (schema : schemas.Schema) → AreTablesOf schema self.old → IfSome (column_at schema id) (λ definition. is_some dictionary ≡ is_text definition.kind) → AreTablesOf schema self.new }
        ensures length { IsErrOf result PutError.Length ↔ (rows_of self.old id.table ≢ Some (length column.values)) }
        ensures bad_code { IsErrOf result PutError.BadCode ↔ ((rows_of self.old id.table ≡ Some (length column.values)) × (are_codes dictionary column.values ≡ false)) }
        ensures unchanged { OnErr result (self.new ≡ self.old) }
    {
        if self.rows(id.table) != Some(column.count()) {
            return Err(PutError::Length);
        }
        if !has_codes(*self.tables.allocator(), dictionary.as_ref(), &column) {
            return Err(PutError::BadCode);
        }
        let table = &mut self.tables[id.table as usize];
        table.columns[id.column as usize] = Some(StoredColumn { column, dictionary });
        Ok(())
    }

    /// Takes a column with its dictionary out, if it is there. Neither is copied.
    pub fn take(&mut self, id: ColumnId) -> Option<StoredColumn>
        ensures taken { option_map stored_of result ≡ stored_at self.old id }
        ensures sound { IfSome result (λ one. IsSoundSlot (rows_of self.old id.table) (Some (stored_of one))) }
        ensures left { IfSome result (λ one. self.new ≡ emptied self.old id) }
        ensures only { IfSome result (λ one. PutsOnly id None self.old self.new) }
        ensures of { (schema : schemas.Schema) → AreTablesOf schema self.old → AreTablesOf schema self.new }
        ensures unchanged { (result ≡ None) → (self.new ≡ self.old) }
    {
        let place = id.table as usize;
        if place >= self.tables.len() {
            return None;
        }
        let table = &mut self.tables[place];
        take_at(&mut table.columns, id.column as usize)
    }

    /// A table's row count, if it is known.
    pub fn rows(&self, table: u32) -> Option<u64>
        ensures { result ≡ rows_of self.now table }
    {
        match self.tables.get(table as usize) {
            Some(table) => table.rows,
            None => None,
        }
    }

    /// What is there of a column.
    fn stored(&self, id: ColumnId) -> Option<&StoredColumn>
        ensures stored { option_map (λ stored. stored_of stored.now) result ≡ stored_at self.entry.now id }
        ensures sound { IfSome result (λ stored. IsSoundSlot (rows_of self.entry.now id.table) (Some (stored_of stored.now))) }
    {
        match self.tables.get(id.table as usize) {
            Some(table) => stored_in(table.columns.as_slice(), id.column as usize),
            None => None,
        }
    }

    /// A column, if it is there.
    pub fn column(&self, id: ColumnId) -> Option<&Column>
        ensures column { option_map (λ column. column.now) result ≡ column_of self.entry.now id }
        ensures whole { IfSome result (λ column. rows_of self.entry.now id.table ≡ Some (length column.now.values)) }
        ensures codes { IfSome result (λ column. IsTrue (are_codes (texts_of self.entry.now id) column.now.values)) }
    {
        match self.stored(id) {
            Some(stored) => Some(&stored.column),
            None => None,
        }
    }

    /// A column's dictionary, if the column is there and has one.
    pub fn dictionary(&self, id: ColumnId) -> Option<&Dictionary>
        ensures texts { option_map (λ dictionary. dictionary.now) result ≡ texts_of self.entry.now id }
        ensures lawful { IfSome result (λ dictionary. AreTexts dictionary.now) }
    {
        match self.stored(id) {
            Some(stored) => lawful(stored.dictionary.as_ref()),
            None => None,
        }
    }

    /// Whether no two rows of a table have one key. The key's values are copied once and sorted, so this takes memory for one
    /// list, and a time of n log n.
    pub fn check_key(&self, alloc: Global, table: u32) -> Result<(), KeyError>
        requires { IsSome (key_values self.now table) }
        ensures ok { OnOk result (IfSome (key_values self.now table) (IsDistinct nat_eq)) }
        ensures repeated { IsErrOf result KeyError.Repeated → IfSome (key_values self.now table) HasEqualKeys }
    {
        check_values(alloc, self.key_column(table).unwrap())
    }

    /// The column of a table's key, if it is there.
    fn key_column(&self, table: u32) -> Option<&Column>
        ensures { option_map (λ column. column.now.values) result ≡ key_values self.entry.now table }
    {
        let column = self.tables.get(table as usize)?.key?;
        self.column(ColumnId { table, column })
    }
}

/// A table of which nothing is there yet.
fn table_of(alloc: Global, definition: &TableDef) -> Result<Table, AllocError>
    ensures { IfOk result (λ table. state_of_table table ≡ state_of definition.now) }
{
    let columns = no_columns(alloc, definition.columns.as_slice().len())?;
    Ok(Table {
        key: definition.key,
        rows: None,
        columns,
    })
}

/// So many columns, none of which is there.
fn no_columns(alloc: Global, count: usize) -> Result<Vec<Option<StoredColumn>>, AllocError>
    ensures { IfOk result (λ columns. columns.items ≡ replicate count None) }
{
    let mut columns = Vec::with_capacity(alloc, count)?;
    for _ in 0..count {
        columns.push(None)?;
    }
    Ok(columns)
}

/// What is there at a place.
fn stored_in(columns: &[Option<StoredColumn>], place: usize) -> Option<&StoredColumn>
    ensures { option_copied result ≡ and_then (slice_get columns.entry.now place) (λ slot. slot) }
{
    match columns.get(place) {
        Some(slot) => slot.as_ref(),
        None => None,
    }
}

/// Takes what is there at a place out.
fn take_at(columns: &mut Vec<Option<StoredColumn>>, place: usize) -> Option<StoredColumn>
    ensures taken { result ≡ and_then (slice_get columns.old.items place) (λ slot. slot) }
    ensures left { columns.new.items ≡ slice_set columns.old.items place None }
{
    if place >= columns.len() {
        return None;
    }
    columns[place].take()
}

/// The same dictionary. That its texts are lawful is known from its count.
fn lawful(dictionary: Option<&Dictionary>) -> Option<&Dictionary>
    ensures same { result ≡ dictionary.entry }
    ensures lawful { IfSome result (λ dictionary. AreTexts dictionary.now) }
{
    match dictionary {
        Some(dictionary) => {
            let _count = dictionary.count();
            Some(dictionary)
        }
        None => None,
    }
}

#[cfg(test)]
mod tests;
