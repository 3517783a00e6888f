//! The columns of a schema by name.

ghost use Rattle.std.specs.Prelude.{◌≡◌, ℕ, List, option_copied, IfOk, OnOk};
ghost use Rattle.std.specs.List.{find};
ghost use Rattle.std.specs.Str.{bytes_eq};
ghost use Rattle.catalog_core.specs.LawfulSchemas.{IsSchema};
ghost use Rattle.catalog_core.specs.Columns.{column_at};
ghost use Rattle.query_text.specs.Views.{word_view};
ghost use Rattle.query_bind.specs.Binding.{column_name, kind_of, key_of, is_key, column_named, column_of};
ghost use Rattle.query_bind.specs.NameMaps.{value_of, with_name};

use crate::name_maps::NameMap;
use catalog_core::{ColumnDef, ColumnId, Kind, Needs, Schema};
use query_text::Word;
use std::alloc::{AllocError, Global};
use std::marker::Model;

/// The columns of a schema, which are found by the hash of their names.
#[derive(Drop)]
pub struct ColumnIndex<'a> {
    schema: &'a Schema,
    columns: NameMap<'a, ColumnId>,
}

impl<'a> Model for ColumnIndex<'a> {
    ghost use Rattle.catalog_core.specs.declared.schemas.Schema.{Schema as Described};
    ghost use Rattle.query_bind.specs.Indexes.{IsIndex};

    ghost Value = { Described };

    ghost view = { λ index. index.schema.now };

    ghost invariant = { λ index. IsIndex index.schema.now index.columns };
}

/// A column of the schema.
fn definition<'a>(schema: &'a Schema, id: ColumnId) -> Option<&'a ColumnDef>
    ensures { option_copied result ≡ column_at schema.entry.now id }
{
    let table = schema.tables.as_slice().get(id.table as usize)?;
    table.columns.as_slice().get(id.column as usize)
}

/// The name of a column of the schema.
fn name_of<'a>(schema: &'a Schema, id: ColumnId) -> &'a [u8]
    ensures { result.now ≡ column_name schema.entry.now id }
{
    match definition(schema, id) {
        Some(column) => column.name.as_str().as_bytes(),
        None => &[],
    }
}

/// The place of a table's key.
fn key_of(schema: &Schema, table: u32) -> Option<u32>
    ensures { result ≡ key_of schema.now table }
{
    match schema.tables.as_slice().get(table as usize) {
        Some(table) => table.key,
        None => None,
    }
}

/// Adds a column.
fn add_column<'a>(
    columns: &mut NameMap<'a, ColumnId>,
    schema: &'a Schema,
    id: ColumnId,
) -> Result<(), AllocError>
    ensures { OnOk result (columns.new ≡ with_name columns.old (column_name schema.now id) id) }
{
    columns.insert(name_of(schema, id), id)?;
    Ok(())
}

/// The columns by name. Of two with one name it would have the first.
fn columns_by_name<'a>(
    alloc: Global,
    schema: &'a Schema,
    ids: &[ColumnId],
) -> Result<NameMap<'a, ColumnId>, AllocError>
    ensures { IfOk result (λ names. (name : List ℕ) → value_of names name ≡ find (λ id. bytes_eq name (column_name schema.now id)) ids.now) }
{
    let mut columns = NameMap::new(alloc);
    for place in 0..ids.len() {
        add_column(&mut columns, schema, ids[place])?;
    }
    Ok(columns)
}

impl<'a> ColumnIndex<'a> {
    pub fn new(alloc: Global, schema: &'a Schema) -> Result<ColumnIndex<'a>, AllocError>
        requires { IsSchema schema.now }
        ensures { IfOk result (λ index. index ≡ schema.entry.now) }
    {
        let needs = Needs::of_all(alloc, schema)?;
        let columns = columns_by_name(alloc, schema, needs.columns.as_slice())?;
        Ok(ColumnIndex { schema, columns })
    }

    /// The column of a name.
    pub fn column_named(&self, name: &[u8]) -> Option<ColumnId>
        ensures { result ≡ column_named self.now name.now }
    {
        self.columns.get(name)
    }

    /// The column of a name that is there; else the schema's first column.
    pub fn column_of(&self, word: &Word) -> ColumnId
        ensures { result ≡ column_of self.now (word_view word.now) }
    {
        self.column_named(word.text.as_slice()).unwrap_or(ColumnId {
            table: 0,
            column: 0,
        })
    }

    pub fn kind_of(&self, id: ColumnId) -> Kind
        ensures { result ≡ kind_of self.now id }
    {
        match definition(self.schema, id) {
            Some(column) => column.kind,
            None => Kind::Number,
        }
    }

    /// Whether the column is the key of its table.
    pub fn is_key(&self, id: ColumnId) -> bool
        ensures { result ≡ is_key self.now id }
    {
        match key_of(self.schema, id.table) {
            Some(key) => id.column == key,
            None => false,
        }
    }
}
