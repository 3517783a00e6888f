//! The schema of a text: the top level, then each table with its own keys, its columns and its key, then repeated names.

ghost use Rattle.std.specs.Prelude.{◌≡◌, ◌≢◌, ◌≤◌, ◌<◌, IfOk, IfErr, IfSome, option_map, map, length};
ghost use Rattle.std.specs.List.{position};
ghost use Rattle.toml.specs.View.{view, table_view};
ghost use Rattle.catalog_core.specs.Schemas.{max_tables, max_columns, column_of, columns_of, own_of, key_place, is_key_column, table_of, tables_of, top_in, schema_in, SchemaOf};
ghost use Rattle.definitions_outcomes.specs.Computed.{Answers};
ghost use Rattle.catalog_core.specs.LawfulSchemas.{IsSchema};
ghost use Rattle.catalog_core.specs.Owns.{own_view};

use crate::errors::SchemaError;
use crate::members::{
    flag_of, format_of, has_only, items_of, key_of, kind_of, name_of, repeats_of, role_of,
    separator_of,
};
use crate::names::{column_names, distinct, table_names};
use crate::schemas::{ColumnDef, Kind, Role, Schema, TableDef};
use std::alloc::Global;
use stream_core::{List, Name};
use toml::{Table, Value};

/// How many tables a schema has at most, and how many columns a table.
const MAX_TABLES: usize = 64;

const MAX_COLUMNS: usize = 256;

const TOP_KEYS: [&str; 1] = ["table"];

const TABLE_KEYS: [&str; 8] = [
    "name",
    "role",
    "key",
    "separator",
    "header",
    "trailing",
    "repeats",
    "column",
];

const COLUMN_KEYS: [&str; 3] = ["name", "kind", "format"];

/// A table's own keys.
#[derive(Drop)]
pub(crate) struct Own<'a> {
    name: Name,
    role: Role,
    key: Option<&'a str>,
    separator: u8,
    header: bool,
    trailing: bool,
    repeats: bool,
    columns: &'a [Value],
}

fn column_of(value: &Value) -> Option<ColumnDef>
    ensures { result ≡ column_of (view value.now) }
{
    let keys = value.as_table()?;
    if !has_only(keys, &COLUMN_KEYS) {
        return None;
    }
    Some(ColumnDef {
        name: name_of(keys)?,
        kind: kind_of(keys)?,
        format: format_of(keys)?,
    })
}

fn own_of<'a>(value: &'a Value) -> Option<Own<'a>>
    ensures own { option_map own_view result ≡ own_of (view value.entry.now) }
    ensures few { IfSome result (λ own. length own.columns.now ≤ max_columns) }
{
    let keys = value.as_table()?;
    if !has_only(keys, &TABLE_KEYS) {
        return None;
    }
    let name = name_of(keys)?;
    let role = role_of(keys)?;
    Some(Own {
        name,
        role,
        key: key_of(role, keys)?,
        separator: separator_of(keys)?,
        header: flag_of(keys, "header")?,
        trailing: flag_of(keys, "trailing")?,
        repeats: repeats_of(role, keys)?,
        columns: items_of(keys, "column", MAX_COLUMNS)?,
    })
}

/// The columns in order.
fn columns_of(alloc: Global, table: u32, values: &[Value]) -> Result<List<ColumnDef>, SchemaError>
    requires { length values.now ≤ max_columns }
    ensures columns { Answers SchemaError.Memory (columns_of table (map view values.now)) result }
    ensures few { IfOk result (λ columns. length columns ≤ max_columns) }
{
    let mut columns = Vec::new(alloc);
    let mut place = 1u32;
    for value in values {
        let Some(column) = column_of(value) else {
            return Err(SchemaError::Shape {
                table,
                column: place,
            });
        };
        if columns.push(column).is_err() {
            return Err(SchemaError::Memory);
        }
        place += 1;
    }
    Ok(List::from_vec(columns))
}

fn is_key_column(name: &str, column: &ColumnDef) -> bool
    ensures { result ≡ is_key_column name.now column.now }
{
    column.name.as_str() == name && column.kind == Kind::Number
}

fn place_of(name: &str, columns: &[ColumnDef]) -> Option<usize>
    ensures place { result ≡ position (is_key_column name.now) columns.now }
    ensures within { IfSome result (λ place. place < length columns.now) }
{
    columns
        .iter()
        .position(|column| is_key_column(name, column))
}

/// The place of the key, where it names a number column.
fn key_place(key: Option<&str>, columns: &[ColumnDef]) -> Option<Option<u32>>
    requires { length columns.now ≤ max_columns }
    ensures { result ≡ key_place (option_map (λ text. text.now) key.entry) columns.now }
{
    let Some(name) = key else {
        return Some(None);
    };
    let place = place_of(name, columns)?;
    Some(Some(place as u32))
}

fn table_of(alloc: Global, table: u32, value: &Value) -> Result<TableDef, SchemaError>
    ensures { Answers SchemaError.Memory (table_of table (view value.now)) result }
{
    let Some(own) = own_of(value) else {
        return Err(SchemaError::Shape { table, column: 0 });
    };
    let columns = columns_of(alloc, table, own.columns)?;
    let Some(key) = key_place(own.key, columns.as_slice()) else {
        return Err(SchemaError::Shape { table, column: 0 });
    };
    Ok(TableDef {
        name: own.name,
        role: own.role,
        key,
        separator: own.separator,
        header: own.header,
        trailing: own.trailing,
        repeats: own.repeats,
        columns,
    })
}

/// The tables in order.
fn tables_of(alloc: Global, values: &[Value]) -> Result<Vec<TableDef>, SchemaError>
    requires { length values.now ≤ max_tables }
    ensures tables { IfOk result (λ tables. tables_of (map view values.now) ≡ Ok tables.items) }
    ensures refused { IfErr result (λ refusal. refusal ≢ SchemaError.Memory → tables_of (map view values.now) ≡ Err refusal) }
{
    let mut tables = Vec::new(alloc);
    let mut number = 1u32;
    for value in values {
        let table = table_of(alloc, number, value)?;
        if tables.push(table).is_err() {
            return Err(SchemaError::Memory);
        }
        number += 1;
    }
    Ok(tables)
}

fn top_of(keys: &Table) -> Option<&[Value]>
    ensures items { option_map (λ items. map view items.now) result ≡ top_in (table_view keys.entry.now) }
    ensures few { IfSome result (λ items. length items.now ≤ max_tables) }
{
    if !has_only(keys, &TOP_KEYS) {
        return None;
    }
    items_of(keys, "table", MAX_TABLES)
}

/// The schema that the table is.
fn schema_in(alloc: Global, keys: &Table) -> Result<Schema, SchemaError>
    ensures { Answers SchemaError.Memory (schema_in (table_view keys.now)) result }
{
    let Some(values) = top_of(keys) else {
        return Err(SchemaError::Shape {
            table: 0,
            column: 0,
        });
    };
    let tables = tables_of(alloc, values)?;
    distinct(alloc, table_names(alloc, tables.as_slice())?.as_slice())?;
    distinct(alloc, column_names(alloc, tables.as_slice())?.as_slice())?;
    Ok(Schema {
        tables: List::from_vec(tables),
    })
}

/// The schema of the text of a schema file, or the first thing that is wrong with it. The text's TOML table is held while it is read,
/// and the schema takes its own memory for names and columns.
pub fn read_schema(alloc: Global, bytes: &[u8]) -> Result<Schema, SchemaError>
    ensures schema { IfOk result (λ schema. SchemaOf bytes.now (Ok schema)) }
    ensures lawful { IfOk result IsSchema }
    ensures refused { IfErr result (λ refusal. refusal ≢ SchemaError.Memory → SchemaOf bytes.now (Err refusal)) }
{
    match toml::table_from_slice(alloc, bytes) {
        Ok(keys) => schema_in(alloc, &keys),
        Err(error) => {
            if error.is_memory() {
                Err(SchemaError::Memory)
            } else {
                Err(SchemaError::Text)
            }
        }
    }
}
