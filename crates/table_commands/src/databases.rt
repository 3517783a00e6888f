//! The schema of a database, a table of it by its name, and the tables that are needed.

ghost use Rattle.std.specs.Prelude.{◌≡◌, ◌<◌, ℕ, List as Items, Some, IfOk, length};
ghost use Rattle.stream_core.specs.Files.{Files};
ghost use Rattle.stream_core.specs.Names.{schema_file_name};
ghost use Rattle.catalog_core.specs.Columns.{IsNeeds};
ghost use Rattle.catalog_core.specs.LawfulSchemas.{IsSchema};
ghost use Rattle.catalog_core.specs.declared.schemas.Schema as schemas;
ghost use Rattle.table_core.specs.Held.{HoldNeeds};
ghost use Rattle.table_core.specs.Tables.{TableState};
ghost use Rattle.table_commands.specs.Databases.{schema_bytes, definition_of, table_name, SchemaIn, SchemaStep, TableStep, OpenedIn, found_in};
ghost use Rattle.table_commands.specs.declared.databases.Found as databases;
ghost use Rattle.table_commands.specs.ErrorStops.{SaysSchema, SaysOpen, NamesWithin};
ghost use Rattle.table_commands.specs.Stops.{Ends, Computes, KeepsStore, IsInner, TakesNoMemory};
ghost use Rattle.table_commands.specs.Views.{IsFound};

use crate::files::{bytes_of, column_what, dictionary_what, refused};
use crate::stops::{Refusal, Stop, What};
use catalog_core::{Needs, Schema, SchemaError, TableDef, read_schema};
use database_core::{OpenError, now_file_name, open_for};
use std::alloc::Global;
use stream_core::{Bytes, FileName, Name, Store};
use table_core::Tables;

/// How many bytes are read of the schema file at most.
const MAX_SCHEMA_FILE: u64 = 1_048_576;

/// A table of a schema, by its number.
#[derive(Drop)]
pub struct Found {
    pub schema: Schema,
    pub table: u32,
}

impl Found {
    /// The table's definition.
    pub fn definition(&self) -> &TableDef
        requires { IsFound self.now }
        ensures { result.now ≡ definition_of self.now }
    {
        &self.schema.tables.as_slice()[self.table as usize]
    }
}

fn schema_file() -> FileName
    ensures { result ≡ schema_file_name }
{
    FileName::of("schema.toml").unwrap()
}

/// The bytes of the schema file.
fn schema_bytes<S: Store>(alloc: Global, store: &mut S) -> Result<Bytes, Stop>
    ensures step { (files : Files) → S.files store.old ≡ Some files → Computes (λ (b : Items ℕ). b) result (schema_bytes files) }
    ensures kept { KeepsStore (S.files store.old) (S.files store.new) (S.faults store.old) (S.faults store.new) result }
{
    bytes_of(alloc, store, &schema_file(), MAX_SCHEMA_FILE)
}

/// What a refusal of the schema's text ends a command with.
fn schema_stop(error: SchemaError) -> Stop
    ensures { SaysSchema error result }
{
    match error {
        SchemaError::Text => refused(&schema_file(), What::BadToml),
        SchemaError::Shape { table, column } => {
            refused(&schema_file(), What::Shape { table, column })
        }
        SchemaError::Repeated { name } => Stop::Refused(Refusal::RepeatedName(name)),
        SchemaError::Memory => Stop::Memory,
    }
}

/// The schema of the file's bytes.
fn schema_in(alloc: Global, bytes: &[u8]) -> Result<Schema, Stop>
    ensures step { Ends (λ (schema : schemas.Schema). schema) result (SchemaIn bytes.now) }
    ensures lawful { IfOk result IsSchema }
    ensures kept { IsInner result }
{
    match read_schema(alloc, bytes) {
        Ok(schema) => Ok(schema),
        Err(error) => Err(schema_stop(error)),
    }
}

/// The schema of the database.
pub fn schema_of<S: Store>(alloc: Global, store: &mut S) -> Result<Schema, Stop>
    ensures step { (files : Files) → S.files store.old ≡ Some files → Ends (λ (schema : schemas.Schema). schema) result (SchemaStep files) }
    ensures lawful { IfOk result IsSchema }
    ensures kept { KeepsStore (S.files store.old) (S.files store.new) (S.faults store.old) (S.faults store.new) result }
{
    let bytes = schema_bytes(alloc, store)?;
    schema_in(alloc, bytes.as_slice())
}

/// The table of a name.
fn found_in(schema: Schema, name: &str) -> Result<Found, Stop>
    requires { IsSchema schema }
    ensures step { Computes (λ (found : databases.Found). found) result (found_in schema name.now) }
    ensures found { IfOk result IsFound }
    ensures kept { TakesNoMemory result }
{
    match schema.table_named(name) {
        Some(table) => Ok(Found { schema, table }),
        None => Err(Stop::Refused(Refusal::NoSuchTable)),
    }
}

/// The table of a name in the database.
pub(crate) fn found_table<S: Store>(alloc: Global, store: &mut S, name: &str) -> Result<Found, Stop>
    ensures step { (files : Files) → S.files store.old ≡ Some files → Ends (λ (found : databases.Found). found) result (TableStep files name.now) }
    ensures found { IfOk result IsFound }
    ensures kept { KeepsStore (S.files store.old) (S.files store.new) (S.faults store.old) (S.faults store.new) result }
{
    let schema = schema_of(alloc, store)?;
    found_in(schema, name)
}

/// The name of a table of the schema.
fn table_name<'a>(schema: &'a Schema, table: u32) -> &'a Name
    requires { table < length schema.now.tables }
    ensures { result.now ≡ table_name schema.now table }
{
    &schema.tables.as_slice()[table as usize].name
}

/// The refusal of a table's key.
fn repeated_key(table: &Name) -> Stop
    ensures { result ≡ Stop.Refused (Refusal.RepeatedKey table.now) }
{
    let table = Name::of(table.as_str()).unwrap();
    Stop::Refused(Refusal::RepeatedKey(table))
}

/// What an error of the opening ends a command with.
fn open_stop(schema: &Schema, error: OpenError) -> Stop
    requires { NamesWithin (length schema.now.tables) error }
    ensures { SaysOpen schema.now error result }
{
    match error {
        OpenError::Store => Stop::StoreFault,
        OpenError::TooLong { file } => refused(&file, What::TooLong),
        OpenError::NoFile { file } => refused(&file, What::NoFile),
        OpenError::BadNow { table } => {
            refused(&now_file_name(table_name(schema, table)), What::BadNow)
        }
        OpenError::Column { file, error } => refused(&file, column_what(error).unwrap()),
        OpenError::Length { file } => refused(&file, What::Length),
        OpenError::Dict { file, error } => refused(&file, dictionary_what(error).unwrap()),
        OpenError::BadCode { file } => refused(&file, What::BadCode),
        OpenError::RepeatedKey { table } => repeated_key(table_name(schema, table)),
        OpenError::Memory => Stop::Memory,
    }
}

/// The needed tables and columns.
pub(crate) fn opened<S: Store>(
    alloc: Global,
    store: &mut S,
    schema: &Schema,
    needs: &Needs,
) -> Result<Tables, Stop>
    requires lawful { IsSchema schema.now }
    requires ordered { IsNeeds schema.now needs.now }
    ensures step { (files : Files) → S.files store.old ≡ Some files →
        Ends (λ (tables : Items TableState). tables) result (OpenedIn files schema.now needs.now) }
    ensures held { IfOk result (HoldNeeds schema.now needs.now) }
    ensures kept { KeepsStore (S.files store.old) (S.files store.new) (S.faults store.old) (S.faults store.new) result }
{
    match open_for(alloc, store, schema, needs) {
        Ok(tables) => Ok(tables),
        Err(error) => Err(open_stop(schema, error)),
    }
}
