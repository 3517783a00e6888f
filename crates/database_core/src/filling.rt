//! One needed table: its row count, its needed columns, and whether its keys differ.

ghost use Rattle.std.specs.Prelude.{◌≡◌, ◌<◌, Some, Ok, [], ◌∷◌, length, is_some, IsSome, IfSome, IfErr, OnOk, IsTrue, nat_eq};
ghost use Rattle.std.specs.List.{AllByRecursion, IsDistinct};
ghost use Rattle.definitions_outcomes.specs.Outcomes.{Gives, Each};
ghost use Rattle.stream_core.specs.Files.{Files};
ghost use Rattle.catalog_core.specs.Columns.{IsNeeds, table_at, column_at, columns_of_table};
ghost use Rattle.table_core.specs.Held.{is_among, is_key_needed, is_text};
ghost use Rattle.table_core.specs.Tables.{IsAwaited, rows_of, key_values};
ghost use Rattle.database_core.specs.Filling.{Puts, FitsKind, FillsSome, IsFilling, IsEmpty, if_of};
ghost use Rattle.database_core.specs.NowViews.{now_view};
ghost use Rattle.database_core.specs.Opening.{OneMore, ColumnStep, KeyStep, TableStep};
ghost use Rattle.database_core.specs.Opens.{Opens, KeepsStore};
ghost use Rattle.database_core.specs.Steps.{put_in, NeedsNoStore, NamesNone, NamesTable};

use crate::errors::OpenError;
use crate::file_names::column_file_name;
use crate::loading::{copy_of, now_of};
use crate::now_files::Now;
use crate::reading::{column_of, texts_of};
use catalog_core::{ColumnDef, ColumnId, Dictionary, Needs, Schema, TableDef};
use column_core::Column;
use std::alloc::Global;
use stream_core::{FileName, Name, Store};
use table_core::{KeyError, PutError, Tables};

/// Puts a column at its place. It has a value for each row.
fn put(
    tables: &mut Tables,
    file: &FileName,
    id: ColumnId,
    column: Column,
    dictionary: Option<Dictionary>,
) -> Result<(), OpenError>
    requires awaited { IsAwaited tables.old id }
    requires rows { rows_of tables.old id.table ≡ Some (length column.values) }
    ensures step { Opens (λ done. tables.new) result (Gives (put_in file.now tables.old id column dictionary)) }
    ensures named { IfErr result NamesNone }
    ensures calm { NeedsNoStore result }
{
    match tables.put(id, column, dictionary) {
        Ok(()) => Ok(()),
        Err(PutError::BadCode) => Err(OpenError::BadCode {
            file: copy_of(file),
        }),
        Err(PutError::Length) => unreachable!(),
    }
}

/// One more column of a table.
fn add_column<S: Store>(
    alloc: Global,
    store: &mut S,
    tables: &mut Tables,
    table: &Name,
    now: Now,
    id: ColumnId,
    definition: &ColumnDef,
) -> Result<(), OpenError>
    requires awaited { IsAwaited tables.old id }
    requires rows { rows_of tables.old id.table ≡ Some now.rows }
    ensures step { (files : Files) → S.files store.old ≡ Some files →
        Opens (λ done. tables.new) result (OneMore files table.now (now_view now) tables.old id (Some definition.now)) }
    ensures run { OnOk result (Puts (λ one stored. is_some stored.texts ≡ is_text definition.now.kind) tables.old id (Ok tables.new)) }
    ensures named { IfErr result NamesNone }
    ensures kept { KeepsStore (S.files store.old) (S.files store.new) (S.faults store.old) (S.faults store.new) result }
{
    let file = column_file_name(table, now.slot, &definition.name);
    let column = column_of(alloc, store, &file, now.rows)?;
    let dictionary = texts_of(alloc, store, table, now.slot, definition)?;
    put(tables, &file, id, column, dictionary)
}

/// One more column, if it is this table's.
fn add_if_of<S: Store>(
    alloc: Global,
    store: &mut S,
    tables: &mut Tables,
    schema: &Schema,
    table: u32,
    definition: &TableDef,
    now: Now,
    id: ColumnId,
) -> Result<(), OpenError>
    requires definition { table_at schema.now table ≡ Some definition.now }
    requires known { IsSome (column_at schema.now id) }
    requires rows { rows_of tables.old table ≡ Some now.rows }
    requires awaited { AllByRecursion (IsAwaited tables.old) (if_of table id) }
    ensures step { (files : Files) → S.files store.old ≡ Some files →
        Opens (λ done. tables.new) result (Each (ColumnStep files schema.now definition.now.name (now_view now)) tables.old (if_of table id)) }
    ensures run { OnOk result (Each (Puts (FitsKind schema.now)) tables.old (if_of table id) (Ok tables.new)) }
    ensures named { IfErr result NamesNone }
    ensures kept { KeepsStore (S.files store.old) (S.files store.new) (S.faults store.old) (S.faults store.new) result }
{
    if id.table != table {
        return Ok(());
    }
    let column = &definition.columns.as_slice()[id.column as usize];
    add_column(alloc, store, tables, &definition.name, now, id, column)
}

/// The needed columns of a table, in order.
fn add_columns<S: Store>(
    alloc: Global,
    store: &mut S,
    tables: &mut Tables,
    schema: &Schema,
    needs: &Needs,
    table: u32,
    definition: &TableDef,
    now: Now,
) -> Result<(), OpenError>
    requires lawful { IsNeeds schema.now needs.now }
    requires definition { table_at schema.now table ≡ Some definition.now }
    requires filling { IsFilling schema.now needs.now.columns table now.rows tables.old }
    ensures step { (files : Files) → S.files store.old ≡ Some files →
        Opens (λ done. tables.new) result (Each (ColumnStep files schema.now definition.now.name (now_view now)) tables.old (columns_of_table needs.now table)) }
    ensures run { OnOk result (Each (Puts (FitsKind schema.now)) tables.old (columns_of_table needs.now table) (Ok tables.new)) }
    ensures named { IfErr result NamesNone }
    ensures kept { KeepsStore (S.files store.old) (S.files store.new) (S.faults store.old) (S.faults store.new) result }
{
    for id in needs.columns.as_slice() {
        add_if_of(alloc, store, tables, schema, table, definition, now, *id)?;
    }
    Ok(())
}

fn is_among(id: ColumnId, ids: &[ColumnId]) -> bool
    ensures { result ≡ is_among id ids.now }
{
    ids.iter().any(|other| other.table == id.table && other.column == id.column)
}

/// Whether the keys of a table have to differ.
fn is_key_needed(definition: &TableDef, needs: &Needs, table: u32) -> bool
    ensures { result ≡ is_key_needed definition.now needs.now table }
{
    match definition.key {
        Some(column) => {
            !definition.repeats && is_among(ColumnId { table, column }, needs.columns.as_slice())
        }
        None => false,
    }
}

/// Whether the keys of a table differ, if they have to.
fn check_key(
    alloc: Global,
    tables: &Tables,
    needs: &Needs,
    table: u32,
    definition: &TableDef,
) -> Result<(), OpenError>
    requires { IsTrue (is_key_needed definition.now needs.now table) → IsSome (key_values tables.now table) }
    ensures step { Opens (λ done. tables.now) result (KeyStep (is_key_needed definition.now needs.now table) table tables.now) }
    ensures differ { OnOk result (IsTrue (is_key_needed definition.now needs.now table) → IfSome (key_values tables.now table) (IsDistinct nat_eq)) }
    ensures named { IfErr result (NamesTable table) }
    ensures calm { NeedsNoStore result }
{
    if !is_key_needed(definition, needs, table) {
        return Ok(());
    }
    match tables.check_key(alloc, table) {
        Ok(()) => Ok(()),
        Err(KeyError::Repeated) => Err(OpenError::RepeatedKey { table }),
        Err(KeyError::Memory) => Err(OpenError::Memory),
    }
}

/// One more table: its now file, its needed columns and its key.
pub(crate) fn fill_table<S: Store>(
    alloc: Global,
    store: &mut S,
    tables: &mut Tables,
    schema: &Schema,
    needs: &Needs,
    table: u32,
) -> Result<(), OpenError>
    requires lawful { IsNeeds schema.now needs.now }
    requires within { table < length schema.now.tables }
    requires empty { IsEmpty schema.now needs.now tables.old (table ∷ []) }
    ensures step { (files : Files) → S.files store.old ≡ Some files → Opens (λ done. tables.new) result (TableStep files schema.now needs.now tables.old table) }
    ensures run { OnOk result (FillsSome schema.now needs.now tables.old table (Ok tables.new)) }
    ensures named { IfErr result (NamesTable table) }
    ensures kept { KeepsStore (S.files store.old) (S.files store.new) (S.faults store.old) (S.faults store.new) result }
{
    let definition = &schema.tables.as_slice()[table as usize];
    let now = now_of(alloc, store, table, &definition.name)?;
    tables.start(table, now.rows);
    add_columns(alloc, store, tables, schema, needs, table, definition, now)?;
    check_key(alloc, tables, needs, table, definition)
}
