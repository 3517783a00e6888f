//! Saving a table: its data files in the slot that does not hold its rows, and then the now file, which makes them its rows.

ghost use Rattle.std.specs.Prelude.{◌≡◌, ◌<◌, ◌≤◌, length, map, [], ◌∷◌, is_some, IfSome, OnOk, IsErrOf};
ghost use Rattle.stream_core.specs.Faults.{Rose};
ghost use Rattle.stream_core.specs.Names.{IsName, now_file_name};
ghost use Rattle.catalog_core.specs.Columns.{table_at};
ghost use Rattle.catalog_core.specs.LawfulSchemas.{IsSchema};
ghost use Rattle.table_core.specs.Held.{is_text};
ghost use Rattle.table_core.specs.Views.{stored_of};
ghost use Rattle.database_core.specs.NowViews.{letter_of};
ghost use Rattle.database_core.specs.Saving.{file, AreColumnsOf, row_count, now_file_of, IsTableSaved};
ghost use Rattle.database_core.specs.SavingSteps.{Between, ChangesOnly, Sets, WritesColumn, WritesColumns, BlamesStore};
ghost use Rattle.database_core.specs.TableFiles.{names_of_column, data_file_names, ChangesTable};

use crate::errors::SaveTableError;
use crate::file_names::{column_file_name, dictionary_file_name, now_file_name};
use crate::now_files::{Slot, now_file};
use crate::slots::slot_to_write;
use catalog_core::{ColumnDef, Schema, TableDef};
use std::alloc::Global;
use stream_core::{FileName, List, Name, SaveError, Store};
use table_core::StoredColumn;

/// Saves a data file.
fn save_file<S: Store>(
    alloc: Global,
    store: &mut S,
    name: &FileName,
    bytes: &[u8],
) -> Result<(), SaveTableError>
    ensures saved { OnOk result (Between (Sets (file name.now bytes.now)) (S.files store.old) (S.files store.new)) }
    ensures changes { Between (ChangesOnly (name.now ∷ [])) (S.files store.old) (S.files store.new) }
    ensures causes { BlamesStore (S.faults store.old) (S.faults store.new) result }
{
    match store.save(alloc, name.as_str(), bytes) {
        Ok(()) => Ok(()),
        Err(SaveError::Failed) => Err(SaveTableError::Store),
        Err(SaveError::Memory) => Err(SaveTableError::Memory),
    }
}

/// Saves a column's file, and its dictionary's if it has one.
fn save_column<S: Store>(
    alloc: Global,
    store: &mut S,
    table: &Name,
    slot: Slot,
    definition: &ColumnDef,
    stored: &StoredColumn,
) -> Result<(), SaveTableError>
    requires { is_some (stored_of stored.now).texts ≡ is_text definition.now.kind }
    ensures saved { OnOk result (Between (WritesColumn table.now (letter_of slot) definition.now (stored_of stored.now)) (S.files store.old) (S.files store.new)) }
    ensures changes { Between (ChangesOnly (names_of_column table.now (letter_of slot) definition.now)) (S.files store.old) (S.files store.new) }
    ensures causes { BlamesStore (S.faults store.old) (S.faults store.new) result }
{
    let file = column_file_name(table, slot, &definition.name);
    save_file(alloc, store, &file, stored.column.encoded())?;
    match &stored.dictionary {
        Some(dictionary) => {
            let file = dictionary_file_name(table, slot, &definition.name);
            save_file(alloc, store, &file, dictionary.encoded())
        }
        None => Ok(()),
    }
}

/// Saves the data files of a table's columns, in order.
fn save_columns<S: Store>(
    alloc: Global,
    store: &mut S,
    table: &TableDef,
    slot: Slot,
    columns: &[StoredColumn],
) -> Result<(), SaveTableError>
    requires { AreColumnsOf (row_count (map stored_of columns.now)) table.now.columns (map stored_of columns.now) }
    ensures saved { OnOk result (Between (WritesColumns table.now.name (letter_of slot) table.now.columns (map stored_of columns.now)) (S.files store.old) (S.files store.new)) }
    ensures changes { Between (ChangesOnly (data_file_names table.now (letter_of slot))) (S.files store.old) (S.files store.new) }
    ensures causes { BlamesStore (S.faults store.old) (S.faults store.new) result }
{
    let definitions = table.columns.as_slice();
    for place in 0..columns.len() {
        save_column(
            alloc,
            store,
            &table.name,
            slot,
            &definitions[place],
            &columns[place],
        )?;
    }
    Ok(())
}

/// Saves the now file.
fn switch<S: Store>(
    alloc: Global,
    store: &mut S,
    table: &Name,
    slot: Slot,
    rows: u64,
) -> Result<(), SaveTableError>
    ensures saved { OnOk result (Between (Sets (now_file_of table.now (letter_of slot) rows)) (S.files store.old) (S.files store.new)) }
    ensures changes { Between (ChangesOnly (now_file_name table.now ∷ [])) (S.files store.old) (S.files store.new) }
    ensures same { IsErrOf result SaveTableError.Memory → Between (ChangesOnly []) (S.files store.old) (S.files store.new) }
    ensures late { IsErrOf result SaveTableError.Store → ⊥ }
    ensures cause { IsErrOf result SaveTableError.Switch → Rose (S.faults store.old) (S.faults store.new) }
    ensures calm { (IsErrOf result SaveTableError.Switch → ⊥) → S.faults store.new ≡ S.faults store.old }
    ensures later { S.faults store.old ≤ S.faults store.new }
{
    let file = now_file_name(table);
    match store.save(alloc, file.as_str(), now_file(slot, rows).as_slice()) {
        Ok(()) => Ok(()),
        Err(SaveError::Failed) => Err(SaveTableError::Switch),
        Err(SaveError::Memory) => Err(SaveTableError::Memory),
    }
}

/// How many rows the columns have.
fn row_count(columns: &[StoredColumn]) -> u64
    ensures { result ≡ row_count (map stored_of columns.now) }
{
    match columns {
        [first, ..] => first.column.count(),
        [] => 0,
    }
}

/// Saves a table of this definition.
fn save_as<S: Store>(
    alloc: Global,
    store: &mut S,
    table: &TableDef,
    columns: &[StoredColumn],
) -> Result<(), SaveTableError>
    requires named { IsName table.now.name }
    requires fits { AreColumnsOf (row_count (map stored_of columns.now)) table.now.columns (map stored_of columns.now) }
    ensures saved { IsTableSaved table.now (map stored_of columns.now) (S.files store.old) (S.files store.new) result }
    ensures changes { ChangesTable table.now (S.files store.old) (S.files store.new) }
    ensures store { IsErrOf result SaveTableError.Store → Rose (S.faults store.old) (S.faults store.new) }
    ensures switch { IsErrOf result SaveTableError.Switch → Rose (S.faults store.old) (S.faults store.new) }
    ensures calm { (IsErrOf result SaveTableError.Store → ⊥) → (IsErrOf result SaveTableError.Switch → ⊥) → S.faults store.new ≡ S.faults store.old }
    ensures later { S.faults store.old ≤ S.faults store.new }
{
    let slot = slot_to_write(alloc, store, &table.name)?;
    save_columns(alloc, store, table, slot, columns)?;
    switch(alloc, store, &table.name, slot, row_count(columns))
}

/// Saves a table: its data files in the slot that does not hold its rows, in the order of the schema, and then the now file, which makes
/// them the table's rows. If no lawful now file stands, that slot is `a`. At most 13 bytes are loaded, and no bytes are copied: a file is
/// what its column or its dictionary keeps. Formats, codes and keys are not looked at.
pub fn save_table<S: Store>(
    alloc: Global,
    store: &mut S,
    schema: &Schema,
    table: u32,
    columns: &List<StoredColumn>,
) -> Result<(), SaveTableError>
    requires lawful { IsSchema schema.now }
    requires within { table < length schema.now.tables }
    requires fits { IfSome (table_at schema.now table) (λ definition. AreColumnsOf (row_count (map stored_of columns.now)) definition.columns (map stored_of columns.now)) }
    ensures saved { IfSome (table_at schema.now table) (λ definition. IsTableSaved definition (map stored_of columns.now) (S.files store.old) (S.files store.new) result) }
    ensures changes { IfSome (table_at schema.now table) (λ definition. ChangesTable definition (S.files store.old) (S.files store.new)) }
    ensures store { IsErrOf result SaveTableError.Store → Rose (S.faults store.old) (S.faults store.new) }
    ensures switch { IsErrOf result SaveTableError.Switch → Rose (S.faults store.old) (S.faults store.new) }
    ensures calm { (IsErrOf result SaveTableError.Store → ⊥) → (IsErrOf result SaveTableError.Switch → ⊥) → S.faults store.new ≡ S.faults store.old }
    ensures later { S.faults store.old ≤ S.faults store.new }
{
    let definition = &schema.tables.as_slice()[table as usize];
    save_as(alloc, store, definition, columns.as_slice())
}
