//! The rows of a text.

ghost use Rattle.std.specs.Prelude.{◌≡◌, ◌≢◌, ◌≤◌, ◌<◌, ℕ, List, [], Err, length, map, IfOk, IfErr, OnOk};
ghost use Rattle.std.specs.List.{zip};
ghost use Rattle.csv.specs.Records.{fields_of};
ghost use Rattle.definitions_outcomes.specs.Computed.{walk};
ghost use Rattle.catalog_core.specs.LawfulSchemas.{IsTableDef};
ghost use Rattle.table_import.specs.Steps.{walk_after};
ghost use Rattle.table_import.specs.Records.{Record, without_header};
ghost use Rattle.table_import.specs.Imports.{Row, counts, value_of, row_of, row_after, imported, key_place};
ghost use Rattle.table_import.specs.Reads.{Gives, GivesRows};
ghost use Rattle.table_import.specs.Growing.{kind_of, kinds_of, TakesRow, HaveRows, HaveAllRows, AreKeysOf, AddsRow};

use crate::columns::GrowingColumn;
use crate::errors::ImportError;
use crate::keys::{is_repeated, key_place};
use crate::records::{next_record, reader_of};
use catalog_core::TableDef;
use csv::{ByteRecord, Reader};
use std::alloc::Global;
use std::collections::HashSet;

/// Whether a record has a field for each column, and then nothing but an empty field if the table's records may have one.
fn has_count(columns: usize, trailing: bool, record: &ByteRecord) -> bool
    requires { columns < 1024 }
    ensures { result ≡ counts columns trailing (fields_of «record».now) }
{
    if record.len() == columns {
        return true;
    }
    if !trailing || record.len() != columns + 1 {
        return false;
    }
    match record.get(columns) {
        Some(last) => last.is_empty(),
        None => false,
    }
}

/// Adds the fields of a record to the columns, each to the one at its place.
fn push_fields(
    columns: &mut [GrowingColumn],
    row: u64,
    record: &ByteRecord,
) -> Result<(), ImportError>
    requires enough { length columns.old ≤ length (fields_of «record».now) }
    ensures taken { OnOk result (TakesRow (walk (value_of row) 1 (zip (map kind_of columns.old) (fields_of «record».now))) columns.old columns.new) }
    ensures refused { IfErr result (λ error. error ≢ ImportError.Memory → walk (value_of row) 1 (zip (map kind_of columns.old) (fields_of «record».now)) ≡ Err error) }
{
    for place in 0..columns.len() {
        let Some(field) = record.get(place) else {
            unreachable!();
        };
        columns[place].push(row, place as u64 + 1, field)?;
    }
    Ok(())
}

/// Adds the values of a record to the columns of a table.
fn push_row(
    table: &TableDef,
    columns: &mut [GrowingColumn],
    row: u64,
    record: &ByteRecord,
) -> Result<(), ImportError>
    requires few { length columns.old < 1024 }
    requires kinds { map kind_of columns.old ≡ kinds_of table.now }
    ensures taken { OnOk result (TakesRow (row_of table.now row (fields_of «record».now)) columns.old columns.new) }
    ensures refused { IfErr result (λ error. error ≢ ImportError.Memory → row_of table.now row (fields_of «record».now) ≡ Err error) }
{
    if !has_count(columns.len(), table.trailing, record) {
        return Err(ImportError::FieldCount {
            row,
            found: record.len() as u64,
        });
    }
    push_fields(columns, row, record)
}

/// Adds the values of a record to the columns of a table, and its key to the keys.
fn add_row(
    table: &TableDef,
    columns: &mut [GrowingColumn],
    keys: &mut HashSet<u64>,
    row: u64,
    record: &ByteRecord,
) -> Result<(), ImportError>
    requires lawful { IsTableDef table.now }
    requires kinds { map kind_of columns.old ≡ kinds_of table.now }
    ensures taken { (limit : ℕ) (done : List Row) → row ≤ limit → HaveRows table.now done columns.old → AreKeysOf (key_place table.now) done keys.old.keys
        → OnOk result (AddsRow (row_after table.now limit [] row done (fields_of «record».now)) table.now done columns.new keys.new.keys) }
    ensures refused { (limit : ℕ) (done : List Row) → row ≤ limit → HaveRows table.now done columns.old → AreKeysOf (key_place table.now) done keys.old.keys
        → IfErr result (λ error. error ≢ ImportError.Memory → row_after table.now limit [] row done (fields_of «record».now) ≡ Err error) }
    ensures kinds { OnOk result (map kind_of columns.new ≡ map kind_of columns.old) }
{
    push_row(table, columns, row, record)?;
    if is_repeated(keys, key_place(table), columns)? {
        return Err(ImportError::RepeatedKey { row });
    }
    Ok(())
}

/// Adds the rows that a reader gives, up to a limit.
fn read_rows(
    table: &TableDef,
    columns: &mut [GrowingColumn],
    reader: &mut Reader<&[u8]>,
    record: &mut ByteRecord,
    alloc: Global,
    limit: u64,
) -> Result<(), ImportError>
    requires lawful { IsTableDef table.now }
    requires begun { HaveRows table.now [] columns.old }
    ensures rows { (records : List Record) → Gives table.now.separator reader.old records
        → OnOk result (HaveAllRows (walk_after (row_after table.now limit []) 1 [] records) limit table.now columns.new) }
    ensures refused { (records : List Record) → Gives table.now.separator reader.old records
        → IfErr result (λ error. error ≢ ImportError.Memory → walk_after (row_after table.now limit []) 1 [] records ≡ Err error) }
{
    let mut keys = HashSet::new(alloc);
    for done in 0..limit {
        if !next_record(reader, record)? {
            return Ok(());
        }
        add_row(table, columns, &mut keys, done + 1, record)?;
    }
    if next_record(reader, record)? {
        return Err(ImportError::TooManyRows);
    }
    Ok(())
}

/// Passes over the header, if there is one, and says whether there may be rows.
fn pass_header(
    header: bool,
    reader: &mut Reader<&[u8]>,
    record: &mut ByteRecord,
) -> Result<bool, ImportError>
    ensures passed { IfOk result (λ more. (separator : ℕ) (records : List Record) → Gives separator reader.old records
        → GivesRows separator (without_header header records) more reader.new) }
    ensures memory { IfErr result (λ error. error ≡ ImportError.Memory) }
{
    if header {
        next_record(reader, record)
    } else {
        Ok(true)
    }
}

/// Adds the rows of a text, up to a limit. The text is gone through once.
pub fn import_rows(
    table: &TableDef,
    columns: &mut [GrowingColumn],
    alloc: Global,
    text: &[u8],
    limit: u64,
) -> Result<(), ImportError>
    requires lawful { IsTableDef table.now }
    requires begun { HaveRows table.now [] columns.old }
    ensures rows { OnOk result (HaveAllRows (imported table.now limit [] text.now) limit table.now columns.new) }
    ensures refused { IfErr result (λ error. error ≢ ImportError.Memory → imported table.now limit [] text.now ≡ Err error) }
{
    let mut reader = reader_of(alloc, table.separator, text);
    let mut record = ByteRecord::new(alloc);
    if !pass_header(table.header, &mut reader, &mut record)? {
        return Ok(());
    }
    read_rows(table, columns, &mut reader, &mut record, alloc, limit)
}
