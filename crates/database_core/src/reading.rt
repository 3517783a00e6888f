//! One column and its dictionary, read from their files.

ghost use Rattle.std.specs.Prelude.{◌≡◌, ◌≢◌, ℕ, List as Items, Some, Err, Option as Maybe, length, is_some, IfOk, IfErr};
ghost use Rattle.definitions_outcomes.specs.Outcomes.{Gives};
ghost use Rattle.stream_core.specs.Files.{Files};
ghost use Rattle.stream_core.specs.Names.{dictionary_file_name};
ghost use Rattle.column_file.specs.Faults.{Says};
ghost use Rattle.column_core.specs.Columns.{Shape};
ghost use Rattle.catalog_core.specs.Dictionaries.{HasDictionaryFault};
ghost use Rattle.catalog_core.specs.Texts.{Text};
ghost use Rattle.table_core.specs.Held.{is_text};
ghost use Rattle.database_core.specs.NowViews.{letter_of};
ghost use Rattle.database_core.specs.Opening.{for_rows, ColumnOf, TextsOf};
ghost use Rattle.database_core.specs.Opens.{Opens, KeepsStore};
ghost use Rattle.database_core.specs.Steps.{HeldIn, TextsIn, TextsFor, NeedsNoStore, NamesNone};

use crate::errors::OpenError;
use crate::file_names::dictionary_file_name;
use crate::loading::{copy_of, data_file};
use crate::now_files::Slot;
use catalog_core::{ColumnDef, DictError, Dictionary, Kind};
use column_core::Column;
use column_file::{ColumnError, read_column};
use std::alloc::Global;
use stream_core::{Bytes, FileName, Name, Store};

/// What an error of a column file is in the opening of a database.
fn column_error(file: &FileName, found: ColumnError) -> OpenError
    ensures step { (bytes : Items ℕ) → Says bytes found → Opens (λ (held : Shape). held) (Err result) (HeldIn file.now bytes) }
    ensures named { NamesNone result }
    ensures calm { NeedsNoStore {X = Shape} (Err result) }
{
    match found {
        ColumnError::Memory => OpenError::Memory,
        error => OpenError::Column {
            file: copy_of(file),
            error,
        },
    }
}

/// The column whose file the bytes are. They are moved into it.
fn checked_column(alloc: Global, file: &FileName, bytes: Bytes) -> Result<Column, OpenError>
    ensures step { Opens (λ (held : Shape). held) result (HeldIn file.now bytes) }
    ensures named { IfErr result NamesNone }
    ensures calm { NeedsNoStore result }
{
    match read_column(alloc, bytes) {
        Ok(column) => Ok(column),
        Err(error) => Err(column_error(file, error)),
    }
}

/// The column, if it has a value for each row.
fn for_rows(file: &FileName, rows: u64, column: Column) -> Result<Column, OpenError>
    ensures step { Opens (λ (held : Shape). held) result (Gives (for_rows file.now rows column)) }
    ensures rows { IfOk result (λ held. length held.values ≡ rows) }
    ensures named { IfErr result NamesNone }
    ensures calm { NeedsNoStore result }
{
    if column.count() != rows {
        return Err(OpenError::Length {
            file: copy_of(file),
        });
    }
    Ok(column)
}

/// The column of a file, with a value for each row.
pub(crate) fn column_of<S: Store>(
    alloc: Global,
    store: &mut S,
    file: &FileName,
    rows: u64,
) -> Result<Column, OpenError>
    ensures step { (files : Files) → S.files store.old ≡ Some files → Opens (λ (held : Shape). held) result (ColumnOf files file.now rows) }
    ensures rows { IfOk result (λ held. length held.values ≡ rows) }
    ensures named { IfErr result NamesNone }
    ensures kept { KeepsStore (S.files store.old) (S.files store.new) (S.faults store.old) (S.faults store.new) result }
{
    let bytes = data_file(alloc, store, file)?;
    let column = checked_column(alloc, file, bytes)?;
    for_rows(file, rows, column)
}

/// What an error of a dictionary file is in the opening of a database.
fn dictionary_error(file: &FileName, found: DictError) -> OpenError
    ensures step { (bytes : Items ℕ) → (found ≢ DictError.Memory → HasDictionaryFault bytes found) → Opens (λ (texts : Items Text). texts) (Err result) (TextsIn file.now bytes) }
    ensures named { NamesNone result }
    ensures calm { NeedsNoStore {X = Items Text} (Err result) }
{
    match found {
        DictError::Memory => OpenError::Memory,
        error => OpenError::Dict {
            file: copy_of(file),
            error,
        },
    }
}

/// The dictionary whose file the bytes are. They are moved into it.
fn checked_dictionary(alloc: Global, file: &FileName, bytes: Bytes) -> Result<Dictionary, OpenError>
    ensures step { Opens (λ (texts : Items Text). texts) result (TextsIn file.now bytes) }
    ensures named { IfErr result NamesNone }
    ensures calm { NeedsNoStore result }
{
    match Dictionary::read(alloc, bytes) {
        Ok(dictionary) => Ok(dictionary),
        Err(error) => Err(dictionary_error(file, error)),
    }
}

/// The dictionary of a file.
fn dictionary_of<S: Store>(
    alloc: Global,
    store: &mut S,
    file: &FileName,
) -> Result<Dictionary, OpenError>
    ensures step { (files : Files) → S.files store.old ≡ Some files → Opens (λ (texts : Items Text). texts) result (TextsOf files file.now) }
    ensures named { IfErr result NamesNone }
    ensures kept { KeepsStore (S.files store.old) (S.files store.new) (S.faults store.old) (S.faults store.new) result }
{
    let bytes = data_file(alloc, store, file)?;
    checked_dictionary(alloc, file, bytes)
}

/// The dictionary of a column, if it is a text column.
pub(crate) fn texts_of<S: Store>(
    alloc: Global,
    store: &mut S,
    table: &Name,
    slot: Slot,
    column: &ColumnDef,
) -> Result<Option<Dictionary>, OpenError>
    ensures step { (files : Files) → S.files store.old ≡ Some files →
        Opens (λ (texts : Maybe (Items Text)). texts) result (TextsFor files (dictionary_file_name table.now (letter_of slot) column.now.name) column.now.kind) }
    ensures fits { IfOk result (λ texts. is_some texts ≡ is_text column.now.kind) }
    ensures named { IfErr result NamesNone }
    ensures kept { KeepsStore (S.files store.old) (S.files store.new) (S.faults store.old) (S.faults store.new) result }
{
    match column.kind {
        Kind::Number => Ok(None),
        Kind::Text => {
            let file = dictionary_file_name(table, slot, &column.name);
            let dictionary = dictionary_of(alloc, store, &file)?;
            Ok(Some(dictionary))
        }
    }
}
