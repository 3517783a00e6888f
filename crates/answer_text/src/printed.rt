//! Columns as they are printed.

ghost use Rattle.std.specs.Prelude.{◌≡◌, ◌<◌, ◌^◌, ◌++◌, ◌∷◌, [], length, map, unwrap_or, OnOk, IfOk, IfSome, option_map};
ghost use Rattle.table_core.specs.Tables.{rows_of, stored_at};
ghost use Rattle.answer_text.specs.HeldColumns.{columns_at};
ghost use Rattle.answer_text.specs.Exports.{columns_there};
ghost use Rattle.answer_text.specs.Records.{AddsFields};
ghost use Rattle.answer_text.specs.Printed.{printed_of, printed_field, HaveRows};

use crate::records::Records;
use block_core::{PlaceSource, Steps};
use catalog_core::{ColumnId, Dictionary};
use column_core::Gather;
use std::alloc::{AllocError, Global};
use std::marker::Model;
use table_core::Tables;

/// A column of which values are looked up by their rows, and its dictionary if it is a text column. If rows rise, each block is
/// decoded at most once.
#[derive(Drop)]
pub(crate) struct PrintedColumn<'a> {
    values: Gather<'a, 8>,
    dictionary: Option<&'a Dictionary>,
}

impl<'a> Model for PrintedColumn<'a> {
    ghost use Rattle.std.specs.Prelude.{option_map};
    ghost use Rattle.answer_text.specs.Printed.{Printed};

    ghost Value = { Printed };

    ghost view = { λ column. record { values = column.values; texts = option_map (λ dictionary. dictionary.now) column.dictionary } };
}

impl<'a> PrintedColumn<'a> {
    /// Adds the field of a row.
    pub(crate) fn push_field<G>(
        &mut self,
        row: u64,
        records: &mut Records,
        steps: &mut Steps<G>,
    ) -> Result<(), AllocError>
        requires { row < length self.old.values }
        ensures field { OnOk result (AddsFields (printed_field row self.old ∷ []) records.old records.new) }
        ensures same { self.new ≡ self.old }
    {
        let value = self.values.value_at(row, steps);
        match self.dictionary {
            Some(dictionary) => records.push_text(dictionary.text(value).unwrap_or(b"")),
            None => records.push_number(value),
        }
    }
}

/// A column of the tables, if it is there.
fn printed_column(tables: &Tables, id: ColumnId) -> Option<PrintedColumn<'_>>
    ensures column { result ≡ option_map printed_of (stored_at tables.now id) }
    ensures whole { IfSome result (λ column. rows_of tables.now id.table ≡ Some (length column.values)) }
{
    let column = tables.column(id)?;
    Some(PrintedColumn {
        values: Gather::new(column),
        dictionary: tables.dictionary(id),
    })
}

/// Adds a column of the tables, if it is there.
fn push_column<'a>(
    columns: &mut Vec<PrintedColumn<'a>>,
    tables: &'a Tables,
    id: ColumnId,
) -> Result<(), AllocError>
    ensures columns { OnOk result (columns.new.items ≡ columns.old.items ++ map printed_of (columns_there (stored_at tables.now id ∷ []))) }
    ensures rows { OnOk result (HaveRows (unwrap_or (rows_of tables.now id.table) 0) columns.old.items → HaveRows (unwrap_or (rows_of tables.now id.table) 0) columns.new.items) }
{
    match printed_column(tables, id) {
        Some(column) => Ok(columns.push(column)?),
        None => Ok(()),
    }
}

/// The columns of a table that are there, of so many.
pub(crate) fn printed_columns(
    alloc: Global,
    tables: &Tables,
    table: u32,
    count: usize,
) -> Result<Vec<PrintedColumn<'_>>, AllocError>
    requires few { count < 2 ^ 32 }
    requires count { length (columns_at tables.now table) ≡ count }
    ensures columns { IfOk result (λ columns. columns.items ≡ map printed_of (columns_there (columns_at tables.now table))) }
    ensures rows { IfOk result (λ columns. HaveRows (unwrap_or (rows_of tables.now table) 0) columns.items) }
{
    let mut columns = Vec::with_capacity(alloc, count)?;
    for place in 0..count {
        let id = ColumnId {
            table,
            column: place as u32,
        };
        push_column(&mut columns, tables, id)?;
    }
    Ok(columns)
}
