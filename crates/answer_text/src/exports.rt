//! What `export` prints.

ghost use Rattle.std.specs.Prelude.{◌≡◌, ◌<◌, length, OnOk, IfOk};
ghost use Rattle.catalog_core.specs.Columns.{needs_of_table};
ghost use Rattle.catalog_core.specs.LawfulSchemas.{IsSchema};
ghost use Rattle.table_core.specs.Held.{HoldColumns};
ghost use Rattle.answer_text.specs.Exports.{export_text};
ghost use Rattle.answer_text.specs.Records.{AddsText};
ghost use Rattle.answer_text.specs.Printed.{HaveRow, HaveRows, names_by, header_by, row_by, rows_by};

use crate::printed::{PrintedColumn, printed_columns};
use crate::records::Records;
use block_core::Steps;
use catalog_core::{ColumnDef, Schema, TableDef};
use std::alloc::{AllocError, Global};
use stream_core::{Bytes, List};
use table_core::Tables;

/// Adds the names of columns as a record.
fn push_names(records: &mut Records, columns: &[ColumnDef]) -> Result<(), AllocError>
    ensures { OnOk result (AddsText (names_by columns.now) records.old records.new) }
{
    for column in columns {
        records.push_text(column.name.as_str().as_bytes())?;
    }
    records.end()
}

/// Adds the names of the table's columns, if its texts have such.
fn push_header(records: &mut Records, definition: &TableDef) -> Result<(), AllocError>
    ensures { OnOk result (AddsText (header_by definition.now) records.old records.new) }
{
    if definition.header {
        return push_names(records, definition.columns.as_slice());
    }
    Ok(())
}

/// Adds a row as a record.
fn push_row<G>(
    records: &mut Records,
    columns: &mut [PrintedColumn],
    row: u64,
    steps: &mut Steps<G>,
) -> Result<(), AllocError>
    requires { HaveRow row columns.old }
    ensures record { OnOk result (AddsText (row_by columns.old row) records.old records.new) }
    ensures same { OnOk result (columns.new ≡ columns.old) }
{
    for place in 0..columns.len() {
        columns[place].push_field(row, records, steps)?;
    }
    records.end()
}

/// Adds so many rows in order, each as a record.
fn push_rows(
    alloc: Global,
    records: &mut Records,
    columns: &mut [PrintedColumn],
    rows: u64,
) -> Result<(), AllocError>
    requires { HaveRows rows columns.old }
    ensures { OnOk result (AddsText (rows_by columns.old rows) records.old records.new) }
{
    let mut steps = Steps::start(alloc);
    for row in 0..rows {
        push_row(records, columns, row, &mut steps)?;
    }
    Ok(())
}

/// The rows of a table as a CSV text: a line of the columns' names if the table's texts have such, then a line for each row, each
/// ended by a line feed. The bytes of a line are those of the crate `csv` at its default setting, with the table's separator. Each
/// block of a column is decoded at most once, and beside the text one decoded block for each column is held. Any error of the writer
/// is answered as want of memory.
pub fn export_text(
    alloc: Global,
    schema: &Schema,
    table: u32,
    tables: &Tables,
) -> Result<Bytes, AllocError>
    requires lawful { IsSchema schema.now }
    requires within { table < length schema.now.tables }
    requires held { HoldColumns schema.now (needs_of_table schema.now table) tables.now }
    ensures { IfOk result (λ text. text ≡ export_text schema.now table tables.now) }
{
    let definition = &schema.tables.as_slice()[table as usize];
    let count = definition.columns.as_slice().len();
    let mut columns = printed_columns(alloc, tables, table, count)?;
    let mut records = Records::new(alloc, definition.separator);
    push_header(&mut records, definition)?;
    let rows = tables.rows(table).unwrap_or(0);
    push_rows(alloc, &mut records, columns.as_mut_slice(), rows)?;
    Ok(List::from_vec(records.into_text()?))
}
