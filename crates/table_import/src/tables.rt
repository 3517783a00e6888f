//! The import of a table.

ghost use Rattle.std.specs.Prelude.{◌≡◌, ◌≢◌, ◌≤◌, ◌<◌, ℕ, List as Items, [], Ok, Err, length, IfOk, IfErr, IfSome};
ghost use Rattle.std.specs.List.{AllByRecursion};
ghost use Rattle.definitions_blocks.specs.Columns.{max_rows};
ghost use Rattle.catalog_core.specs.Columns.{table_at};
ghost use Rattle.catalog_core.specs.LawfulSchemas.{IsSchema, IsTableDef};
ghost use Rattle.table_import.specs.Imports.{Row, imported};
ghost use Rattle.table_import.specs.TableData.{HoldRows, AreTableColumns};
ghost use Rattle.table_import.specs.Growing.{values_of, IsLawful, AreEmpty, Holds, HoldAll};

use crate::columns::GrowingColumn;
use crate::errors::ImportError;
use crate::rows::import_rows;
use catalog_core::{ColumnDef, Dictionary, Schema, TableDef};
use std::alloc::{AllocError, Global};
use stream_core::List;

/// So many bytes at the start of a text tell how long its lines are.
const SAMPLE: usize = 65_536;

/// The values of a column, one for each row. Those of a text column are codes of its dictionary.
#[derive(Drop)]
pub struct ColumnValues {
    pub values: List<u64>,
    pub dictionary: Option<Dictionary>,
}

/// The columns of a table, in the order of the schema.
#[derive(Drop)]
pub struct TableData {
    pub columns: List<ColumnValues>,
}

/// The rows of a CSV text as the columns of a table of the schema, or the first refusal: row by row the limit, the count of the
/// fields, each field, and the key. The text is gone through once, and each field goes straight into its column.
///
/// Memory is taken for the columns, 8 bytes for a value, for each distinct text, for one record, and for the keys of a dimension whose
/// keys may not repeat. Number columns get room at the start for the rows that the text's first lines let expect.
pub fn import_table(
    alloc: Global,
    schema: &Schema,
    table: u32,
    text: &[u8],
    row_limit: u64,
) -> Result<TableData, ImportError>
    requires lawful { IsSchema schema.now }
    requires within { table < length schema.now.tables }
    requires few { row_limit ≤ max_rows }
    ensures rows { IfOk result (λ «data». IfSome (table_at schema.now table) (λ definition.
        (rows : Items Row) × (imported definition row_limit [] text.now ≡ Ok rows) × HoldRows definition rows «data».columns)) }
    ensures fits { IfOk result (λ «data». IfSome (table_at schema.now table) (λ definition. (rows : ℕ) × (rows ≤ row_limit) × AreTableColumns definition rows «data».columns)) }
    ensures refused { IfErr result (λ error. error ≢ ImportError.Memory → IfSome (table_at schema.now table) (λ definition. imported definition row_limit [] text.now ≡ Err error)) }
{
    import(
        alloc,
        &schema.tables.as_slice()[table as usize],
        text,
        row_limit,
    )
}

fn import(
    alloc: Global,
    table: &TableDef,
    text: &[u8],
    limit: u64,
) -> Result<TableData, ImportError>
    requires lawful { IsTableDef table.now }
    requires few { limit ≤ max_rows }
    ensures rows { IfOk result (λ «data». (rows : Items Row) × (imported table.now limit [] text.now ≡ Ok rows) × HoldRows table.now rows «data».columns) }
    ensures fits { IfOk result (λ «data». (rows : ℕ) × (rows ≤ limit) × AreTableColumns table.now rows «data».columns) }
    ensures refused { IfErr result (λ error. error ≢ ImportError.Memory → imported table.now limit [] text.now ≡ Err error) }
{
    let definitions = table.columns.as_slice();
    let rows = expected_rows(definitions.len(), text, limit);
    let mut columns = empty_columns(alloc, definitions, rows)?;
    import_rows(table, columns.as_mut_slice(), alloc, text, limit)?;
    Ok(TableData {
        columns: List::from_vec(finished(columns)?),
    })
}

/// How many rows a text is likely to have, by the lines at its start. Columns with room for them take at most four bytes for each byte
/// of the text, as the columns of a text of single digits do.
fn expected_rows(columns: usize, text: &[u8], limit: u64) -> usize {
    let start = &text[..text.len().min(SAMPLE)];
    let lines = start.iter().filter(|byte| **byte == b'\n').count();
    let guess = lines.saturating_mul(text.len() / SAMPLE + 1);
    guess
        .min(text.len() / columns.saturating_mul(2).max(1))
        .min(limit as usize)
}

/// Columns of no values, with room for so many.
fn empty_columns(
    alloc: Global,
    columns: &[ColumnDef],
    rows: usize,
) -> Result<Vec<GrowingColumn>, AllocError>
    ensures { IfOk result (λ empty. AreEmpty columns.now empty.items) }
{
    let mut empty = Vec::with_capacity(alloc, columns.len())?;
    for column in columns {
        empty.push(GrowingColumn::new(alloc, column.kind, rows))?;
    }
    Ok(empty)
}

/// The columns, each with its dictionary if it has texts.
fn finished(columns: Vec<GrowingColumn>) -> Result<Vec<ColumnValues>, AllocError>
    requires few { AllByRecursion (λ column. length (values_of column) ≤ max_rows) columns.items }
    requires lawful { AllByRecursion (λ column. AllByRecursion IsLawful (values_of column)) columns.items }
    ensures { IfOk result (λ done. HoldAll columns.items done.items) }
{
    let mut done = Vec::with_capacity(*columns.allocator(), columns.len())?;
    for column in columns {
        done.push(finish(column)?)?;
    }
    Ok(done)
}

fn finish(column: GrowingColumn) -> Result<ColumnValues, AllocError>
    requires few { length (values_of column) ≤ max_rows }
    requires lawful { AllByRecursion IsLawful (values_of column) }
    ensures { IfOk result (Holds column) }
{
    match column {
        GrowingColumn::Numbers(values) => Ok(ColumnValues {
            values: List::from_vec(values),
            dictionary: None,
        }),
        GrowingColumn::Texts(texts) => {
            let coded = texts.finish()?;
            Ok(ColumnValues {
                values: coded.codes,
                dictionary: Some(coded.dictionary),
            })
        }
    }
}
