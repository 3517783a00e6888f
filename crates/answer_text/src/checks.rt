//! What `check` prints.

ghost use Rattle.std.specs.Prelude.{◌≡◌, ◌<◌, ◌^◌, ◌++◌, ◌∷◌, [], IfOk, OnOk, length, decimal, option_map};
ghost use Rattle.definitions_columns.specs.Sizes.{size_of};
ghost use Rattle.block_core.specs.Formats.{format_of};
ghost use Rattle.catalog_core.specs.LawfulSchemas.{IsSchema};
ghost use Rattle.catalog_core.specs.Columns.{needs_of_all};
ghost use Rattle.table_core.specs.Held.{HoldColumns};
ghost use Rattle.answer_text.specs.Checks.{table_line, file_words, column_line, maybe_line, lines_of_columns, check_text};
ghost use Rattle.answer_text.specs.HeldColumns.{columns_at, lines_at};

use catalog_core::{ColumnDef, ColumnId, Schema, TableDef};
use column_core::Column;
use itoa::Buffer;
use std::alloc::{AllocError, Global};
use stream_core::{Bytes, List};
use table_core::Tables;

fn push_number(text: &mut Vec<u8>, number: u64) -> Result<(), AllocError>
    ensures { OnOk result (text.new.items ≡ text.old.items ++ decimal number) }
{
    let mut buffer = Buffer::new();
    text.extend_from_slice(buffer.format(number).as_bytes())
}

/// Adds a word and the byte behind it.
fn push_word(text: &mut Vec<u8>, word: &str, end: u8) -> Result<(), AllocError>
    ensures { OnOk result (text.new.items ≡ text.old.items ++ word.now ++ end ∷ []) }
{
    text.extend_from_slice(word.as_bytes())?;
    Ok(text.push(end)?)
}

/// Adds `TABLE ROWS`.
fn push_table_line(text: &mut Vec<u8>, table: &str, rows: u64) -> Result<(), AllocError>
    ensures { OnOk result (text.new.items ≡ text.old.items ++ table_line table.now rows) }
{
    push_word(text, table, b' ')?;
    push_number(text, rows)?;
    Ok(text.push(b'\n')?)
}

/// How many bytes the column's file has.
fn file_len(column: &Column) -> u64
    ensures { result ≡ size_of (format_of column.now.format) column.now.values }
{
    column.encoded().len() as u64
}

/// Adds `FORMAT BYTES`, a column's format and the length of its file.
fn push_file(text: &mut Vec<u8>, column: &Column) -> Result<(), AllocError>
    ensures { OnOk result (text.new.items ≡ text.old.items ++ file_words column.now) }
{
    push_word(text, column.format().name(), b' ')?;
    push_number(text, file_len(column))?;
    Ok(text.push(b'\n')?)
}

/// Adds `TABLE.COLUMN FORMAT BYTES`.
fn push_column_line(
    text: &mut Vec<u8>,
    table: &str,
    name: &str,
    column: &Column,
) -> Result<(), AllocError>
    ensures { OnOk result (text.new.items ≡ text.old.items ++ column_line table.now name.now column.now) }
{
    push_word(text, table, b'.')?;
    push_word(text, name, b' ')?;
    push_file(text, column)
}

/// Adds the line of a column, if it is there.
fn push_column(
    text: &mut Vec<u8>,
    table: &str,
    name: &str,
    column: Option<&Column>,
) -> Result<(), AllocError>
    ensures { OnOk result (text.new.items ≡ text.old.items ++ maybe_line table.now name.now (option_map (λ column. column.now) column.entry)) }
{
    match column {
        Some(column) => push_column_line(text, table, name, column),
        None => Ok(()),
    }
}

/// Adds the lines of a table's columns.
fn push_columns(
    text: &mut Vec<u8>,
    name: &str,
    columns: &[ColumnDef],
    table: u32,
    tables: &Tables,
) -> Result<(), AllocError>
    requires few { length columns.now < 2 ^ 32 }
    requires same { length (columns_at tables.now table) ≡ length columns.now }
    ensures { OnOk result (text.new.items ≡ text.old.items ++ lines_of_columns name.now columns.now (columns_at tables.now table)) }
{
    for place in 0..columns.len() {
        let id = ColumnId {
            table,
            column: place as u32,
        };
        push_column(text, name, columns[place].name.as_str(), tables.column(id))?;
    }
    Ok(())
}

/// Adds the lines of a table.
fn push_table(
    text: &mut Vec<u8>,
    definition: &TableDef,
    table: u32,
    tables: &Tables,
) -> Result<(), AllocError>
    requires few { length definition.now.columns < 2 ^ 32 }
    requires within { table < length tables.now }
    requires same { length (columns_at tables.now table) ≡ length definition.now.columns }
    ensures { OnOk result (text.new.items ≡ text.old.items ++ lines_at definition.now tables.now table) }
{
    let name = definition.name.as_str();
    push_table_line(text, name, tables.rows(table).unwrap_or(0))?;
    push_columns(text, name, definition.columns.as_slice(), table, tables)
}

/// A line for each table of the schema, `TABLE ROWS`, and below it one for each of its columns, `TABLE.COLUMN FORMAT BYTES`, with
/// the number of bytes of the column's file as it is written.
pub fn check_text(alloc: Global, schema: &Schema, tables: &Tables) -> Result<Bytes, AllocError>
    requires lawful { IsSchema schema.now }
    requires held { HoldColumns schema.now (needs_of_all schema.now) tables.now }
    ensures { IfOk result (λ text. text ≡ check_text schema.now tables.now) }
{
    let definitions = schema.tables.as_slice();
    let mut text = Vec::new(alloc);
    for table in 0..definitions.len() {
        push_table(&mut text, &definitions[table], table as u32, tables)?;
    }
    Ok(List::from_vec(text))
}
