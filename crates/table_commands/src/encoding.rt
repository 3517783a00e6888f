//! Columns in the formats of the schema.

ghost use Rattle.std.specs.Prelude.{◌≡◌, ◌≤◌, length, map, IfOk};
ghost use Rattle.std.specs.List.{AllByRecursion};
ghost use Rattle.definitions_blocks.specs.Columns.{max_rows};
ghost use Rattle.table_core.specs.Views.{stored_of};
ghost use Rattle.table_commands.specs.Importing.{data_of};
ghost use Rattle.table_commands.specs.Saving.{IsInFormat, IsStoredAs, AreStoredAs};

use block_core::{Format, FormatChoice};
use catalog_core::ColumnDef;
use column_core::{Column, encode_list};
use database_core::StoredColumn;
use size_chooser::profile_of;
use std::alloc::{AllocError, Global};
use stream_core::List;
use table_import::ColumnValues;

/// The format that the schema says, and for `auto` the one of which the file is the shortest: of several such the first by tag.
fn format_for(values: &[u64], choice: FormatChoice) -> Format
    requires { length values.now ≤ max_rows }
    ensures { IsInFormat choice (record { format = result; values = values.now }) }
{
    match choice {
        FormatChoice::Fixed(format) => format,
        FormatChoice::Auto => profile_of(values).least(),
    }
}

/// The column of values, stored as the schema says. The values are given up.
fn stored(
    alloc: Global,
    definition: &ColumnDef,
    column: ColumnValues,
) -> Result<StoredColumn, AllocError>
    requires { length column.values ≤ max_rows }
    ensures { IfOk result (λ one. IsStoredAs definition.now (data_of column) (stored_of one)) }
{
    let values = column.values.as_slice();
    let format = format_for(values, definition.format);
    let encoded = encode_list(alloc, values, format)?;
    Ok(StoredColumn {
        column: encoded,
        dictionary: column.dictionary,
    })
}

/// The columns of a table, stored as the schema says. The values of each are given up once its file is made.
pub(crate) fn stored_columns(
    alloc: Global,
    definitions: &[ColumnDef],
    columns: List<ColumnValues>,
) -> Result<List<StoredColumn>, AllocError>
    requires same { length columns ≡ length definitions.now }
    requires few { AllByRecursion (λ column. length column.values ≤ max_rows) columns }
    ensures { IfOk result (λ all. AreStoredAs definitions.now (map data_of columns) (map stored_of all)) }
{
    let mut all = Vec::with_capacity(alloc, definitions.len())?;
    let mut place = 0;
    for column in columns.into_vec() {
        all.push(stored(alloc, &definitions[place], column)?)?;
        place += 1;
    }
    Ok(List::from_vec(all))
}
