//! What `reformat` saves: the table is opened with all its columns, and each is given the format that the schema says.

ghost use Rattle.std.specs.Prelude.{◌≡◌, ◌<◌, ◌^◌, ℕ, Some, None, IsSome, Ok, IfOk, length, map};
ghost use Rattle.stream_core.specs.Files.{Files};
ghost use Rattle.size_chooser.specs.Profiles.{IsProfileOf};
ghost use Rattle.table_core.specs.Views.{stored_of};
ghost use Rattle.table_commands.specs.Databases.{TableStep};
ghost use Rattle.table_commands.specs.Reformatting.{data_of, held_in, ReformatOf, ReadyReformat};
ghost use Rattle.table_commands.specs.Saving.{IsInFormat, IsStoredAs, AreStoredAs};
ghost use Rattle.table_commands.specs.Stops.{Ends, KeepsStore};
ghost use Rattle.database_core.specs.Saving.{AreColumnsOf};
ghost use Rattle.table_core.specs.Tables.{Stored, PutsOnly, rows_of, stored_at};
ghost use Rattle.table_commands.specs.Views.{AreHeld, ready_view, IsFound, IsReady};

use crate::databases::{Found, found_table};
use crate::exporting::whole_table;
use crate::saving::{Ready, prepare};
use crate::stops::Stop;
use block_core::{BLOCK_LEN, Block, BlockSource, Emit, Format, FormatChoice, Steps};
use catalog_core::{ColumnDef, ColumnId};
use column_core::{Column, Cursor};
use database_core::StoredColumn;
use morph_core::morph;
use size_chooser::Profile;
use std::alloc::{AllocError, Global};
use stream_core::{List, Store};
use table_core::Tables;

/// What is known of the lengths of the column's files, by one pass over its blocks.
fn profile_of_column(alloc: Global, column: &Column) -> Profile
    ensures { IsProfileOf result column.now.values }
{
    let mut cursor = Cursor::<8>::new(column);
    let mut profile = Profile::new();
    let mut block = Block::new();
    let mut steps = Steps::start(alloc);
    for number in 0..column.count().div_ceil(BLOCK_LEN as u64) {
        cursor.block(number, &mut block, &mut steps);
        let _always_ok = profile.extend(block.as_slice());
    }
    profile
}

/// The format that the schema says, and for `auto` the one of which the file is the shortest.
fn format_for(alloc: Global, column: &Column, choice: FormatChoice) -> Format
    ensures { IsInFormat choice (record { format = result; values = column.now.values }) }
{
    match choice {
        FormatChoice::Fixed(format) => format,
        FormatChoice::Auto => profile_of_column(alloc, column).least(),
    }
}

/// The column, stored as the schema says. A column that is so already is not copied.
fn reformatted(
    alloc: Global,
    definition: &ColumnDef,
    stored: StoredColumn,
) -> Result<StoredColumn, AllocError>
    ensures { IfOk result (λ one. IsStoredAs definition.now (data_of (stored_of stored)) (stored_of one)) }
{
    let format = format_for(alloc, &stored.column, definition.format);
    if stored.column.format() == format {
        return Ok(stored);
    }
    let column = morph::<8>(alloc, &stored.column, format)?;
    Ok(StoredColumn {
        column,
        dictionary: stored.dictionary,
    })
}

/// A column that is taken out of the tables, stored as the schema says.
fn take_reformatted(
    alloc: Global,
    definition: &ColumnDef,
    id: ColumnId,
    tables: &mut Tables,
) -> Result<StoredColumn, AllocError>
    requires { IsSome (stored_at tables.old id) }
    ensures stored { IfOk result (λ one. (held : Stored) → stored_at tables.old id ≡ Some held → IsStoredAs definition.now (data_of held) (stored_of one)) }
    ensures whole { IfOk result (λ one. rows_of tables.old id.table ≡ Some (length one.column.values)) }
    ensures only { IfOk result (λ one. PutsOnly id None tables.old tables.new) }
{
    let stored = tables.take(id).unwrap();
    reformatted(alloc, definition, stored)
}

/// The columns of a table, stored as the schema says. Each is taken out of the tables, so that its old file is given up once the new
/// one is made.
fn reformatted_columns(
    alloc: Global,
    definitions: &[ColumnDef],
    table: u32,
    tables: Tables,
) -> Result<List<StoredColumn>, AllocError>
    requires few { length definitions.now < 2 ^ 32 }
    requires held { AreHeld definitions.now table tables }
    ensures fits { IfOk result (λ all. (rows : ℕ) → rows_of tables table ≡ Some rows → AreColumnsOf rows definitions.now (map stored_of all)) }
    ensures stored { IfOk result (λ all. AreStoredAs definitions.now (held_in tables table) (map stored_of all)) }
{
    let mut tables = tables;
    let mut all = Vec::with_capacity(alloc, definitions.len())?;
    for place in 0..definitions.len() {
        let id = ColumnId {
            table,
            column: place as u32,
        };
        let one = take_reformatted(alloc, &definitions[place], id, &mut tables)?;
        all.push(one)?;
    }
    Ok(List::from_vec(all))
}

/// What is saved of a table that was found.
fn reformat_of<S: Store>(alloc: Global, store: &mut S, found: Found) -> Result<Ready, Stop>
    requires { IsFound found }
    ensures step { (files : Files) → S.files store.old ≡ Some files → Ends ready_view result (ReformatOf files found) }
    ensures ready { IfOk result IsReady }
    ensures of { IfOk result (λ one. one.found ≡ found) }
    ensures kept { KeepsStore (S.files store.old) (S.files store.new) (S.faults store.old) (S.faults store.new) result }
{
    let tables = whole_table(alloc, store, &found)?;
    let columns = reformatted_columns(
        alloc,
        found.definition().columns.as_slice(),
        found.table,
        tables,
    )?;
    Ok(prepare(alloc, found, columns, "reformatted ")?)
}

/// What `reformat` saves.
pub fn ready_reformat<S: Store>(alloc: Global, store: &mut S, table: &str) -> Result<Ready, Stop>
    ensures step { (files : Files) → S.files store.old ≡ Some files → Ends ready_view result (ReadyReformat files table.now) }
    ensures ready { IfOk result IsReady }
    ensures of { IfOk result (λ one. (files : Files) → S.files store.old ≡ Some files → TableStep files table.now (Ok one.found)) }
    ensures kept { KeepsStore (S.files store.old) (S.files store.new) (S.faults store.old) (S.faults store.new) result }
{
    let found = found_table(alloc, store, table)?;
    reformat_of(alloc, store, found)
}
