//! The files of a query: they are loaded and checked, and no column is decoded.

ghost use Rattle.std.specs.Prelude.{◌≡◌, ℕ, List as Items, Some, Ok, Err, length, IfOk, IsErrOf, IsTrue, ◌↔◌};
ghost use Rattle.stream_core.specs.Files.{Files};
ghost use Rattle.column_file.specs.Faults.{Says};
ghost use Rattle.column_core.specs.Columns.{Shape};
ghost use Rattle.engine_tool.specs.Replies.{now_of, ValuesOf, for_rows, ColumnOf, TestedOf, LoadedOf};
ghost use Rattle.table_commands.specs.Stops.{Ends, EndsAs, Computes, KeepsStore, IsInner, TakesNoMemory};
ghost use Rattle.engine_tool.specs.Texts.{condition_view, query_view};
ghost use Rattle.database_core.specs.NowViews.{now_view};
ghost use Rattle.engine_tool.specs.Views.{values_of, loaded_view, HasRows};

use crate::text::{Condition, SumQuery};
use column_core::Column;
use column_file::{ColumnError, read_column};
use database_core::{Now, column_file_name, now_file_name, read_now};
use std::alloc::Global;
use stream_core::{Bytes, FileName, LoadError, Name, Store};
use table_commands::{Stop, What, bytes_of, column_what, refused};

/// How many bytes are read of a now file and of a column file at most.
const MAX_NOW_FILE: u64 = 13;

const MAX_COLUMN_FILE: u64 = 4_294_967_296;

/// The column that a condition tests.
#[derive(Drop)]
pub enum Tested {
    /// There is no condition.
    Nothing,
    /// The column that is summed, which is loaded once.
    Summed,
    Other(Column),
}

/// The columns of a query, whose files are checked.
#[derive(Drop)]
pub struct Loaded {
    pub summed: Column,
    pub tested: Tested,
}

/// Where the table's rows stand.
fn now_of<S: Store>(alloc: Global, store: &mut S, table: &Name) -> Result<Now, Stop>
    ensures step { (files : Files) → S.files store.old ≡ Some files → Computes now_view result (now_of files table.now) }
    ensures kept { KeepsStore (S.files store.old) (S.files store.new) (S.faults store.old) (S.faults store.new) result }
{
    let file = now_file_name(table);
    match store.load(alloc, file.as_str(), MAX_NOW_FILE) {
        Ok(Some(bytes)) => match read_now(bytes.as_slice()) {
            Some(now) => Ok(now),
            None => Err(refused(&file, What::BadNow)),
        },
        Ok(None) => Err(refused(&file, What::NoFile)),
        Err(LoadError::TooLong) => Err(refused(&file, What::BadNow)),
        Err(LoadError::Failed) => Err(Stop::StoreFault),
        Err(LoadError::Memory) => Err(Stop::Memory),
    }
}

/// What an error of a column file ends a command with.
fn column_stop(file: &FileName, error: ColumnError) -> Stop
    ensures step { (bytes : Items ℕ) → Says bytes error → Ends values_of (Err result) (ValuesOf file.now bytes) }
    ensures kept { IsInner {X = Shape} (Err result) }
    ensures memory { result ≡ Stop.Memory → error ≡ ColumnError.Memory }
{
    match column_what(error) {
        Some(what) => refused(file, what),
        None => Stop::Memory,
    }
}

/// The column whose file the bytes are. They are read once, and a file of version 2 is kept as it is. One of version 1 takes
/// memory, after all of it was checked.
fn checked_column(alloc: Global, file: &FileName, bytes: Bytes) -> Result<Column, Stop>
    ensures step { Ends values_of result (ValuesOf file.now bytes) }
    ensures kept { IsInner result }
{
    match read_column(alloc, bytes) {
        Ok(column) => Ok(column),
        Err(error) => Err(column_stop(file, error)),
    }
}

/// The column, where it has a value for each row.
fn for_rows(file: &FileName, rows: u64, column: Column) -> Result<Column, Stop>
    ensures step { Computes values_of result (for_rows file.now rows column.values) }
    ensures kept { TakesNoMemory result }
    ensures rows { IfOk result (λ found. length found.values ≡ rows) }
{
    if column.count() != rows {
        return Err(refused(file, What::Length));
    }
    Ok(column)
}

/// One column of the table.
fn column_of<S: Store>(
    alloc: Global,
    store: &mut S,
    table: &Name,
    now: Now,
    column: &Name,
) -> Result<Column, Stop>
    ensures step { (files : Files) → S.files store.old ≡ Some files →
        Ends values_of result (ColumnOf files table.now (now_view now) column.now) }
    ensures kept { KeepsStore (S.files store.old) (S.files store.new) (S.faults store.old) (S.faults store.new) result }
    ensures rows { IfOk result (λ found. length found.values ≡ now.rows) }
{
    let file = column_file_name(table, now.slot, column);
    let bytes = bytes_of(alloc, store, &file, MAX_COLUMN_FILE)?;
    let column = checked_column(alloc, &file, bytes)?;
    for_rows(&file, now.rows, column)
}

fn are_same(name: &Name, other: &Name) -> bool
    ensures { IsTrue result ↔ (name.now ≡ other.now) }
{
    name.as_str() == other.as_str()
}

/// The summed column, and the one that the condition tests. A column that is both is not loaded again.
fn with_tested<S: Store>(
    alloc: Global,
    store: &mut S,
    query: &SumQuery,
    now: Now,
    summed: Column,
) -> Result<Loaded, Stop>
    requires rows { length summed.values ≡ now.rows }
    requires summed { (files : Files) → S.files store.old ≡ Some files →
        ColumnOf files query.now.table (now_view now) query.now.summed (Ok summed.values) }
    ensures step { (files : Files) → S.files store.old ≡ Some files →
        Ends loaded_view result (TestedOf files query.now.table (now_view now) summed.values (condition_view query.now.condition)) }
    ensures kept { KeepsStore (S.files store.old) (S.files store.new) (S.faults store.old) (S.faults store.new) result }
    ensures rows { IfOk result (λ loaded. HasRows (loaded_view loaded)) }
{
    let Some(condition) = &query.condition else {
        return Ok(Loaded {
            summed,
            tested: Tested::Nothing,
        });
    };
    if are_same(&condition.tested, &query.summed) {
        return Ok(Loaded {
            summed,
            tested: Tested::Summed,
        });
    }
    let other = column_of(alloc, store, &query.table, now, &condition.tested)?;
    Ok(Loaded {
        summed,
        tested: Tested::Other(other),
    })
}

/// The columns of a query.
pub fn loaded_of<S: Store>(alloc: Global, store: &mut S, query: &SumQuery) -> Result<Loaded, Stop>
    ensures step { (files : Files) → S.files store.old ≡ Some files → Ends loaded_view result (LoadedOf files (query_view query.now)) }
    ensures kept { KeepsStore (S.files store.old) (S.files store.new) (S.faults store.old) (S.faults store.new) result }
    ensures rows { IfOk result (λ loaded. HasRows (loaded_view loaded)) }
{
    let now = now_of(alloc, store, &query.table)?;
    let summed = column_of(alloc, store, &query.table, now, &query.summed)?;
    with_tested(alloc, store, query, now, summed)
}
