//! What is ready to be saved, and its saving. The line that a command answers is made before anything is saved.

ghost use Rattle.std.specs.Prelude.{◌≡◌, IfOk, map};
ghost use Rattle.table_core.specs.Views.{stored_of};
ghost use Rattle.database_core.specs.Saving.{row_count};
ghost use Rattle.table_commands.specs.Databases.{definition_of};
ghost use Rattle.table_commands.specs.SavingStops.{SavesTold, KeepsOthers};
ghost use Rattle.table_commands.specs.Views.{FitTable, ready_view, IsFound, IsReady, saved_line};

use crate::databases::Found;
use crate::stops::Stop;
use database_core::{SaveTableError, StoredColumn, save_table};
use itoa::Buffer;
use std::alloc::{AllocError, Global};
use stream_core::{Bytes, List, Name, Store};

/// A table that is about to be saved: its columns, and the line that is answered then.
#[derive(Drop)]
pub struct Ready {
    pub(crate) found: Found,
    pub(crate) columns: List<StoredColumn>,
    pub(crate) line: Bytes,
}

/// `WORD TABLE ROWS rows`.
fn saved_line(alloc: Global, word: &str, table: &Name, rows: u64) -> Result<Bytes, AllocError>
    ensures { IfOk result (λ line. line ≡ saved_line word.now table.now rows) }
{
    let mut line = Vec::new(alloc);
    let mut buffer = Buffer::new();
    line.extend_from_slice(word.as_bytes())?;
    line.extend_from_slice(table.as_str().as_bytes())?;
    line.extend_from_slice(b" ")?;
    line.extend_from_slice(buffer.format(rows).as_bytes())?;
    line.extend_from_slice(b" rows\n")?;
    Ok(List::from_vec(line))
}

/// The columns of the table that was found, ready to be saved.
pub(crate) fn prepare(
    alloc: Global,
    found: Found,
    columns: List<StoredColumn>,
    word: &str,
) -> Result<Ready, AllocError>
    requires found { IsFound found }
    requires fits { FitTable (definition_of found) (map stored_of columns) }
    ensures ready { IfOk result IsReady }
    ensures table { IfOk result (λ one. (one.found ≡ found) × (one.columns ≡ columns)) }
    ensures line { IfOk result (λ one. one.line ≡ saved_line word.now (definition_of found).name (row_count (map stored_of columns))) }
{
    let rows = row_count(columns.as_slice());
    let line = saved_line(alloc, word, &found.definition().name, rows)?;
    Ok(Ready {
        found,
        columns,
        line,
    })
}

/// How many rows the columns have.
fn row_count(columns: &[StoredColumn]) -> u64
    ensures { result ≡ row_count (map stored_of columns.now) }
{
    match columns {
        [first, ..] => first.column.count(),
        [] => 0,
    }
}

/// Saves what is ready, and gives the line that says so.
pub fn save_ready<S: Store>(alloc: Global, store: &mut S, ready: Ready) -> Result<Bytes, Stop>
    requires { IsReady ready }
    ensures saved { SavesTold (ready_view ready) (S.files store.old) (S.files store.new) result }
    ensures kept { KeepsOthers (ready_view ready) (S.files store.old) (S.files store.new) (S.faults store.old) (S.faults store.new) result }
{
    let Ready {
        found,
        columns,
        line,
    } = ready;
    match save_table(alloc, store, &found.schema, found.table, &columns) {
        Ok(()) => Ok(line),
        Err(SaveTableError::Store) => Err(Stop::StoreFault),
        Err(SaveTableError::Switch) => Err(Stop::StoreFault),
        Err(SaveTableError::Memory) => Err(Stop::Memory),
    }
}
