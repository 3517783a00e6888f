//! The answer to `export`: the table is opened with all its columns, and its rows are printed once all is good.

ghost use Rattle.std.specs.Prelude.{◌≡◌, ℕ, List as Items, Some, IfOk};
ghost use Rattle.stream_core.specs.Files.{Files};
ghost use Rattle.catalog_core.specs.Columns.{needs_of_table};
ghost use Rattle.table_core.specs.Held.{HoldNeeds};
ghost use Rattle.table_core.specs.Tables.{TableState};
ghost use Rattle.table_commands.specs.Exporting.{WholeTable, ExportOf, ExportReply};
ghost use Rattle.table_commands.specs.Stops.{Ends, EndsAs, KeepsStore};
ghost use Rattle.table_commands.specs.Views.{IsFound};

use crate::databases::{Found, found_table, opened};
use crate::stops::Stop;
use answer_text::export_text;
use catalog_core::Needs;
use std::alloc::Global;
use stream_core::{Bytes, Store};
use table_core::Tables;

/// A table with all its columns.
pub(crate) fn whole_table<S: Store>(
    alloc: Global,
    store: &mut S,
    found: &Found,
) -> Result<Tables, Stop>
    requires { IsFound found.now }
    ensures step { (files : Files) → S.files store.old ≡ Some files →
        Ends (λ (tables : Items TableState). tables) result (WholeTable files found.now) }
    ensures held { IfOk result (HoldNeeds found.now.schema (needs_of_table found.now.schema found.now.table)) }
    ensures kept { KeepsStore (S.files store.old) (S.files store.new) (S.faults store.old) (S.faults store.new) result }
{
    let needs = Needs::of_table(alloc, &found.schema, found.table)?;
    opened(alloc, store, &found.schema, &needs)
}

/// The rows of a table that was found.
fn export_of<S: Store>(alloc: Global, store: &mut S, found: &Found) -> Result<Bytes, Stop>
    requires { IsFound found.now }
    ensures step { (files : Files) → S.files store.old ≡ Some files → EndsAs result (ExportOf files found.now) }
    ensures kept { KeepsStore (S.files store.old) (S.files store.new) (S.faults store.old) (S.faults store.new) result }
{
    let tables = whole_table(alloc, store, found)?;
    Ok(export_text(alloc, &found.schema, found.table, &tables)?)
}

/// The answer to `export`.
pub fn export_answer<S: Store>(alloc: Global, store: &mut S, table: &str) -> Result<Bytes, Stop>
    ensures step { (files : Files) → S.files store.old ≡ Some files → EndsAs result (ExportReply files table.now) }
    ensures kept { KeepsStore (S.files store.old) (S.files store.new) (S.faults store.old) (S.faults store.new) result }
{
    let found = found_table(alloc, store, table)?;
    export_of(alloc, store, &found)
}
