//! What `import` saves: the schema is read and the table found, then the text is read, and its rows are taken into columns, each stored
//! as the schema says.

ghost use Rattle.std.specs.Prelude.{◌≡◌, ◌⊎◌, ℕ, List as Items, Some, Ok, IfOk};
ghost use Rattle.definitions_outcomes.specs.Outcomes.{Gives, Then};
ghost use Rattle.stream_core.specs.Files.{Files};
ghost use Rattle.table_commands.specs.declared.databases.Found as databases;
ghost use Rattle.table_commands.specs.Databases.{definition_of, TableStep};
ghost use Rattle.table_commands.specs.ImportStops.{HasRows};
ghost use Rattle.table_commands.specs.Importing.{max_import, import_too_long, rows_in, IsImport, ReadyImport};
ghost use Rattle.table_commands.specs.Refusals.{limited};
ghost use Rattle.table_commands.specs.Saving.{There};
ghost use Rattle.table_commands.specs.Stops.{Ends, Computes, KeepsInput, KeepsBoth, IsInner};
ghost use Rattle.table_commands.specs.Views.{ready_view, IsFound, IsReady};

use crate::databases::{Found, found_table};
use crate::encoding::stored_columns;
use crate::saving::{Ready, prepare};
use crate::stops::{Refusal, Stop};
use block_core::MAX_ROWS;
use std::alloc::Global;
use stream_core::{Bytes, ReadError, Source, Store, read_all};
use table_import::{ImportError, TableData, import_table};

/// How many bytes the text has at most.
const MAX_IMPORT: u64 = 1_073_741_824;

/// The whole input, if it is not too long.
fn text_of<I: Source>(alloc: Global, input: &mut I) -> Result<Bytes, Stop>
    ensures step { (text : Items ℕ) → I.left input.old ≡ Some text → Computes (λ (b : Items ℕ). b) result (limited max_import import_too_long text) }
    ensures kept { KeepsInput (I.left input.new) (I.faults input.old) (I.faults input.new) result }
{
    match read_all(alloc, input, MAX_IMPORT) {
        Ok(text) => Ok(text),
        Err(ReadError::TooLong) => Err(Stop::Refused(Refusal::ImportTooLong)),
        Err(ReadError::Failed) => Err(Stop::InputFault),
        Err(ReadError::Memory) => Err(Stop::Memory),
    }
}

/// The columns of the text's rows. The text is given up.
fn rows_of(alloc: Global, found: &Found, text: Bytes) -> Result<TableData, Stop>
    requires { IsFound found.now }
    ensures step { HasRows (definition_of found.now) text result }
    ensures kept { IsInner result }
{
    match import_table(alloc, &found.schema, found.table, text.as_slice(), MAX_ROWS) {
        Ok(imported) => Ok(imported),
        Err(ImportError::Memory) => Err(Stop::Memory),
        Err(error) => Err(Stop::Refused(Refusal::Import(error))),
    }
}

/// What is saved of a text.
fn import_of(alloc: Global, found: Found, text: Bytes) -> Result<Ready, Stop>
    requires { IsFound found }
    ensures step { Ends ready_view result (Then (Gives (rows_in (definition_of found) text)) (λ rows. There (IsImport (definition_of found) rows))) }
    ensures ready { IfOk result IsReady }
    ensures of { IfOk result (λ one. one.found ≡ found) }
    ensures kept { IsInner result }
{
    let imported = rows_of(alloc, &found, text)?;
    let columns = stored_columns(
        alloc,
        found.definition().columns.as_slice(),
        imported.columns,
    )?;
    Ok(prepare(alloc, found, columns, "imported ")?)
}

/// What `import` saves. The input is not read where the schema or the table is refused.
pub fn ready_import<S: Store, I: Source>(
    alloc: Global,
    store: &mut S,
    input: &mut I,
    table: &str,
) -> Result<Ready, Stop>
    ensures step { (files : Files) (text : Items ℕ) → S.files store.old ≡ Some files → I.left input.old ≡ Some text → Ends ready_view result (ReadyImport files table.now text) }
    ensures ready { IfOk result IsReady }
    ensures of { IfOk result (λ one. (files : Files) → S.files store.old ≡ Some files → TableStep files table.now (Ok one.found)) }
    ensures kept { KeepsBoth (S.files store.old) (S.files store.new) (S.faults store.old) (S.faults store.new) (I.left input.new) (I.faults input.old) (I.faults input.new) result }
    ensures unheard { (files : Files) → S.files store.old ≡ Some files → ((found : databases.Found) → TableStep files table.now (Ok found) → ⊥)
        → (I.left input.new ≡ I.left input.old) × (I.faults input.new ≡ I.faults input.old) }
    // Nothing is loaded behind the text: if a load failed, the input is as it was.
    ensures early { (S.faults store.new ≡ S.faults store.old) ⊎ ((I.left input.new ≡ I.left input.old) × (I.faults input.new ≡ I.faults input.old)) }
{
    let found = found_table(alloc, store, table)?;
    let text = text_of(alloc, input)?;
    import_of(alloc, found, text)
}
