//! The answer to `check`: the schema is read, all tables are opened with all their columns, and the lines are made once all is
//! good.

ghost use Rattle.std.specs.Prelude.{◌≡◌, Some};
ghost use Rattle.stream_core.specs.Files.{Files};
ghost use Rattle.catalog_core.specs.LawfulSchemas.{IsSchema};
ghost use Rattle.table_commands.specs.Checking.{CheckOf, CheckReply};
ghost use Rattle.table_commands.specs.Stops.{EndsAs, KeepsStore};

use crate::databases::{opened, schema_of};
use crate::stops::Stop;
use answer_text::check_text;
use catalog_core::{Needs, Schema};
use std::alloc::Global;
use stream_core::{Bytes, Store};

/// The lines of a schema's tables and columns.
fn check_of<S: Store>(alloc: Global, store: &mut S, schema: &Schema) -> Result<Bytes, Stop>
    requires { IsSchema schema.now }
    ensures step { (files : Files) → S.files store.old ≡ Some files → EndsAs result (CheckOf files schema.now) }
    ensures kept { KeepsStore (S.files store.old) (S.files store.new) (S.faults store.old) (S.faults store.new) result }
{
    let needs = Needs::of_all(alloc, schema)?;
    let tables = opened(alloc, store, schema, &needs)?;
    Ok(check_text(alloc, schema, &tables)?)
}

/// The answer to `check`.
pub fn check_answer<S: Store>(alloc: Global, store: &mut S) -> Result<Bytes, Stop>
    ensures step { (files : Files) → S.files store.old ≡ Some files → EndsAs result (CheckReply files) }
    ensures kept { KeepsStore (S.files store.old) (S.files store.new) (S.faults store.old) (S.faults store.new) result }
{
    let schema = schema_of(alloc, store)?;
    check_of(alloc, store, &schema)
}
