//! Opening a database.

ghost use Rattle.std.specs.Prelude.{◌≡◌, Some, IfOk, IfErr};
ghost use Rattle.stream_core.specs.Files.{Files};
ghost use Rattle.catalog_core.specs.LawfulSchemas.{IsSchema};
ghost use Rattle.catalog_core.specs.Columns.{IsNeeds};
ghost use Rattle.table_core.specs.Held.{HoldNeeds};
ghost use Rattle.table_core.specs.Tables.{TableState};
ghost use Rattle.database_core.specs.Opening.{Opened};
ghost use Rattle.database_core.specs.Opens.{Opens, Names, KeepsStore};

use crate::errors::OpenError;
use crate::filling::fill_table;
use catalog_core::{Needs, Schema};
use std::alloc::Global;
use stream_core::Store;
use table_core::Tables;

/// Opens what is needed of a database, and loads nothing else: of a now file at most 13 bytes, of any other file at most
/// 4,294,967,296. The tables keep the bytes of the files, and 8 bytes for each text of a dictionary; a key that may not repeat is copied
/// and sorted, in n log n. `Store` comes if a load fails, in place of what that file would have given. After an error nothing is kept.
pub fn open_for<S: Store>(
    alloc: Global,
    store: &mut S,
    schema: &Schema,
    needs: &Needs,
) -> Result<Tables, OpenError>
    requires lawful { IsSchema schema.now }
    requires ordered { IsNeeds schema.now needs.now }
    ensures step { (files : Files) → S.files store.old ≡ Some files → Opens (λ tables. tables) result (Opened files schema.now needs.now) }
    ensures named { IfErr result (Names needs.now) }
    ensures held { IfOk result (HoldNeeds schema.now needs.now) }
    ensures kept { KeepsStore (S.files store.old) (S.files store.new) (S.faults store.old) (S.faults store.new) result }
{
    let mut tables = Tables::new(alloc, schema)?;
    for table in needs.tables.as_slice() {
        fill_table(alloc, store, &mut tables, schema, needs, *table)?;
    }
    Ok(tables)
}
