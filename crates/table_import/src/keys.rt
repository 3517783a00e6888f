//! The keys of a table's rows, where no two may be equal.

ghost use Rattle.std.specs.Prelude.{◌≡◌, ◌<◌, length, IfOk, OnOk, IfSome};
ghost use Rattle.table_import.specs.Imports.{key_place};
ghost use Rattle.table_import.specs.Growing.{is_key_among, AddsKey};

use crate::columns::GrowingColumn;
use catalog_core::TableDef;
use std::alloc::AllocError;
use std::collections::HashSet;

/// The place of a table's key, if it has one whose values must differ.
pub fn key_place(table: &TableDef) -> Option<u32>
    ensures { result ≡ key_place table.now }
{
    if table.repeats { None } else { table.key }
}

/// Adds the last row's key, and says whether it was there already. For keys that may be equal nothing is done.
pub fn is_repeated(
    keys: &mut HashSet<u64>,
    place: Option<u32>,
    columns: &[GrowingColumn],
) -> Result<bool, AllocError>
    requires { IfSome place (λ place. place < length columns.now) }
    ensures there { IfOk result (λ there. there ≡ is_key_among place columns.now keys.old.keys) }
    ensures added { OnOk result (AddsKey place columns.now keys.old.keys keys.new.keys) }
{
    match place {
        Some(place) => {
            let is_new = keys.insert(columns[place as usize].last_number())?;
            Ok(!is_new)
        }
        None => Ok(false),
    }
}
