//! The slot that a save writes: the one beside a table's rows.

ghost use Rattle.std.specs.Prelude.{◌≡◌, Some, IfOk, option_map};
ghost use Rattle.stream_core.specs.Files.{Files};
ghost use Rattle.database_core.specs.NowViews.{letter_of, now_view};
ghost use Rattle.database_core.specs.SavingSteps.{BlamesStore};
ghost use Rattle.database_core.specs.TableFiles.{other_slot, slot_to_write};

use crate::errors::SaveTableError;
use crate::file_names::now_file_name;
use crate::loading::MAX_NOW_FILE;
use crate::now_files::{Now, Slot, read_now};
use std::alloc::Global;
use stream_core::{LoadError, Name, Store};

/// The slot that does not hold the rows, and `a` if none does.
fn other_slot(now: Option<Now>) -> Slot
    ensures { letter_of result ≡ other_slot (option_map now_view now) }
{
    match now {
        Some(Now { slot: Slot::A, .. }) => Slot::B,
        _ => Slot::A,
    }
}

/// The slot that a save of the table writes.
pub(crate) fn slot_to_write<S: Store>(
    alloc: Global,
    store: &mut S,
    table: &Name,
) -> Result<Slot, SaveTableError>
    ensures slot { (files : Files) → S.files store.old ≡ Some files → IfOk result (λ slot. letter_of slot ≡ slot_to_write files table.now) }
    ensures unchanged { S.files store.new ≡ S.files store.old }
    ensures causes { BlamesStore (S.faults store.old) (S.faults store.new) result }
{
    let file = now_file_name(table);
    match store.load(alloc, file.as_str(), MAX_NOW_FILE) {
        Ok(Some(bytes)) => Ok(other_slot(read_now(bytes.as_slice()))),
        Ok(None) => Ok(other_slot(None)),
        Err(LoadError::TooLong) => Ok(other_slot(None)),
        Err(LoadError::Failed) => Err(SaveTableError::Store),
        Err(LoadError::Memory) => Err(SaveTableError::Memory),
    }
}
