//! Files of a database: their bytes, and the refusals of those that are not good.

ghost use Rattle.std.specs.Prelude.{◌≡◌, ◌≢◌, ℕ, List as Items, Some, option_map, IsSome};
ghost use Rattle.stream_core.specs.Files.{Files};
ghost use Rattle.table_commands.specs.Databases.{column_text, dictionary_text};
ghost use Rattle.table_commands.specs.Refusals.{bytes_of};
ghost use Rattle.table_commands.specs.Stops.{Computes, KeepsStore, what_text};

use crate::stops::{Refusal, Stop, What};
use catalog_core::DictError;
use column_file::ColumnError;
use std::alloc::Global;
use stream_core::{Bytes, FileName, LoadError, Store};

/// The refusal of a file.
pub fn refused(file: &FileName, what: What) -> Stop
    ensures { result ≡ Stop.Refused (Refusal.Database file.now what) }
{
    let file = FileName::of(file.as_str()).unwrap();
    Stop::Refused(Refusal::Database(file, what))
}

/// The bytes of a file that has not more than the limit.
pub fn bytes_of<S: Store>(
    alloc: Global,
    store: &mut S,
    file: &FileName,
    limit: u64,
) -> Result<Bytes, Stop>
    ensures step { (files : Files) → S.files store.old ≡ Some files → Computes (λ (b : Items ℕ). b) result (bytes_of limit files file.now) }
    ensures kept { KeepsStore (S.files store.old) (S.files store.new) (S.faults store.old) (S.faults store.new) result }
{
    match store.load(alloc, file.as_str(), limit) {
        Ok(Some(bytes)) => Ok(bytes),
        Ok(None) => Err(refused(file, What::NoFile)),
        Err(LoadError::TooLong) => Err(refused(file, What::TooLong)),
        Err(LoadError::Failed) => Err(Stop::StoreFault),
        Err(LoadError::Memory) => Err(Stop::Memory),
    }
}

/// What is wrong with a column file: nothing if memory was refused.
pub fn column_what(error: ColumnError) -> Option<What>
    ensures what { option_map what_text result ≡ column_text error }
    ensures named { error ≢ ColumnError.Memory → IsSome result }
{
    match error {
        ColumnError::BadHeader => Some(What::BadHeader),
        ColumnError::BadDirectory { block } => Some(What::BadDirectory(block)),
        ColumnError::BadBlock { block } => Some(What::BadBlock(block)),
        ColumnError::BadWidth => Some(What::BadWidth),
        ColumnError::BadTail => Some(What::BadTail),
        ColumnError::Memory => None,
    }
}

/// What is wrong with a dictionary file: nothing if memory was refused.
pub fn dictionary_what(error: DictError) -> Option<What>
    ensures what { option_map what_text result ≡ dictionary_text error }
    ensures named { error ≢ DictError.Memory → IsSome result }
{
    match error {
        DictError::BadHeader => Some(What::BadHeader),
        DictError::BadEntry { entry } => Some(What::BadEntry(entry)),
        DictError::Trailing => Some(What::Trailing),
        DictError::Memory => None,
    }
}
