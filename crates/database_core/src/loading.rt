//! Loading a table's files: its now file, and the bytes of columns and dictionaries.

ghost use Rattle.std.specs.Prelude.{◌≡◌, ℕ, List as Items, Some, IfErr};
ghost use Rattle.definitions_outcomes.specs.Outcomes.{Gives};
ghost use Rattle.stream_core.specs.Files.{Files};
ghost use Rattle.database_core.specs.NowViews.{now_view};
ghost use Rattle.database_core.specs.Opening.{now_of, data_file};
ghost use Rattle.database_core.specs.Opens.{Opens, KeepsStore};
ghost use Rattle.database_core.specs.Steps.{NamesNone, NamesTable};

use crate::errors::OpenError;
use crate::file_names::now_file_name;
use crate::now_files::{NOW_LEN, Now, read_now};
use std::alloc::Global;
use stream_core::{Bytes, FileName, LoadError, Name, Store};

/// How many bytes are read of a now file at most, and of a column file and a dictionary file.
pub(crate) const MAX_NOW_FILE: u64 = NOW_LEN as u64;

const MAX_DATA_FILE: u64 = 4_294_967_296;

/// The same name once more.
pub(crate) fn copy_of(file: &FileName) -> FileName
    ensures { result ≡ file.now }
{
    FileName::of(file.as_str()).unwrap()
}

/// Where a table's rows stand.
pub(crate) fn now_of<S: Store>(
    alloc: Global,
    store: &mut S,
    table: u32,
    name: &Name,
) -> Result<Now, OpenError>
    ensures step { (files : Files) → S.files store.old ≡ Some files → Opens now_view result (Gives (now_of files table name.now)) }
    ensures named { IfErr result (NamesTable table) }
    ensures kept { KeepsStore (S.files store.old) (S.files store.new) (S.faults store.old) (S.faults store.new) result }
{
    let file = now_file_name(name);
    match store.load(alloc, file.as_str(), MAX_NOW_FILE) {
        Ok(Some(bytes)) => match read_now(bytes.as_slice()) {
            Some(now) => Ok(now),
            None => Err(OpenError::BadNow { table }),
        },
        Ok(None) => Err(OpenError::NoFile { file }),
        Err(LoadError::TooLong) => Err(OpenError::BadNow { table }),
        Err(LoadError::Failed) => Err(OpenError::Store),
        Err(LoadError::Memory) => Err(OpenError::Memory),
    }
}

/// The bytes of a column file or of a dictionary file.
pub(crate) fn data_file<S: Store>(
    alloc: Global,
    store: &mut S,
    file: &FileName,
) -> Result<Bytes, OpenError>
    ensures step { (files : Files) → S.files store.old ≡ Some files → Opens (λ (bytes : Items ℕ). bytes) result (Gives (data_file files file.now)) }
    ensures named { IfErr result NamesNone }
    ensures kept { KeepsStore (S.files store.old) (S.files store.new) (S.faults store.old) (S.faults store.new) result }
{
    match store.load(alloc, file.as_str(), MAX_DATA_FILE) {
        Ok(Some(bytes)) => Ok(bytes),
        Ok(None) => Err(OpenError::NoFile {
            file: copy_of(file),
        }),
        Err(LoadError::TooLong) => Err(OpenError::TooLong {
            file: copy_of(file),
        }),
        Err(LoadError::Failed) => Err(OpenError::Store),
        Err(LoadError::Memory) => Err(OpenError::Memory),
    }
}
