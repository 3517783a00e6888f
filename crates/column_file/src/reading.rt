//! Reading a column file.

ghost use Rattle.std.specs.Prelude.{◌≡◌, ℕ, List as Items, Some, IfOk, IfErr, MatchResult};
ghost use Rattle.definitions_columns.specs.ColumnFiles as files;
ghost use Rattle.definitions_columns.specs.ColumnFiles.{IsFileOf, IsColumnFile};
ghost use Rattle.definitions_columns.specs.FileFaults.{FileFault, HasFileFault};
ghost use Rattle.block_core.specs.Formats.{format_of};
ghost use Rattle.column_core.specs.Columns.{shape};
ghost use Rattle.column_core.specs.Heads.{version_of};
ghost use Rattle.column_file.specs.Faults.{fault_of, Says, Names};

use crate::blocks::{read_blocks, rest_from};
use crate::errors::ColumnError;
use crate::tails::is_tail;
use block_core::{Block, Format};
use column_core::{Column, Version, read_head};
use std::alloc::Global;
use stream_core::Bytes;

/// The column whose file the bytes are. They are read once. A file of the second version is kept as it is, and no memory is
/// taken. One of the first version is made one of the second after all of it was checked: its blocks are kept, and memory is
/// taken for its directory.
pub fn read_column(alloc: Global, bytes: Bytes) -> Result<Column, ColumnError>
    ensures column { IfOk result (λ column. (version : files.Version) × IsFileOf version (format_of column.format) column.values bytes) }
    ensures fault { IfErr result (Says bytes) }

    // A file is accepted as its column. Memory is taken only for a file of the first version.
    ensures accepts { (format : Format) (values : Items ℕ) → IsColumnFile (format_of format) values bytes →
        MatchResult result (λ column. column ≡ shape format values) (λ _. ⊥) }
    ensures accepts_first { (format : Format) (values : Items ℕ) → IsFileOf files.first (format_of format) values bytes →
        MatchResult result (λ column. column ≡ shape format values) (λ error. error ≡ ColumnError.Memory) }

    // Bytes with a fault are refused for that fault, and never for want of memory.
    ensures refuses { (fault : FileFault) → HasFileFault bytes fault →
        MatchResult result (λ _. ⊥) (λ error. fault_of error ≡ Some fault) }
{
    match check_file(bytes.as_slice()) {
        Ok(version) => column_of(alloc, version, bytes),
        Err(error) => Err(error),
    }
}

/// The column of a file of the version.
fn column_of(alloc: Global, version: Version, bytes: Bytes) -> Result<Column, ColumnError>
    requires { (format : Format) × (values : Items ℕ) × IsFileOf (version_of version) (format_of format) values bytes }
    ensures { (format : Format) (values : Items ℕ) → IsFileOf (version_of version) (format_of format) values bytes →
        MatchResult result (λ column. column ≡ shape format values) (λ error. (error ≡ ColumnError.Memory) × (version_of version ≡ files.first)) }
{
    match version {
        Version::First => Ok(Column::upgrade(alloc, bytes)?),
        Version::Second => Ok(Column::of_file(bytes)),
    }
}

/// The version of the column file that the bytes are.
fn check_file(bytes: &[u8]) -> Result<Version, ColumnError>
    ensures ok { IfOk result (λ version. (format : Format) × (values : Items ℕ)
        × IsFileOf (version_of version) (format_of format) values bytes.now) }
    ensures fault { IfErr result (Names bytes.now) }
{
    let head = match read_head(bytes) {
        Some(head) => head,
        None => return Err(ColumnError::BadHeader),
    };
    let mut scratch = Block::new();
    let found = read_blocks(head, bytes, &mut scratch)?;
    if found.widest != head.static_width {
        return Err(ColumnError::BadWidth);
    }
    if !is_tail(head, rest_from(bytes, found.end), &mut scratch) {
        return Err(ColumnError::BadTail);
    }
    Ok(head.version)
}
