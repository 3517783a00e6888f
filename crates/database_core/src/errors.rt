//! Why a database does not open, and why a table is not saved.

use catalog_core::DictError;
use column_file::ColumnError;
use std::alloc::AllocError;
use stream_core::FileName;

/// Why a database does not open. Tables count from 0.
#[derive(Drop)]
pub enum OpenError {
    /// A call of the store failed.
    Store,
    /// A column file or a dictionary file has more than 4,294,967,296 bytes.
    TooLong { file: FileName },
    /// There is no such file.
    NoFile { file: FileName },
    /// The table's now file is not 13 bytes in the form of a now file.
    BadNow { table: u32 },
    /// The bytes of a column file are no column. The error is not `Memory`.
    Column { file: FileName, error: ColumnError },
    /// The count of a column's values is not the table's row count.
    Length { file: FileName },
    /// The bytes of a dictionary file are no dictionary. The error is not `Memory`.
    Dict { file: FileName, error: DictError },
    /// A value of this column file is no code of the column's dictionary.
    BadCode { file: FileName },
    /// Two rows of a dimension whose keys may not repeat have one key.
    RepeatedKey { table: u32 },
    /// Memory was refused.
    Memory,
}

impl From<AllocError> for OpenError {
    ghost use Rattle.std.specs.Prelude.{◌≡◌};
    ghost use Rattle.database_core.specs.declared.errors.OpenError.TheVariants as variant;

    ghost from_gives = { λ _ error. error ≡ variant.Memory };

    fn from(_refused: AllocError) -> OpenError {
        OpenError::Memory
    }
}

/// Why a table was not saved.
#[derive(Clone, Copy, Debug, PartialEq, Eq)]
pub enum SaveTableError {
    /// The load of the now file or the save of a data file failed. The rows that stood before stand still.
    Store,
    /// The save of the now file failed. All data files are written; of the now file nothing is said.
    Switch,
    /// Memory was refused. The rows that stood before stand still.
    Memory,
}
