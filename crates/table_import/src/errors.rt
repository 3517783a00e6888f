//! Why a text is not a table.

use std::alloc::AllocError;

/// The first thing that is wrong with a text. Rows and fields count from 1, and a header is no row.
#[derive(Clone, Copy, Debug, PartialEq, Eq)]
pub enum ImportError {
    /// There are more rows than the limit.
    TooManyRows,
    /// A row has more or fewer fields than the table has columns.
    FieldCount { row: u64, found: u64 },
    /// A field of a number column is no number below 2^64 in digits.
    BadNumber { row: u64, field: u64 },
    /// A field of a text column is not UTF-8.
    BadText { row: u64, field: u64 },
    /// A field of a text column has more than 65,535 bytes.
    TextTooLong { row: u64, field: u64 },
    /// The key of a row is that of an earlier one.
    RepeatedKey { row: u64 },
    /// Memory was refused.
    Memory,
}

impl From<AllocError> for ImportError {
    ghost use Rattle.std.specs.Prelude.{◌≡◌};
    ghost use Rattle.table_import.specs.declared.errors.ImportError.TheVariants as variant;

    ghost from_gives = { λ _ error. error ≡ variant.Memory };

    fn from(_refused: AllocError) -> ImportError {
        ImportError::Memory
    }
}
