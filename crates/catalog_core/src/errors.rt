//! Why a file is no schema or no dictionary.

use std::alloc::AllocError;
use stream_core::Name;

/// Why a text is no schema. Tables and columns count from 1; 0 is none.
#[derive(Drop)]
pub enum SchemaError {
    /// The bytes are no TOML text.
    Text,
    /// A key, or what it holds, is not allowed: at the top level if `table` is 0, among the table's own keys if `column` is 0,
    /// and else in that entry of the array `column`.
    Shape { table: u32, column: u32 },
    /// The first name that equals an earlier one, of all tables' and then of all columns'.
    Repeated { name: Name },
    /// Memory was refused.
    Memory,
}

impl From<AllocError> for SchemaError {
    ghost use Rattle.std.specs.Prelude.{◌≡◌};
    ghost use Rattle.catalog_core.specs.declared.errors.SchemaError.TheVariants as variant;

    ghost from_gives = { λ _ error. error ≡ variant.Memory };

    fn from(_refused: AllocError) -> SchemaError {
        SchemaError::Memory
    }
}

/// Why bytes are no dictionary file, in the order in which they are tested.
#[derive(Clone, Copy, Debug, PartialEq, Eq)]
pub enum DictError {
    /// There are fewer than 16 bytes, the first 8 are not those of the format, or the count is above 268,435,456.
    BadHeader,
    /// The first entry, from 0, that is cut, longer than 65,535 bytes, not UTF-8, or not greater than the one before.
    BadEntry { entry: u64 },
    /// All entries are good, and bytes follow the last one.
    Trailing,
    /// Memory was refused.
    Memory,
}

impl From<AllocError> for DictError {
    ghost use Rattle.std.specs.Prelude.{◌≡◌};
    ghost use Rattle.catalog_core.specs.declared.errors.DictError.TheVariants as variant;

    ghost from_gives = { λ _ error. error ≡ variant.Memory };

    fn from(_refused: AllocError) -> DictError {
        DictError::Memory
    }
}
