//! Why a column is not taken, and why a key is refused.

use std::alloc::AllocError;

/// Why a column is not taken, in the order in which it is tested.
#[derive(Clone, Copy, Debug, PartialEq, Eq)]
pub enum PutError {
    /// The count of its values is not the table's row count.
    Length,
    /// A value is no code of the dictionary.
    BadCode,
}

/// Why a key is refused.
#[derive(Clone, Copy, Debug, PartialEq, Eq)]
pub enum KeyError {
    /// Two rows have one key.
    Repeated,
    /// Memory was refused.
    Memory,
}

impl From<AllocError> for KeyError {
    ghost use Rattle.std.specs.Prelude.{◌≡◌};
    ghost use Rattle.table_core.specs.declared.errors.KeyError.TheVariants as variant;

    ghost from_gives = { λ _ error. error ≡ variant.Memory };

    fn from(_refused: AllocError) -> KeyError {
        KeyError::Memory
    }
}
