//! Why a query does not bind.

use std::alloc::{AllocError, AllocFailed};

/// Why a query does not bind to a schema. `at` is the place in the query's text of the first byte of the name or literal that is
/// refused.
#[derive(Clone, Copy, Debug, PartialEq, Eq)]
pub enum BindError {
    /// A name of FROM is no table of the schema.
    UnknownTable { at: u64 },
    /// A name is no column of the schema.
    UnknownColumn { at: u64 },
    /// A column's table does not stand in FROM.
    NotInFrom { at: u64 },
    /// FROM has no fact table, or a second one, which stands at `at`.
    FactCount { at: u64 },
    /// A condition between two columns is not one between a number column of the fact table and the key of a dimension.
    JoinShape { at: u64 },
    /// A dimension of FROM, which stands at `at`, is not joined.
    JoinMissing { at: u64 },
    /// A dimension is joined a second time.
    JoinTwice { at: u64 },
    /// A literal is not of its column's kind, or a column inside a sum has texts.
    TypeMismatch { at: u64 },
    /// A column of SELECT does not stand in GROUP BY.
    GroupMismatch { at: u64 },
    /// A name of ORDER BY is no alias of a sum and no column of GROUP BY.
    OrderUnknown { at: u64 },
    /// A table or a column of GROUP BY was named before, or an alias equals an earlier one or a column of GROUP BY.
    NameTwice { at: u64 },
    /// Memory was refused.
    Memory,
}

impl From<AllocError> for BindError {
    ghost use Rattle.std.specs.Prelude.{◌≡◌};
    ghost use Rattle.query_bind.specs.declared.errors.BindError.TheVariants as variant;

    ghost from_gives = { λ _ error. error ≡ variant.Memory };

    fn from(_refused: AllocError) -> BindError {
        BindError::Memory
    }
}

impl<T: Drop> From<AllocFailed<T>> for BindError {
    ghost use Rattle.std.specs.Prelude.{◌≡◌};
    ghost use Rattle.query_bind.specs.declared.errors.BindError.TheVariants as variant;

    ghost from_gives = { λ _ error. error ≡ variant.Memory };

    fn from(_refused: AllocFailed<T>) -> BindError {
        BindError::Memory
    }
}
