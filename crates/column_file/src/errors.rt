//! Why bytes are no column file.

use std::alloc::AllocError;

/// Why bytes are no column file: the first that applies, in this order. A fault of an entry or a block comes before all that
/// concern later blocks.
#[derive(Clone, Copy, Debug, PartialEq, Eq)]
pub enum ColumnError {
    /// The first 16 bytes are no head: there are fewer, they begin with another word or a version other than 1 and 2, the tag
    /// is above 7, the format can't have the static width, the tail's width is above 64, or the count is above 268,435,456.
    /// In version 1 the tail's width has to be 0, and in a `plain` file of version 2 it has to be 64.
    BadHeader,
    /// The blocks before this one are good, and the directory has another place for this one, or ends before its entry. Only
    /// files of version 2 in the formats with tags 2 to 7 have a directory. Blocks are numbered from 0.
    BadDirectory { block: u64 },
    /// The blocks before this one are good, the directory has this one's place, if there is one, and no block of the format
    /// stands there.
    BadBlock { block: u64 },
    /// All blocks are good, but the static width in the head is not the least that holds their values.
    BadWidth,
    /// All blocks and the static width are good, but what follows is not the values that are left: it is shorter or longer,
    /// a bit behind the last value is not 0, or a smaller width holds the values. In version 1 and in `plain` they are words,
    /// and only the length can be wrong.
    BadTail,
    /// The bytes are a file of version 1, and memory was refused.
    Memory,
}

impl From<AllocError> for ColumnError {
    ghost use Rattle.std.specs.Prelude.{◌≡◌};
    ghost use Rattle.column_file.specs.declared.errors.ColumnError.TheVariants as variant;

    ghost from_gives = { λ _ error. error ≡ variant.Memory };

    fn from(_refused: AllocError) -> ColumnError {
        ColumnError::Memory
    }
}
