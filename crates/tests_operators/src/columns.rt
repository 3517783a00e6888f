//! Columns of lists, and lists of every kind.

ghost use Rattle.std.specs.Prelude.{◌≡◌, ◌≤◌, length, IfOk};
ghost use Rattle.definitions_blocks.specs.Columns.{max_rows};
ghost use Rattle.column_core.specs.Columns.{shape};

use block_core::{Format, MAX_ROWS};
use column_core::{Column, encode_list};
use shapes::Shape;
use std::alloc::{AllocError, Global};

/// One value throughout, different ones that rise and that fall, few in turn, few at random, and neighbours that are far apart.
pub const SHAPES: [Shape; 6] = [
    Shape::Constant(7),
    Shape::Stepping { first: 0, step: 1 },
    Shape::FALLING_FROM_MOST,
    Shape::CYCLING,
    Shape::Scattered { bits: 6 },
    Shape::ALTERNATING,
];

/// Lengths around a block, and one of more than two.
pub const COUNTS: [u16; 6] = [0, 1, 1023, 1024, 1025, 2500];

/// The column of a list. A list that is too long for one is refused, as if memory were wanting.
pub fn column_of(alloc: Global, values: &[u64], format: Format) -> Result<Column, AllocError>
    ensures column { IfOk result (λ column. column ≡ shape format values.now) }
    ensures few { IfOk result (λ _. length values.now ≤ max_rows) }
{
    if values.len() as u64 > MAX_ROWS {
        return Err(AllocError);
    }
    encode_list(alloc, values, format)
}

/// The format with the next tag, and the first behind the last.
pub fn next_of(format: Format) -> Format {
    Format::from_tag(format.tag() % 8 + 1).unwrap_or(Format::Plain)
}
