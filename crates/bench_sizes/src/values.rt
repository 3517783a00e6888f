//! The lists that are measured. `bench/sizes.cpp` makes those of the shapes `any`, `runs` and `rising` too.

ghost use Rattle.std.specs.Prelude.{◌≤◌, length, IfOk};
ghost use Rattle.definitions_blocks.specs.Columns.{max_rows};

use block_core::MAX_ROWS;
use shapes::{Random, Shape};
use std::alloc::{AllocError, Global};

/// The shape that has the name, if one has it.
pub fn shape_named(name: &str) -> Option<Shape> {
    match name {
        "constant" => Some(Shape::Constant(7)),
        "counting" => Some(Shape::Stepping { first: 0, step: 1 }),
        "sevens" => Some(Shape::Counting {
            times: 7,
            below: 1 << 20,
        }),
        "turning" => Some(Shape::Turning {
            first: u64::MAX,
            second: 0,
            times: 8,
        }),
        "any" => Some(random(14, 1, 0, false)),
        "words" => Some(Shape::Scattered { bits: 64 }),
        "runs" => Some(random(12, 40, 0, false)),
        "rising" => Some(random(4, 1, 0, true)),
        "based" => Some(random(10, 1, 1 << 40, false)),
        "strides" => Some(random(12, 40, 0, true)),
        _ => None,
    }
}

/// Random numbers of so many bits, each for at most so many places, above a base or the value before.
fn random(bits: u32, longest: u64, base: u64, rises: bool) -> Shape {
    Shape::Random(Random {
        seed: 1,
        bits,
        longest,
        base,
        rises,
    })
}

/// So many values of a shape, or as many as a column has at most.
pub fn values_of(alloc: Global, shape: Shape, count: u64) -> Result<Vec<u64>, AllocError>
    ensures { IfOk result (λ values. length values.items ≤ max_rows) }
{
    shape.values(alloc, count.min(MAX_ROWS) as usize)
}
