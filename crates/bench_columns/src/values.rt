//! The values of columns, in a shape that suits the format. `bench/columns.cpp` makes the same ones.

ghost use Rattle.std.specs.Prelude.{◌≡◌, ◌≤◌, length, IfOk};
ghost use Rattle.definitions_blocks.specs.Columns.{max_rows};

use block_core::{Format, MAX_ROWS};
use shapes::{Random, Shape};
use std::alloc::{AllocError, Global};

/// So many values that suit the format, or as many as a column has at most: runs for `runs`, small steps for differences to
/// earlier values, and else any values.
pub fn values_of(alloc: Global, format: Format, count: u64) -> Result<Vec<u64>, AllocError>
    ensures { IfOk result (λ values. length values.items ≤ max_rows) }
{
    let (bits, longest, rises) = match format {
        Format::Runs => (12, 40, false),
        Format::Delta1Dynamic | Format::Delta16Dynamic => (4, 1, true),
        Format::Delta1Runs => (4, 40, true),
        _ => (12, 1, false),
    };
    let random = Random {
        seed: 1,
        bits,
        longest,
        base: 0,
        rises,
    };
    Shape::Random(random).values(alloc, count.min(MAX_ROWS) as usize)
}

/// Runs of up to 40 places whose value rises by 1 from each to the next, so that they suit every format.
pub fn rising_runs(alloc: Global, count: u64) -> Result<Vec<u64>, AllocError>
    ensures { IfOk result (λ values. length values.items ≤ max_rows) }
{
    let mut values = values_of(alloc, Format::Runs, count)?;
    count_runs(values.as_mut_slice());
    Ok(values)
}

/// Writes in place of each value how many runs stand before its own, and 1 more if the first value is not 0.
fn count_runs(values: &mut [u64])
    ensures { length values.new ≡ length values.old }
{
    let mut runs = 0u64;
    let mut before = 0;
    for value in values.iter_mut() {
        if *value != before {
            before = *value;
            runs = runs.wrapping_add(1);
        }
        *value = runs;
    }
}
