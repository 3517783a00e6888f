//! The sum over a query's rows.

ghost use Rattle.std.specs.Prelude.{◌≡◌, ◌^◌, ◌<◌, ℕ, List as Items, length, sum, SomeIff, IfOk};
ghost use Rattle.definitions_operators.specs.Sums.{kept_values};
ghost use Rattle.engine_tool.specs.Answers.{answer_text};
ghost use Rattle.engine_tool.specs.Replies.{kept_in, answer_over};
ghost use Rattle.table_commands.specs.Stops.{Computes, IsInner, TakesNoMemory};
ghost use Rattle.engine_tool.specs.Texts.{condition_view};
ghost use Rattle.engine_tool.specs.Views.{loaded_view, HasRows};

use crate::decoding::decoded;
use crate::loading::{Loaded, Tested};
use crate::text::Condition;
use itoa::Buffer;
use scan_ops::{project, select};
use std::alloc::{AllocError, Global};
use stream_core::{Bytes, List};
use table_commands::{Refusal, Stop};

/// The values of the first column in the rows whose other column is from `low` to `high`.
fn kept_where(
    alloc: Global,
    summed: &[u64],
    tested: &[u64],
    low: u64,
    high: u64,
) -> Result<List<u64>, AllocError>
    requires { length summed.now ≡ length tested.now }
    ensures { IfOk result (λ kept. kept ≡ kept_values summed.now tested.now low high) }
{
    let places = select::<8>(alloc, tested, low, high)?;
    project(alloc, summed, places.as_slice())
}

/// The values that are summed: those of all rows, or of the rows that meet the condition. A condition with no column to test
/// is met by no row.
fn kept_of(
    alloc: Global,
    condition: &Option<Condition>,
    loaded: Loaded,
) -> Result<List<u64>, AllocError>
    requires { HasRows (loaded_view loaded) }
    ensures { IfOk result (λ kept. kept ≡ kept_in (condition_view condition.now) (loaded_view loaded)) }
{
    let summed = decoded(alloc, loaded.summed)?;
    let Some(Condition { low, high, .. }) = condition else {
        return Ok(summed);
    };
    match loaded.tested {
        Tested::Nothing => Ok(List::from_vec(Vec::new(alloc))),
        Tested::Summed => kept_where(alloc, summed.as_slice(), summed.as_slice(), *low, *high),
        Tested::Other(column) => {
            let tested = decoded(alloc, column)?;
            kept_where(alloc, summed.as_slice(), tested.as_slice(), *low, *high)
        }
    }
}

/// The sum of the values, unless it is 2^64 or more.
fn sum_of(values: &[u64]) -> Option<u64>
    ensures { SomeIff result (sum values.now < 2 ^ 64) (sum values.now) }
{
    let mut total = 0u128;
    for value in values {
        total += u128::from(*value);
    }
    u64::try_from(total).ok()
}

/// The sum of the values, or nothing where there is none.
fn total_of(kept: &[u64]) -> Result<Option<u64>, Stop>
    ensures step { Computes answer_text result (answer_over kept.now) }
    ensures kept { TakesNoMemory result }
{
    let Some(total) = sum_of(kept) else {
        return Err(Stop::Refused(Refusal::SumTooWide));
    };
    if kept.is_empty() {
        return Ok(None);
    }
    Ok(Some(total))
}

/// The answer's one row: the sum in decimal, or `NULL`.
fn text_of(alloc: Global, total: Option<u64>) -> Result<Bytes, AllocError>
    ensures { IfOk result (λ text. text ≡ answer_text total) }
{
    let mut buffer = Buffer::new();
    let number = match total {
        Some(total) => buffer.format(total),
        None => "NULL",
    };
    let mut text = Vec::from_slice(alloc, number.as_bytes())?;
    text.push(b'\n')?;
    Ok(List::from_vec(text))
}

/// The answer over the columns of a query.
pub fn answer_of(
    alloc: Global,
    condition: &Option<Condition>,
    loaded: Loaded,
) -> Result<Bytes, Stop>
    requires { HasRows (loaded_view loaded) }
    ensures step { Computes (λ (b : Items ℕ). b) result (answer_over (kept_in (condition_view condition.now) (loaded_view loaded))) }
    ensures kept { IsInner result }
{
    let kept = kept_of(alloc, condition, loaded)?;
    let total = total_of(kept.as_slice())?;
    Ok(text_of(alloc, total)?)
}
