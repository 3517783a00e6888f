//! Passes over a full block that find one thing each.

ghost use Rattle.std.specs.Prelude.{◌≡◌, ◌==◌, ◌-◌, ◌≤◌, if◌then◌else◌, length, take};
ghost use Rattle.definitions_blocks.specs.Blocks.{block_values};
ghost use Rattle.definitions_blocks.specs.Differences.{difference, delta1_of, delta16_of, least_of};
ghost use Rattle.definitions_blocks.specs.Runs.{run_count};
ghost use Rattle.size_chooser.specs.Surveys.{bits_of, greatest_of};

use block_core::BLOCK_LEN;

/// The bits of the differences to the value before.
pub fn step_bits(values: &[u64]) -> u64
    requires { length values.now ≡ block_values }
    ensures { result ≡ bits_of (delta1_of values.now) }
{
    let mut all = 0;
    for place in 1..BLOCK_LEN {
        all |= difference_of(values[place], values[place - 1]);
    }
    all
}

/// The bits of the differences to the value 16 places before.
pub fn gap_bits(values: &[u64]) -> u64
    requires { length values.now ≡ block_values }
    ensures { result ≡ bits_of (delta16_of values.now) }
{
    let mut all = first_gap_bits(values);
    for place in 16..BLOCK_LEN {
        all |= difference_of(values[place], values[place - 16]);
    }
    all
}

/// The bits of the differences of the first 16 values to the first.
fn first_gap_bits(values: &[u64]) -> u64
    requires { 16 ≤ length values.now }
    ensures { result ≡ bits_of (delta16_of (take 16 values.now)) }
{
    let base = values[0];
    let mut all = 0;
    for place in 1..16 {
        all |= difference_of(values[place], base);
    }
    all
}

/// The greatest value less the least.
pub fn spread_of(values: &[u64]) -> u64
    requires { length values.now ≡ block_values }
    ensures { result ≡ greatest_of values.now - least_of values.now }
{
    let mut low = values[0];
    let mut high = values[0];
    for place in 1..BLOCK_LEN {
        low = low.min(values[place]);
        high = high.max(values[place]);
    }
    high - low
}

/// How many runs the values have.
pub fn runs_of(values: &[u64]) -> u64
    requires { length values.now ≡ block_values }
    ensures runs { result ≡ run_count values.now }
    ensures few { result ≤ block_values }
{
    let mut runs = 1;
    for place in 1..BLOCK_LEN {
        runs += run_start(values[place], values[place - 1]);
    }
    runs
}

/// How many runs the differences to the value before have, of which the first is 0.
pub fn step_runs_of(values: &[u64]) -> u64
    requires { length values.now ≡ block_values }
    ensures runs { result ≡ run_count (delta1_of values.now) }
    ensures few { result ≤ block_values }
{
    let mut runs = 1 + run_start(values[1], values[0]);
    for place in 2..BLOCK_LEN {
        let step = difference_of(values[place], values[place - 1]);
        let last = difference_of(values[place - 1], values[place - 2]);
        runs += run_start(step, last);
    }
    runs
}

/// A value less another, mod 2^64.
#[inline(always)]
fn difference_of(value: u64, other: u64) -> u64
    ensures { result ≡ difference value other }
{
    value.wrapping_sub(other)
}

/// 1 if a value begins a run behind another, and else 0.
#[inline(always)]
fn run_start(value: u64, before: u64) -> u64
    ensures start { result ≡ (if value == before then 0 else 1) }
    ensures few { result ≤ 1 }
{
    u64::from(value != before)
}
