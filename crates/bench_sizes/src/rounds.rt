//! Rounds in which a list is measured.

ghost use Rattle.std.specs.Prelude.{◌≡◌, ◌-◌, ◌<◌, ◌≤◌, length, take, drop};
ghost use Rattle.definitions_blocks.specs.Columns.{max_rows};
ghost use Rattle.size_chooser.specs.Profiles.{IsProfileOf};

use block_core::{Emit, Format};
use size_chooser::{FormatSize, Profile};

/// The least of the sizes, with the sum of them all.
fn sizes_sum(profile: &Profile, round: u64) -> u64 {
    let mut sum = round ^ u64::from(profile.static_width());
    for size in profile.sizes() {
        sum = sum.wrapping_mul(31).wrapping_add(size);
    }
    sum.wrapping_add(u64::from(profile.least().tag()))
}

/// The values from a place on, up to an end.
fn part(values: &[u64], start: usize, end: usize) -> &[u64]
    requires ends { end ≤ length values.now }
    requires starts { start ≤ end }
    ensures { result.now ≡ take (end - start) (drop start values.now) }
{
    &values[start..end]
}

/// The profile of the values, a piece of so many after the other.
fn profile_by(values: &[u64], piece: usize) -> Profile
    requires few { length values.now ≤ max_rows }
    requires some { 0 < piece }
    requires small { piece ≤ max_rows }
    ensures { IsProfileOf result values.now }
{
    let mut profile = Profile::new();
    let mut taken = 0;
    while taken < values.len() {
        let end = values.len().min(taken + piece);
        let _taken = profile.extend(part(values, taken, end));
        taken = end;
    }
    profile
}

/// Measures the values in each round, a piece of so many after the other.
pub fn profile_rounds(values: &[u64], piece: usize, rounds: u64) -> u64
    requires few { length values.now ≤ max_rows }
    requires some { 0 < piece }
    requires small { piece ≤ max_rows }
{
    let mut sum = 0u64;
    for round in 0..rounds {
        sum = sum.wrapping_add(sizes_sum(&profile_by(values, piece), round));
    }
    sum
}

/// The profile of the values, one after the other.
fn profile_by_pushes(values: &[u64]) -> Profile
    requires { length values.now ≤ max_rows }
    ensures { IsProfileOf result values.now }
{
    let mut profile = Profile::new();
    for value in values {
        let _taken = profile.push(*value);
    }
    profile
}

/// Pushes the values in each round.
pub fn push_rounds(values: &[u64], rounds: u64) -> u64
    requires { length values.now ≤ max_rows }
{
    let mut sum = 0u64;
    for round in 0..rounds {
        sum = sum.wrapping_add(sizes_sum(&profile_by_pushes(values), round));
    }
    sum
}

/// The size of the values' file in a format, with the static width.
fn format_sum(values: &[u64], format: Format, round: u64) -> u64
    requires { length values.now ≤ max_rows }
{
    let mut size = FormatSize::new(format);
    let _taken = size.extend(values);
    (size.size() ^ round)
        .wrapping_mul(31)
        .wrapping_add(u64::from(size.static_width()))
}

/// Measures the values in one format in each round.
pub fn format_rounds(values: &[u64], format: Format, rounds: u64) -> u64
    requires { length values.now ≤ max_rows }
{
    let mut sum = 0u64;
    for round in 0..rounds {
        sum = sum.wrapping_add(format_sum(values, format, round));
    }
    sum
}
