//! Finds the sizes of a list's files many times, for `bench/sizes`, which times it, or the shortest file, for `bench/auto`.
//!
//! The words are what is found, a shape's name, a number of values and a number of rounds. What is found is `whole`, `pieces` or
//! `pushes`, which are profiles of all formats, or the name of the one format that is measured. It prints a checksum.
//!
//! If the words are a shape's name and a number of values alone, it prints the bytes of the file in `plain`, the least format and
//! its bytes by a profile, and the same by encoding the list in every format. Without words it does nothing.
#![tactic(auto)]

mod files;
mod rounds;
mod values;

ghost use Rattle.std.specs.Prelude.{◌≤◌, length};
ghost use Rattle.definitions_blocks.specs.Columns.{max_rows};

use block_core::{Format, MAX_ROWS};
use files::{file_len, least_by_files, least_by_profile};
use rounds::{format_rounds, profile_rounds, push_rounds};
use std::{env, io};
use values::{shape_named, values_of};

/// The number that a word says, or 0.
fn number(word: &String) -> u64 {
    word.as_str().parse().unwrap_or(0)
}

/// The checksum of rounds that find profiles.
fn profile_sum(way: &str, values: &[u64], rounds: u64) -> u64
    requires { length values.now ≤ max_rows }
{
    match way {
        "pieces" => profile_rounds(values, 300, rounds),
        "pushes" => push_rounds(values, rounds),
        _ => profile_rounds(values, MAX_ROWS as usize, rounds),
    }
}

/// The checksum of rounds of the kind that the word names.
fn checksum(what: &str, values: &[u64], rounds: u64) -> u64
    requires { length values.now ≤ max_rows }
{
    match Format::from_name(what) {
        Some(format) => format_rounds(values, format, rounds),
        None => profile_sum(what, values, rounds),
    }
}

/// Prints the bytes in `plain`, and the least file by a profile and by encoding the list.
fn print_least(rt: HostRuntime, values: &[u64]) -> io::Result<()>
    requires { length values.now ≤ max_rows }
{
    let plain = file_len(rt.alloc(), values, Format::Plain)?;
    let (found, size) = least_by_profile(values);
    let (best, bytes) = least_by_files(rt.alloc(), values)?;
    println!(rt; "{plain} {} {size} {} {bytes}", found.name(), best.name())
}

fn main(rt: HostRuntime) -> io::Result<()> {
    let words: Vec<String> = env::args(&rt)?.collect(rt.alloc())?;
    let (shape, count) = match words.len() {
        3 => (&words[1], &words[2]),
        5 => (&words[2], &words[3]),
        _ => return Ok(()),
    };
    let Some(shape) = shape_named(shape) else {
        return Ok(());
    };
    let values = values_of(rt.alloc(), shape, number(count))?;
    if words.len() == 3 {
        return print_least(rt, values.as_slice());
    }
    let sum = checksum(words[1].as_str(), values.as_slice(), number(&words[4]));
    println!(rt; "{sum}")
}
