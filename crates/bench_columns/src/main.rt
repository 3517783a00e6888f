//! Reads, builds or morphs columns many times, for `bench/columns`, which times it.
//!
//! The words are a task, a format's name, a number of values and a number of rounds, and for the task `morph` the name of the
//! new format. It prints a checksum. Without words it does nothing.
#![tactic(auto)]

mod morphing;
mod reading;
mod values;
mod writing;

ghost use Rattle.std.specs.Prelude.{◌≡◌, ◌≤◌, length};
ghost use Rattle.definitions_blocks.specs.Columns.{max_rows};

use block_core::{Format, Steps};
use column_core::{Column, encode_list};
use morphing::morph_rounds;
use reading::{cursor_rounds, gather_rounds, places_of};
use std::alloc::{AllocError, Global};
use std::{env, io};
use values::{rising_runs, values_of};
use writing::{build_rounds, bytes_sum, list_rounds};

/// What is done in each round.
#[derive(Clone, Copy)]
enum Task {
    /// A cursor decodes each block.
    Cursor,
    /// A builder takes each value.
    Build,
    /// The list is encoded.
    List,
    /// Values are looked up at rising places.
    Rising,
    /// Values are looked up at random places.
    Random,
    /// The column gets another format.
    Morph,
}

/// The task of a name.
fn task_named(name: &str) -> Option<Task> {
    for (task, called) in [
        (Task::Cursor, "cursor"),
        (Task::Build, "build"),
        (Task::List, "list"),
        (Task::Rising, "rising"),
        (Task::Random, "random"),
        (Task::Morph, "morph"),
    ] {
        if called == name {
            return Some(task);
        }
    }
    None
}

/// The number that a word says, or 0.
fn number(word: &String) -> u64 {
    word.as_str().parse().unwrap_or(0)
}

/// The format of the sixth word, or else the column's.
fn new_format(words: &[String], format: Format) -> Format {
    match words.get(5) {
        Some(name) => Format::from_name(name.as_str()).unwrap_or(format),
        None => format,
    }
}

/// The checksum of the column's file and of the rounds over it.
fn checksum(
    alloc: Global,
    task: Task,
    column: &Column,
    values: &[u64],
    new_format: Format,
    rounds: u64,
) -> Result<u64, AllocError>
    requires few { length values.now ≤ max_rows }
    requires same { column.now.values ≡ values.now }
{
    let mut steps = Steps::start(alloc);
    let sum = match task {
        Task::Cursor => cursor_rounds(column, rounds, &mut steps),
        Task::Build => build_rounds(alloc, column, values, rounds)?,
        Task::List => list_rounds(alloc, column.format(), values, rounds)?,
        Task::Rising => {
            let places = places_of(alloc, false, column.count())?;
            gather_rounds(column, places.as_slice(), rounds, &mut steps)
        }
        Task::Random => {
            let places = places_of(alloc, true, column.count())?;
            gather_rounds(column, places.as_slice(), rounds, &mut steps)
        }
        Task::Morph => morph_rounds(alloc, column, new_format, rounds)?,
    };
    Ok(sum.wrapping_add(bytes_sum(column.encoded())))
}

fn main(rt: HostRuntime) -> io::Result<()> {
    let words: Vec<String> = env::args(&rt)?.collect(rt.alloc())?;
    if words.len() < 5 {
        return Ok(());
    }
    let (Some(task), Some(format)) = (task_named(&words[1]), Format::from_name(&words[2])) else {
        return Ok(());
    };
    let count = number(&words[3]);
    let values = match task {
        Task::Morph => rising_runs(rt.alloc(), count)?,
        _ => values_of(rt.alloc(), format, count)?,
    };
    let column = encode_list(rt.alloc(), values.as_slice(), format)?;
    let sum = checksum(
        rt.alloc(),
        task,
        &column,
        values.as_slice(),
        new_format(words.as_slice(), format),
        number(&words[4]),
    )?;
    println!(rt; "{sum}")
}
