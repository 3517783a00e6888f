//! Reads a query's text many times, or reads and binds it, for `bench/queries`, which times it.
//!
//! The words are a task (`read` or `bind`), a shape of text and a number of rounds. It prints a checksum. Without words it does nothing.
#![tactic(auto)]

mod bound_sums;
mod names;
mod query_sums;
mod rounds;
mod schema_texts;
mod shapes;
mod texts;

use catalog_core::read_schema;
use rounds::{bind_rounds, read_rounds};
use schema_texts::schema_text;
use shapes::{Shape, shape_of};
use std::alloc::{AllocError, Global};
use std::{env, io};
use texts::query_text;

/// The longest text that the readers take.
const MAX_TEXT: usize = 65_536;

/// The number that a word says, or 0.
fn number(word: &String) -> u64 {
    word.as_str().parse().unwrap_or(0)
}

/// The checksum of both texts and of all rounds of the task, or 0 where a text is not as it should be.
fn sum_of(alloc: Global, task: &str, shape: Shape, rounds: u64) -> Result<u64, AllocError> {
    let tables = schema_text(alloc, shape)?;
    let text = query_text(alloc, shape)?;
    let Ok(schema) = read_schema(alloc, tables.as_slice()) else {
        return Ok(0);
    };
    if text.len() > MAX_TEXT {
        return Ok(0);
    }
    let texts = query_sums::mixed_bytes(query_sums::mixed_bytes(0, &tables), &text);
    let sum = match task {
        "read" => read_rounds(alloc, &text, rounds)?,
        _ => bind_rounds(alloc, &text, &schema, rounds)?,
    };
    Ok(query_sums::mixed(texts, sum))
}

fn main(rt: HostRuntime) -> io::Result<()> {
    let words: Vec<String> = env::args(&rt)?.collect(rt.alloc())?;
    if words.len() != 4 {
        return Ok(());
    }
    let Some(shape) = shape_of(words[2].as_str()) else {
        return Ok(());
    };
    let sum = sum_of(rt.alloc(), words[1].as_str(), shape, number(&words[3]))?;
    println!(rt; "{sum}")
}
