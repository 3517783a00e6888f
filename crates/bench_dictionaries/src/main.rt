//! Opens a dictionary of short texts many times, or looks its texts up, for `bench/dictionaries`, which times it.
//!
//! The words are a task (`copy`, `read` or `find`), a number of texts and a number of rounds. It prints a checksum. Without words it does nothing.
#![tactic(auto)]

mod rounds;
mod texts;

use rounds::{copy_rounds, find_rounds, read_rounds};
use std::{env, io};
use texts::file_of;

/// The number that a word says, or 0.
fn number(word: &String) -> u64 {
    word.as_str().parse().unwrap_or(0)
}

fn main(rt: HostRuntime) -> io::Result<()> {
    let words: Vec<String> = env::args(&rt)?.collect(rt.alloc())?;
    if words.len() != 4 {
        return Ok(());
    }
    let count = number(&words[2]).min(100_000_000);
    let rounds = number(&words[3]);
    let file = file_of(rt.alloc(), count)?;
    let sum = match words[1].as_str() {
        "copy" => copy_rounds(rt.alloc(), file.as_slice(), rounds)?,
        "read" => read_rounds(rt.alloc(), file.as_slice(), rounds)?,
        _ => find_rounds(rt.alloc(), file.as_slice(), rounds)?,
    };
    println!(rt; "{sum}")
}
