//! Decodes or checks blocks in a format many times, for `bench/formats`, which times it.
//!
//! The words are `decode` or `check`, a format's name, a shape's number and a number of rounds over eight blocks. It prints a
//! checksum. Without words it does nothing.
#![tactic(auto)]

mod blocks;
mod rounds;

use block_core::Format;
use block_formats::Dynamic;
use cascade_formats::{Cascade, Delta1, Delta16, Reference};
use rounds::{Work, rounds_of};
use run_formats::Runs;
use std::alloc::{AllocError, Global};
use std::{env, io};

/// The number that a word says, or 0.
fn number(word: &String) -> u64 {
    word.as_str().parse().unwrap_or(0)
}

/// The checksum of the rounds in a format.
fn checksum(alloc: Global, format: Format, work: &Work) -> Result<u64, AllocError> {
    match format {
        Format::Dynamic => rounds_of::<Dynamic<8>>(alloc, (), work),
        Format::Runs => rounds_of::<Runs>(alloc, (), work),
        Format::Delta1Dynamic => rounds_of::<Cascade<Delta1<8>, Dynamic<8>>>(alloc, (), work),
        Format::Delta16Dynamic => rounds_of::<Cascade<Delta16<8>, Dynamic<8>>>(alloc, (), work),
        Format::ReferenceDynamic => rounds_of::<Cascade<Reference<8>, Dynamic<8>>>(alloc, (), work),
        Format::Delta1Runs => rounds_of::<Cascade<Delta1<8>, Runs>>(alloc, (), work),
        _ => Ok(0),
    }
}

fn main(rt: HostRuntime) -> io::Result<()> {
    let words: Vec<String> = env::args(&rt)?.collect(rt.alloc())?;
    if words.len() < 5 {
        return Ok(());
    }
    let work = Work {
        decodes: words[1].as_str() == "decode",
        shape: number(&words[3]),
        rounds: number(&words[4]),
    };
    let sum = match Format::from_name(words[2].as_str()) {
        Some(format) => checksum(rt.alloc(), format, &work)?,
        None => 0,
    };
    println!(rt; "{sum}")
}
