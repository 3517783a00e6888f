//! Packs or unpacks blocks many times, for `bench/codec`, which times it.
//!
//! The words are `pack` or `unpack`, a width, a lane width and a number of rounds over eight blocks. It prints a checksum.
//! Without words it does nothing.
#![tactic(auto)]

ghost use Rattle.std.specs.Prelude.{◌≤◌};

mod rounds;

use rounds::{pack_rounds, unpack_rounds};
use std::{env, io};

/// The number that a word says, or 0.
fn number(word: &String) -> u64 {
    word.as_str().parse().unwrap_or(0)
}

/// The checksum of the rounds at the lane width.
fn checksum(unpacks: bool, lanes: u64, width: u8, rounds: u64) -> u64
    requires { width ≤ 64 }
{
    match (unpacks, lanes) {
        (true, 4) => unpack_rounds::<4>(width, rounds),
        (true, 8) => unpack_rounds::<8>(width, rounds),
        (true, _) => unpack_rounds::<1>(width, rounds),
        (false, 4) => pack_rounds::<4>(width, rounds),
        (false, 8) => pack_rounds::<8>(width, rounds),
        (false, _) => pack_rounds::<1>(width, rounds),
    }
}

fn main(rt: HostRuntime) -> io::Result<()> {
    let words: Vec<String> = env::args(&rt)?.collect(rt.alloc())?;
    if words.len() < 5 {
        return Ok(());
    }
    let unpacks = words[1].as_str() == "unpack";
    let width = number(&words[2]).min(64) as u8;
    let sum = checksum(unpacks, number(&words[3]), width, number(&words[4]));
    println!(rt; "{sum}")
}
