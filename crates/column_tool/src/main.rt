//! Makes column files of words, and reads column files.
//!
//! `column_tool encode FORMAT` takes words of 8 bytes from standard input, the least byte first, and writes the file of the
//! column that they are. `column_tool check` takes files of both versions from standard input, each after its length as such a
//! word, and prints a line for each: its format, its count and the sum of its values, or why it is none.
#![tactic(auto)]

mod checking;
mod encoding;

use block_core::Format;
use checking::check_files;
use encoding::encode_words;
use std::io::{Read, Write};
use std::process::ExitCode;
use std::{env, io};

/// Does what the words say.
fn run(rt: &HostRuntime, words: &[String]) -> io::Result<bool> {
    let mut bytes = Vec::new(rt.alloc());
    match words {
        [_, task, name] if task.as_str() == "encode" => {
            let Some(format) = Format::from_name(name.as_str()) else {
                return Ok(false);
            };
            rt.reader().read_to_end(&mut bytes)?;
            let column = encode_words(rt.alloc(), bytes.as_slice(), format)?;
            io::writer(rt).write_all(column.encoded())?;
            Ok(true)
        }
        [_, task] if task.as_str() == "check" => {
            rt.reader().read_to_end(&mut bytes)?;
            check_files(rt, bytes.as_slice())?;
            Ok(true)
        }
        _ => Ok(false),
    }
}

fn main(rt: HostRuntime) -> ExitCode {
    let Ok(words) = env::args(&rt) else {
        return ExitCode::from(2);
    };
    let Ok(words) = words.collect::<Vec<String>>(rt.alloc()) else {
        return ExitCode::from(6);
    };
    match run(&rt, words.as_slice()) {
        Ok(true) => ExitCode::from(0),
        Ok(false) => ExitCode::from(2),
        Err(_) => ExitCode::from(3),
    }
}
