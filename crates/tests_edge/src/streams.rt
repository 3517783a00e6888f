//! Inputs and outputs that are files, standard input, or fail.

use crate::commands::{printed, status_of};
use std::io::{Read, Write};
use std::{fs, io};

/// A query whose answer is `90` and a line's end.
const TEXT: &str = "select sum(a) from t where b between 3 and 7";

/// Commands over several inputs.
fn sum_over_inputs(rt: &HostRuntime) -> io::Result<u8> {
    let query = ["query"];
    let file = printed(rt, "a text in a file", &query, fs::open(rt, "query.txt")?)?;
    let stdin = printed(rt, "a text on standard input", &query, rt.reader())?;
    let end = printed(rt, "standard input at its end", &query, rt.reader())?;
    let endless = printed(rt, "an input without an end", &query, io::repeat(b' '))?;
    let folder = printed(rt, "an input that fails", &query, fs::open(rt, ".")?)?;
    let words = printed(
        rt,
        "no word, and an input that fails",
        &[],
        fs::open(rt, ".")?,
    )?;
    Ok(
        [stdin, end, endless, folder, words]
            .iter()
            .fold(file, |sum, status| sum.saturating_add(*status)),
    )
}

/// A command whose output has room for so many bytes. They are printed, between `<` and `>`.
fn status_in_room(rt: &HostRuntime, room: usize) -> io::Result<u8> {
    let mut bytes = [b'.'; 4];
    let status = status_of(rt, &["query"], TEXT.as_bytes(), &mut bytes[..room.min(4)])?;
    let mut out = io::writer(rt);
    out.write_all(b"<")?;
    out.write_all(&bytes)?;
    out.write_all(b">\n")?;
    println!(rt; "an output with room for {room} of 3 bytes: {status}")?;
    Ok(status)
}

/// A command whose output is a file. The file is printed.
fn status_in_file(rt: &HostRuntime) -> io::Result<u8> {
    let status = status_of(
        rt,
        &["query"],
        TEXT.as_bytes(),
        fs::create(rt, "answer.txt")?,
    )?;
    let answer = fs::read(rt, "answer.txt")?;
    io::writer(rt).write_all(answer.as_slice())?;
    println!(rt; "an output that is a file: {status}")?;
    Ok(status)
}

/// A command whose output cannot be written, since the file is opened to be read.
fn status_in_vain(rt: &HostRuntime) -> io::Result<u8> {
    let status = status_of(rt, &["query"], TEXT.as_bytes(), fs::open(rt, "query.txt")?)?;
    println!(rt; "an output that fails: {status}")?;
    Ok(status)
}

/// Runs the cases, and gives the sum of their statuses.
pub fn sum_of_statuses(rt: &HostRuntime) -> io::Result<u8> {
    let mut sum = sum_over_inputs(rt)?;
    for room in 0..4usize {
        sum = sum.saturating_add(status_in_room(rt, room)?);
    }
    let file = status_in_file(rt)?;
    let vain = status_in_vain(rt)?;
    Ok(sum.saturating_add(file).saturating_add(vain))
}
