//! One command over the files of the current folder.

use engine_tool::run;
use host_edge::{FolderStore, StdSink, StdSource};
use std::alloc::{AllocError, Global};
use std::io;
use std::io::{Read, Write};

fn strings_of(alloc: Global, words: &[&str]) -> Result<Vec<String>, AllocError> {
    let mut strings = Vec::new(alloc);
    for word in words {
        strings.push(String::from_str(alloc, word)?)?;
    }
    Ok(strings)
}

/// The status of a command over an input and an output.
pub fn status_of<I: Read + Drop, O: Write + Drop>(
    rt: &HostRuntime,
    words: &[&str],
    input: I,
    out: O,
) -> io::Result<u8> {
    let words = strings_of(rt.alloc(), words)?;
    let mut store = FolderStore::new(rt);
    let mut source = StdSource::new(input);
    let mut sink = StdSink::new(out);
    Ok(run(
        rt.alloc(),
        words.as_slice(),
        &mut store,
        &mut source,
        &mut sink,
    ))
}

/// Prints what a command writes, and then its case with the status, which is the result.
pub fn printed<I: Read + Drop>(
    rt: &HostRuntime,
    case: &str,
    words: &[&str],
    input: I,
) -> io::Result<u8> {
    let status = status_of(rt, words, input, io::writer(rt))?;
    println!(rt; "{case}: {status}")?;
    Ok(status)
}
