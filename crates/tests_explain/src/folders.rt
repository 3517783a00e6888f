//! A folder in memory with a schema, and commands over it.

use engine_tool::run;
use std::alloc::{AllocError, Global};
use std::process::Abort;
use stream_core::{List, MemSink, MemSource, MemStore};

/// A list of numbers.
fn numbers(alloc: Global, numbers: &[u64]) -> Result<List<u64>, AllocError> {
    Ok(List::from_vec(Vec::from_slice(alloc, numbers)?))
}

/// A folder with this schema, or without one. The loads of these numbers fail.
pub fn folder(
    alloc: Global,
    schema: Option<&str>,
    failing: &[u64],
) -> Result<MemStore, AllocError> {
    let mut store = MemStore::new(alloc, numbers(alloc, failing)?);
    if let Some(schema) = schema {
        store.put(alloc, "schema.toml", schema.as_bytes())?;
    }
    Ok(store)
}

/// An input of these bytes, handed out in pieces of seven. The reads of these numbers fail.
pub fn source(alloc: Global, text: &[u8], failing: &[u64]) -> Result<MemSource, AllocError> {
    let bytes = List::from_vec(Vec::from_slice(alloc, text)?);
    Ok(MemSource::new(bytes, 7, numbers(alloc, failing)?))
}

fn strings_of(alloc: Global, words: &[&str]) -> Result<Vec<String>, AllocError> {
    let mut strings = Vec::new(alloc);
    for word in words {
        strings.push(String::from_str(alloc, word)?)?;
    }
    Ok(strings)
}

/// The status and the output of a command, into an output with room for so many bytes.
pub fn answer(
    alloc: Global,
    store: &mut MemStore,
    words: &[&str],
    input: &mut MemSource,
    room: usize,
) -> Result<(u8, Vec<u8>), AllocError> {
    let words = strings_of(alloc, words)?;
    let mut out = MemSink::new(alloc, room, numbers(alloc, &[])?)?;
    let status = run(alloc, words.as_slice(), store, input, &mut out);
    Ok((status, Vec::from_slice(alloc, out.taken())?))
}

/// The command ends with this status over this input, and writes this.
pub fn expect(
    rt: &impl Abort,
    alloc: Global,
    store: &mut MemStore,
    words: &[&str],
    input: &mut MemSource,
    expected: (u8, &str),
) -> Result<(), AllocError> {
    let (status, written) = expected;
    let (found, taken) = answer(alloc, store, words, input, 10_000)?;
    let answered = found == status && taken.as_slice() == written.as_bytes();
    assert!(rt;
        answered,
        "{words:?} answers {found}, and not {status} {written}"
    );
    Ok(())
}

/// The query of this text is explained, or refused, so.
pub fn expect_explained(
    rt: &impl Abort,
    alloc: Global,
    store: &mut MemStore,
    text: &str,
    expected: (u8, &str),
) -> Result<(), AllocError> {
    let (status, written) = expected;
    let mut input = source(alloc, text.as_bytes(), &[])?;
    let (found, taken) = answer(alloc, store, &["explain"], &mut input, 10_000)?;
    let answered = found == status && taken.as_slice() == written.as_bytes();
    assert!(rt;
        answered,
        "{text} answers {found}, and not {status} {written}"
    );
    Ok(())
}
