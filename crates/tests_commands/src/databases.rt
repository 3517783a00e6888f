//! `check` over a store with a schema alone.

use crate::worlds::{command, numbers, source};
use std::alloc::{AllocError, Global};
use std::process::Abort;
use stream_core::{MemSink, MemStore};

/// The status and the output of `check` over these files, into an output with room for so many bytes.
pub fn check(
    alloc: Global,
    store: &mut MemStore,
    room: usize,
) -> Result<(u8, Vec<u8>), AllocError> {
    let words = [String::from_str(alloc, "check")?];
    let mut input = source(alloc, b"left unread", &[])?;
    let mut out = MemSink::new(alloc, room, numbers(alloc, &[])?)?;
    command(alloc, &words, store, &mut input, &mut out)
}

/// `check` over a store with this schema alone is refused with this.
pub fn expect_schema(
    rt: &impl Abort,
    alloc: Global,
    schema: &str,
    what: &str,
) -> Result<(), AllocError> {
    let mut store = MemStore::new(alloc, numbers(alloc, &[])?);
    store.put(alloc, "schema.toml", schema.as_bytes())?;
    let line = format!(in alloc; "database: {what}\n")?;
    let (found, written) = check(alloc, &mut store, 400)?;
    let answered = found == 4 && written.as_slice() == line.as_bytes();
    assert!(rt; answered, "{schema} and not {what}");
    Ok(())
}
