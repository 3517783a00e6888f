//! Loads and saves of the folder, without a command. Each prints what was answered, and then a line that says what was asked.

use host_edge::FolderStore;
use std::io;
use std::io::Write;
use stream_core::{LoadError, SaveError, Store};

/// Prints what a load of at most so many bytes answers.
fn print_load(rt: &HostRuntime, store: &mut impl Store, name: &str, limit: u64) -> io::Result<()> {
    let mut out = io::writer(rt);
    match store.load(rt.alloc(), name, limit) {
        Ok(Some(bytes)) => out.write_all(bytes.as_slice())?,
        Ok(None) => out.write_all(b"no file\n")?,
        Err(LoadError::TooLong) => out.write_all(b"too long\n")?,
        Err(LoadError::Failed) => out.write_all(b"failed\n")?,
        Err(LoadError::Memory) => out.write_all(b"memory\n")?,
    }
    println!(rt; "a load of at most {limit} bytes of {name}")
}

/// Prints what a save answers.
fn print_save(
    rt: &HostRuntime,
    store: &mut impl Store,
    name: &str,
    bytes: &[u8],
) -> io::Result<()> {
    let answer = match store.save(rt.alloc(), name, bytes) {
        Ok(()) => "saved",
        Err(SaveError::Failed) => "failed",
        Err(SaveError::Memory) => "memory",
    };
    println!(rt; "{answer}\na save of {name}")
}

/// Runs the cases.
pub fn print_cases(rt: &HostRuntime) -> io::Result<()> {
    let mut store = FolderStore::new(rt);
    for (name, limit) in [
        ("line.txt", 6),
        ("line.txt", 7),
        ("line.txt", u64::MAX),
        ("none.txt", 6),
        ("shelf.now", 6),
    ] {
        print_load(rt, &mut store, name, limit)?;
    }
    for (name, bytes) in [
        ("new.txt", "first\nsecond\n"),
        ("new.txt", "third\n"),
        ("shelf.now", "fourth\n"),
        ("none/new.txt", "fifth\n"),
    ] {
        print_save(rt, &mut store, name, bytes.as_bytes())?;
        print_load(rt, &mut store, name, 100)?;
    }
    Ok(())
}
