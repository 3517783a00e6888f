//! Files of a table out of form, of both versions.

use crate::worlds::{
    TEXT, answers, column_bytes, example_with, example_without, expect, first_bytes, joined,
    now_file, source,
};
use block_core::Format;
use engine_tool::run;
use std::alloc::{AllocError, Global};
use std::process::Abort;
use std::test::Fail;
use stream_core::{Bytes, List, LoadError, MemSink, SaveError, Store};

/// A file of the table as these bytes is refused with this line, and stays as it is.
fn refused(
    rt: &impl Abort,
    alloc: Global,
    name: &str,
    bytes: &[u8],
    line: &str,
) -> Result<(), AllocError> {
    let mut store = example_with(alloc, &[(name, bytes)])?;
    let answered = answers(alloc, &mut store, TEXT, 4, line)?;
    let kept = store.file(name) == Some(bytes);
    assert!(rt; answered && kept, "{name} of {bytes:?}, and not {line}");
    Ok(())
}

#[test]
fn a_now_file_out_of_form_is_refused(rt: HostRuntime) -> Result<(), Fail> {
    for bytes in [
        b"".as_slice(),
        b"MNOWa\x05\0\0\0\0\0\0",
        b"MNOWa\x05\0\0\0\0\0\0\0\0",
        b"MNOWc\x05\0\0\0\0\0\0\0",
        b"MNOWA\x05\0\0\0\0\0\0\0",
        b"MNOXa\x05\0\0\0\0\0\0\0",
        b"MNOWa\x05\0\0\0\0\0\0\x01",
        b"MNOWa\x01\0\0\x10\0\0\0\0",
    ] {
        refused(
            &rt,
            rt.alloc(),
            "t.now",
            bytes,
            "database: t.now: bad now\n",
        )?;
    }
    Ok(())
}

#[test]
fn a_now_file_of_another_table_is_refused_by_its_columns(rt: HostRuntime) -> Result<(), Fail> {
    for (bytes, line) in [
        (b"MNOWa\x04\0\0\0\0\0\0\0", "database: t.a.a.col: length\n"),
        (b"MNOWa\x06\0\0\0\0\0\0\0", "database: t.a.a.col: length\n"),
        (b"MNOWb\x05\0\0\0\0\0\0\0", "database: t.b.a.col: no file\n"),
    ] {
        refused(&rt, rt.alloc(), "t.now", bytes, line)?;
    }
    Ok(())
}

/// The column file that the query sums, or the one that it tests, is refused for this.
fn refused_column(
    rt: &impl Abort,
    alloc: Global,
    bytes: &[u8],
    what: &str,
) -> Result<(), AllocError> {
    let line = format!(in alloc; "database: t.a.a.col: {what}\n")?;
    refused(rt, alloc, "t.a.a.col", bytes, line.as_str())?;
    let line = format!(in alloc; "database: t.a.b.col: {what}\n")?;
    refused(rt, alloc, "t.a.b.col", bytes, line.as_str())
}

#[test]
fn each_fault_of_a_column_file_is_named(rt: HostRuntime) -> Result<(), Fail> {
    for (bytes, what) in [
        (b"".as_slice(), "bad header"),
        (b"MCOL\0\0\0\x40\0\0\0\0\0\0\0\0", "bad header"),
        (b"MCOL\x03\0\0\x40\0\0\0\0\0\0\0\0", "bad header"),
        (b"MCOL\x02\x08\0\0\0\0\0\0\0\0\0\0", "bad header"),
        (b"MCOL\x02\0\0\0\0\0\0\0\0\0\0\0", "bad header"),
        (b"MCOL\x02\x02\0\x41\0\0\0\0\0\0\0\0", "bad header"),
        (b"MCOL\x02\x02\0\0\x01\0\0\x10\0\0\0\0", "bad header"),
        (b"MCOL\x02\x01\x02\x03\x05\0\0\0\0\0\0\0", "bad width"),
        (b"MCOL\x02\0\0\x40\x05\0\0\0\0\0\0\0", "bad tail"),
        (
            b"MCOL\x02\x03\0\x0b\x02\0\0\0\0\0\0\0\xc9\x57\x7e",
            "bad tail",
        ),
        (
            b"MCOL\x02\x03\0\x0b\x02\0\0\0\0\0\0\0\xc9\x57\x3e",
            "length",
        ),
    ] {
        refused_column(&rt, rt.alloc(), bytes, what)?;
    }
    Ok(())
}

/// The head of a file of so many times 256 zeros in the format `dynamic`.
fn head_of_zeros(times: u8) -> [u8; 16] {
    let mut head = *b"MCOL\x02\x02\0\0\0\0\0\0\0\0\0\0";
    head[9] = times;
    head
}

#[test]
fn the_first_wrong_entry_or_block_is_named(rt: HostRuntime) -> Result<(), Fail> {
    let places = b"\x20\0\0\0\0\0\0\0\x21\0\0\0\0\0\0\0";
    let twice = b"\x20\0\0\0\0\0\0\0\x20\0\0\0\0\0\0\0";
    for (times, directory, blocks, what) in [
        (
            4,
            b"\x18\0\0\0\0\0\0\0".as_slice(),
            b"\0".as_slice(),
            "length",
        ),
        (4, b"\x19\0\0\0\0\0\0\0", b"\0", "bad directory 0"),
        (4, b"\x18\0\0\0", b"", "bad directory 0"),
        (4, b"\x18\0\0\0\0\0\0\0", b"", "bad block 0"),
        (4, b"\x18\0\0\0\0\0\0\0", b"\x41", "bad block 0"),
        (8, places, b"\0\0", "length"),
        (8, places, b"\0\x41", "bad block 1"),
        (8, twice, b"\0\0", "bad directory 1"),
        (8, twice, b"\x41\0", "bad block 0"),
    ] {
        let head = head_of_zeros(times);
        let bytes = joined(rt.alloc(), &head, directory, blocks)?;
        refused_column(&rt, rt.alloc(), bytes.as_slice(), what)?;
    }
    Ok(())
}

/// Files of version 1. There is no directory, and the tail is words.
#[test]
fn each_fault_of_an_old_column_file_is_named(rt: HostRuntime) -> Result<(), Fail> {
    for (bytes, what) in [
        (b"MCOL\x01\x08\0\0\0\0\0\0\0\0\0\0".as_slice(), "bad header"),
        (b"MCOL\x01\0\0\x40\0\0\0\0\0\0\0\0", "bad header"),
        (b"MCOL\x01\0\0\0\x01\0\0\x10\0\0\0\0", "bad header"),
        (b"MCOL\x01\x02\0\0\0\x04\0\0\0\0\0\0\x41", "bad block 0"),
        (b"MCOL\x01\x02\0\0\0\x08\0\0\0\0\0\0\0\x41", "bad block 1"),
        (b"MCOL\x01\x01\x02\0\x05\0\0\0\0\0\0\0", "bad width"),
        (
            b"MCOL\x01\x03\0\0\x02\0\0\0\0\0\0\0\xc9\x57\x3e",
            "bad tail",
        ),
        (b"MCOL\x01\x02\0\0\0\x04\0\0\0\0\0\0\0", "length"),
    ] {
        refused_column(&rt, rt.alloc(), bytes, what)?;
    }
    Ok(())
}

#[test]
fn the_first_bad_file_is_named(rt: HostRuntime) -> Result<(), Fail> {
    let alloc = rt.alloc();
    let shorter = column_bytes(alloc, &[1, 2], Format::Plain)?;
    for (now, a, b, line) in [
        (
            b"MNOW".as_slice(),
            b"MCOL".as_slice(),
            b"".as_slice(),
            "database: t.now: bad now\n",
        ),
        (
            b"MNOWa\x05\0\0\0\0\0\0\0",
            b"MCOL",
            b"",
            "database: t.a.a.col: bad header\n",
        ),
        (
            b"MNOWa\x05\0\0\0\0\0\0\0",
            shorter.as_slice(),
            b"",
            "database: t.a.a.col: length\n",
        ),
        (
            b"MNOWa\x02\0\0\0\0\0\0\0",
            shorter.as_slice(),
            b"",
            "database: t.a.b.col: bad header\n",
        ),
    ] {
        let files = [("t.now", now), ("t.a.a.col", a), ("t.a.b.col", b)];
        let mut store = example_with(alloc, &files)?;
        expect(&rt, alloc, &mut store, TEXT, 4, line)?;
    }
    Ok(())
}

/// Only the named columns are read.
#[test]
fn a_bad_column_that_no_query_names_is_no_fault(rt: HostRuntime) -> Result<(), Fail> {
    let mut store = example_with(rt.alloc(), &[("t.a.b.col", b"no column")])?;
    let text = "select sum(a) from t";
    expect(&rt, rt.alloc(), &mut store, text, 0, "150\n")?;
    Ok(())
}

/// A file that is cut off is refused: for its first 16 bytes, and then for these parts, each with the length from which on it is
/// whole.
fn refused_when_cut(
    rt: &impl Abort,
    alloc: Global,
    whole: &[u8],
    parts: &[(usize, &str)],
) -> Result<(), AllocError> {
    let mut start = 0;
    for (end, what) in parts {
        for len in start..*end {
            refused(
                rt,
                alloc,
                "t.a.a.col",
                whole.get(..len).unwrap_or(whole),
                what,
            )?;
        }
        start = *end;
    }
    Ok(())
}

#[test]
fn a_file_cut_at_any_byte_is_refused(rt: HostRuntime) -> Result<(), Fail> {
    let alloc = rt.alloc();
    let header = (16, "database: t.a.a.col: bad header\n");
    let directory = (24, "database: t.a.a.col: bad directory 0\n");
    let block = (25, "database: t.a.a.col: bad block 0\n");
    let tail = (56, "database: t.a.a.col: bad tail\n");
    let a = column_bytes(alloc, &[10, 20, 30, 40, 50], Format::Plain)?;
    refused_when_cut(&rt, alloc, a.as_slice(), &[header, tail])?;
    let a = first_bytes(alloc, &[10, 20, 30, 40, 50], Format::Dynamic)?;
    refused_when_cut(&rt, alloc, a.as_slice(), &[header, tail])?;
    let a = b"MCOL\x02\x02\0\0\0\x04\0\0\0\0\0\0\x18\0\0\0\0\0\0\0\0";
    refused_when_cut(&rt, alloc, a, &[header, directory, block])?;
    Ok(())
}

#[test]
fn a_missing_file_is_refused(rt: HostRuntime) -> Result<(), Fail> {
    for (missing, line) in [
        ("t.now", "database: t.now: no file\n"),
        ("t.a.a.col", "database: t.a.a.col: no file\n"),
        ("t.a.b.col", "database: t.a.b.col: no file\n"),
    ] {
        let mut store = example_without(rt.alloc(), missing, &[])?;
        expect(&rt, rt.alloc(), &mut store, TEXT, 4, line)?;
    }
    Ok(())
}

/// A store that tells nothing. Its now files say five rows, and each other file has more bytes than any limit.
#[derive(Drop)]
struct HugeFiles;

impl Store for HugeFiles {
    ghost use Rattle.std.specs.Prelude.{None};

    ghost files = { λ _. None };

    ghost faults = { λ _. 0 };

    fn load(&mut self, alloc: Global, name: &str, _limit: u64) -> Result<Option<Bytes>, LoadError> {
        if name.ends_with(".now") {
            let bytes = Vec::from_slice(alloc, &now_file(5))?;
            return Ok(Some(List::from_vec(bytes)));
        }
        Err(LoadError::TooLong)
    }

    fn save(&mut self, _alloc: Global, _name: &str, _bytes: &[u8]) -> Result<(), SaveError> {
        Err(SaveError::Memory)
    }
}

#[test]
fn a_column_file_that_is_too_long_is_refused(rt: HostRuntime) -> Result<(), Fail> {
    let alloc = rt.alloc();
    let words = [String::from_str(alloc, "query")?];
    let mut input = source(alloc, TEXT.as_bytes(), &[])?;
    let mut out = MemSink::new(alloc, 100, List::from_vec(Vec::new(alloc)))?;
    let status = run(alloc, &words, &mut HugeFiles, &mut input, &mut out);
    let written = out.taken() == b"database: t.a.a.col: too long\n".as_slice();
    assert!(rt; status == 4 && written, "{status}");
    Ok(())
}
