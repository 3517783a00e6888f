//! A database with a schema in memory, and `check` over it.

use block_core::{Format, MAX_ROWS};
use column_core::encode_list;
use engine_tool::run;
use std::alloc::{AllocError, Global};
use std::process::Abort;
use stream_core::{List, MemSink, MemSource, MemStore};

/// The now file of slot `a` and so many rows, fewer than 256.
pub fn now_file(rows: u8) -> [u8; 13] {
    [b'M', b'N', b'O', b'W', b'a', rows, 0, 0, 0, 0, 0, 0, 0]
}

/// The bytes of the column file of these values, of as many as a column has at most.
pub fn column_bytes(alloc: Global, values: &[u64], format: Format) -> Result<Vec<u8>, AllocError> {
    let count = values.len().min(MAX_ROWS as usize);
    let column = encode_list(alloc, &values[..count], format)?;
    Vec::from_slice(alloc, column.encoded())
}

/// A list of numbers.
pub fn numbers(alloc: Global, numbers: &[u64]) -> Result<List<u64>, AllocError> {
    Ok(List::from_vec(Vec::from_slice(alloc, numbers)?))
}

/// An input of this text, handed out in pieces of seven bytes. The reads of these numbers fail.
pub fn source(alloc: Global, text: &[u8], failing: &[u64]) -> Result<MemSource, AllocError> {
    let bytes = List::from_vec(Vec::from_slice(alloc, text)?);
    Ok(MemSource::new(bytes, 7, numbers(alloc, failing)?))
}

/// A fact table with a number and a text, and a dimension with a key and a text.
pub const SCHEMA: &str = r#"
[[table]]
name = "s"
role = "fact"
column = [ { name = "amount", kind = "number" }, { name = "word", kind = "text" } ]

[[table]]
name = "d"
role = "dimension"
key = "k"
column = [ { name = "k", kind = "number" }, { name = "n", kind = "text" } ]
"#;

/// What `check` prints of the database.
pub const LINES: &str =
    "s 3\ns.amount plain 40\ns.word runs 17\nd 2\nd.k plain 32\nd.n static 17\n";

/// The file of texts in this order, with this count in its head.
pub fn dictionary_bytes(alloc: Global, count: u64, texts: &[&[u8]]) -> Result<Vec<u8>, AllocError> {
    let mut bytes = Vec::from_slice(alloc, b"MDIC\x01\0\0\0")?;
    bytes.extend_from_slice(&count.to_le_bytes())?;
    for text in texts {
        bytes.extend_from_slice(&(text.len() as u64).to_le_bytes()[..4])?;
        bytes.extend_from_slice(text)?;
    }
    Ok(bytes)
}

fn put_column(
    alloc: Global,
    store: &mut MemStore,
    name: &str,
    values: &[u64],
    format: Format,
) -> Result<(), AllocError> {
    let bytes = column_bytes(alloc, values, format)?;
    store.put(alloc, name, bytes.as_slice())
}

/// The database, over a store whose loads of these numbers fail.
pub fn database_amid(alloc: Global, failing: &[u64]) -> Result<MemStore, AllocError> {
    let mut store = MemStore::new(alloc, numbers(alloc, failing)?);
    store.put(alloc, "schema.toml", SCHEMA.as_bytes())?;
    store.put(alloc, "s.now", &now_file(3))?;
    put_column(
        alloc,
        &mut store,
        "s.a.amount.col",
        &[1, 2, 3],
        Format::Plain,
    )?;
    put_column(alloc, &mut store, "s.a.word.col", &[0, 1, 1], Format::Runs)?;
    let words = dictionary_bytes(alloc, 2, &[b"", b"a"])?;
    store.put(alloc, "s.a.word.dic", words.as_slice())?;
    store.put(alloc, "d.now", &now_file(2))?;
    put_column(alloc, &mut store, "d.a.k.col", &[4, 5], Format::Plain)?;
    put_column(alloc, &mut store, "d.a.n.col", &[0, 1], Format::Static)?;
    let names = dictionary_bytes(alloc, 2, &[b"x", b"y"])?;
    store.put(alloc, "d.a.n.dic", names.as_slice())?;
    Ok(store)
}

/// The database, and then these files, each in the place of one of its name.
pub fn database_with(alloc: Global, files: &[(&str, &[u8])]) -> Result<MemStore, AllocError> {
    let mut store = database_amid(alloc, &[])?;
    for (name, bytes) in files {
        store.put(alloc, name, bytes)?;
    }
    Ok(store)
}

/// The status and the output of `check` over these files, into an output with room for so many bytes.
pub fn check(
    alloc: Global,
    store: &mut MemStore,
    room: usize,
) -> Result<(u8, Vec<u8>), AllocError> {
    let words = [String::from_str(alloc, "check")?];
    let mut input = source(alloc, b"left unread", &[])?;
    let mut out = MemSink::new(alloc, room, numbers(alloc, &[])?)?;
    let status = run(alloc, &words, store, &mut input, &mut out);
    Ok((status, Vec::from_slice(alloc, out.taken())?))
}

/// `check` over these files ends with this status, and writes this.
pub fn expect_check(
    rt: &impl Abort,
    alloc: Global,
    store: &mut MemStore,
    status: u8,
    text: &str,
) -> Result<(), AllocError> {
    let (found, written) = check(alloc, store, 400)?;
    let answered = found == status && written.as_slice() == text.as_bytes();
    assert!(rt; answered, "expected {text}");
    Ok(())
}
