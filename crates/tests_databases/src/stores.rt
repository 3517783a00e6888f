//! A database of two tables over a store in memory.

ghost use Rattle.std.specs.Prelude.{◌≤◌, length};
ghost use Rattle.definitions_blocks.specs.Columns.{max_rows};

use block_core::Format;
use column_core::encode_list;
use std::alloc::{AllocError, Global};
use stream_core::{List, MemStore};

/// A fact table with a number and a text, and a dimension with a key and a text.
pub const SCHEMA: &str = r#"
[[table]]
name = "s"
role = "fact"
column = [ { name = "amount", kind = "number" }, { name = "word", kind = "text" } ]

[[table]]
name = "d"
role = "dimension"
key = "k"
column = [ { name = "k", kind = "number" }, { name = "n", kind = "text" } ]
"#;

/// The now file of a slot's letter and a row count.
pub fn now_bytes(letter: u8, rows: u8) -> [u8; 13] {
    [b'M', b'N', b'O', b'W', letter, rows, 0, 0, 0, 0, 0, 0, 0]
}

/// The file of a column.
pub fn column_bytes(alloc: Global, values: &[u64], format: Format) -> Result<Vec<u8>, AllocError>
    requires { length values.now ≤ max_rows }
{
    let column = encode_list(alloc, values, format)?;
    Vec::from_slice(alloc, column.encoded())
}

/// The file of a dictionary of texts in this order.
pub fn dictionary_bytes(alloc: Global, texts: &[&[u8]]) -> Result<Vec<u8>, AllocError> {
    let mut bytes = Vec::from_slice(alloc, b"MDIC\x01\0\0\0")?;
    bytes.extend_from_slice(&(texts.len() as u64).to_le_bytes())?;
    for text in texts {
        bytes.push((text.len() & 0xff) as u8)?;
        bytes.extend_from_slice(b"\0\0\0")?;
        bytes.extend_from_slice(text)?;
    }
    Ok(bytes)
}

/// The database in a slot, over a store whose loads of these numbers fail.
pub fn database(alloc: Global, letter: u8, failing: &[u64]) -> Result<MemStore, AllocError> {
    let mut store = MemStore::new(alloc, List::from_vec(Vec::from_slice(alloc, failing)?));
    store.put(alloc, "s.now", &now_bytes(letter, 3))?;
    store.put(alloc, "d.now", &now_bytes(letter, 2))?;
    for (table, column, values, format) in [
        ("s", "amount", [1u64, 2, 3].as_slice(), Format::Plain),
        ("s", "word", [0, 1, 1].as_slice(), Format::Runs),
        ("d", "k", [4, 5].as_slice(), Format::Plain),
        ("d", "n", [0, 1].as_slice(), Format::Static),
    ] {
        let slot = char::from(letter);
        let name = format!(in alloc; "{table}.{slot}.{column}.col")?;
        let bytes = column_bytes(alloc, values, format)?;
        store.put(alloc, name.as_str(), bytes.as_slice())?;
    }
    for (table, column, texts) in [
        ("s", "word", [b"".as_slice(), b"a".as_slice()]),
        ("d", "n", [b"x".as_slice(), b"y".as_slice()]),
    ] {
        let slot = char::from(letter);
        let name = format!(in alloc; "{table}.{slot}.{column}.dic")?;
        let bytes = dictionary_bytes(alloc, &texts)?;
        store.put(alloc, name.as_str(), bytes.as_slice())?;
    }
    Ok(store)
}

/// The database with these files, each in the place of one of its name.
pub fn with_files(alloc: Global, files: &[(&str, &[u8])]) -> Result<MemStore, AllocError> {
    let mut store = database(alloc, b'a', &[])?;
    for (name, bytes) in files {
        store.put(alloc, name, bytes)?;
    }
    Ok(store)
}

/// Bytes that are no now file: one too few, one too many, and another slot.
pub const SHORT_NOW: &[u8] = b"MNOWa\x03\0\0\0\0\0\0";

pub const LONG_NOW: &[u8] = b"MNOWa\x03\0\0\0\0\0\0\0\0";

pub const OTHER_SLOT: &[u8] = b"MNOWc\x03\0\0\0\0\0\0\0";
