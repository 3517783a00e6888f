//! A table of a text and a number with its rows, and texts that are imported over them.
//!
//! A save writes the files in the order of the schema, which is not that of the names, and the dictionary stands between two columns.

use crate::folders::database;
use std::alloc::{AllocError, Global};
use stream_core::MemStore;

pub const NOTES: &str = r#"
[[table]]
name = "t"
role = "fact"
column = [ { name = "x", kind = "text" }, { name = "v", kind = "number" } ]
"#;

/// The row that stands first.
pub const OLD: &str = "b,5\n";

/// The rows that are imported.
pub const NEW: &str = "a,7\nc,8\n";

/// The files of the row in slot `a`, in the order in which they are saved.
pub const OLD_FILES: [(&str, &[u8]); 4] = [
    (
        "t.a.x.col",
        b"MCOL\x02\0\0\x40\x01\0\0\0\0\0\0\0\0\0\0\0\0\0\0\0",
    ),
    ("t.a.x.dic", b"MDIC\x01\0\0\0\x01\0\0\0\0\0\0\0\x01\0\0\0b"),
    (
        "t.a.v.col",
        b"MCOL\x02\0\0\x40\x01\0\0\0\0\0\0\0\x05\0\0\0\0\0\0\0",
    ),
    ("t.now", b"MNOWa\x01\0\0\0\0\0\0\0"),
];

/// The files of the rows that are imported, in slot `a`.
pub const NEW_FILES: [(&str, &[u8]); 4] = [
    (
        "t.a.x.col",
        b"MCOL\x02\0\0\x40\x02\0\0\0\0\0\0\0\0\0\0\0\0\0\0\0\x01\0\0\0\0\0\0\0",
    ),
    (
        "t.a.x.dic",
        b"MDIC\x01\0\0\0\x02\0\0\0\0\0\0\0\x01\0\0\0a\x01\0\0\0c",
    ),
    (
        "t.a.v.col",
        b"MCOL\x02\0\0\x40\x02\0\0\0\0\0\0\0\x07\0\0\0\0\0\0\0\x08\0\0\0\0\0\0\0",
    ),
    ("t.now", b"MNOWa\x02\0\0\0\0\0\0\0"),
];

/// The table with its row. The loads and saves of these numbers fail.
pub fn notes(alloc: Global, failing: &[u64]) -> Result<MemStore, AllocError> {
    let mut store = database(alloc, NOTES, failing)?;
    for (name, bytes) in OLD_FILES {
        store.put(alloc, name, bytes)?;
    }
    Ok(store)
}
