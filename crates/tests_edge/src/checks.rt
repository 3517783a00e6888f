//! `check` over the folder, and over it with other schemas. The input fails, and is not read.

use crate::commands::printed;
use host_edge::FolderStore;
use std::{fs, io};
use stream_core::Store;

/// A case, and the schema that is saved before it.
const SCHEMAS: [(&str, &str); 7] = [
    ("a schema that is no TOML", "[["),
    (
        "a column of another kind",
        "[[table]]\nname = 't'\nrole = 'fact'\ncolumn = [{ name = 'a', kind = 'int' }]\n",
    ),
    (
        "a name of two columns",
        "[[table]]\nname = 't'\nrole = 'fact'\ncolumn = [{ name = 'a', kind = 'number' }]\n\
         [[table]]\nname = 'u'\nrole = 'fact'\ncolumn = [{ name = 'a', kind = 'number' }]\n",
    ),
    (
        "a table without files",
        "[[table]]\nname = 'u'\nrole = 'fact'\ncolumn = [{ name = 'a', kind = 'number' }]\n",
    ),
    (
        "a table with a file that is cut off",
        "[[table]]\nname = 'damaged'\nrole = 'fact'\ncolumn = [{ name = 'c', kind = 'number' }]\n",
    ),
    (
        "a table with a folder in place of its now file",
        "[[table]]\nname = 'shelf'\nrole = 'fact'\ncolumn = [{ name = 'a', kind = 'number' }]\n",
    ),
    (
        "a table with a folder in place of a column file",
        "[[table]]\nname = 'wide'\nrole = 'fact'\n\
         column = [{ name = 'a', kind = 'number' }, { name = 'b', kind = 'number' }]\n",
    ),
];

/// Saves the schema file. The line is printed if that fails.
fn save_schema(rt: &HostRuntime, text: &str) -> io::Result<()> {
    let mut store = FolderStore::new(rt);
    match store.save(rt.alloc(), "schema.toml", text.as_bytes()) {
        Ok(()) => Ok(()),
        Err(_) => println!(rt; "the schema is not saved"),
    }
}

/// Runs the cases, and gives the sum of their statuses.
pub fn sum_of_statuses(rt: &HostRuntime) -> io::Result<u8> {
    let check = ["check"];
    let mut sum = printed(rt, "the whole database", &check, fs::open(rt, ".")?)?;
    for (case, text) in SCHEMAS {
        save_schema(rt, text)?;
        let status = printed(rt, case, &check, fs::open(rt, ".")?)?;
        sum = sum.saturating_add(status);
    }
    Ok(sum)
}
