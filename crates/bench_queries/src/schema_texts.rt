//! The texts of schemas.
//!
//! The first table is the fact table, and the first column of each other table is its key. The last column of each table has texts. Columns
//! are named in the order of their places, so that keys have the shortest names: column `place` of table `table` has the name of number
//! `place * tables + table`. The one table of a small schema so has the columns `a` to `z`, of which `z` has texts.

use crate::names::put_name;
use crate::shapes::Shape;
use std::alloc::{AllocError, Global};

/// How many tables the large schema has, and how many columns each of them: the most that a schema may have.
pub const TABLES: u64 = 64;

pub const COLUMNS: u64 = 256;

/// Adds a name in quotes behind a key.
fn put_key(text: &mut Vec<u8>, key: &[u8], number: u64) -> Result<(), AllocError> {
    text.extend_from_slice(key)?;
    text.extend_from_slice(b"=\"")?;
    put_name(text, number)?;
    text.push(b'"')?;
    Ok(())
}

fn put_role(text: &mut Vec<u8>, table: u64) -> Result<(), AllocError> {
    if table == 0 {
        text.extend_from_slice(b"\nrole=\"fact\"\n")?;
    } else {
        text.extend_from_slice(b"\nrole=\"dimension\"\n")?;
        put_key(text, b"key", table)?;
        text.push(b'\n')?;
    }
    Ok(())
}

fn put_column(text: &mut Vec<u8>, number: u64, is_last: bool) -> Result<(), AllocError> {
    put_key(text, b"{name", number)?;
    if is_last {
        text.extend_from_slice(b",kind=\"text\"},\n")?;
    } else {
        text.extend_from_slice(b",kind=\"number\"},\n")?;
    }
    Ok(())
}

/// Adds a table, whose columns have the names of its own number and then of each that is `tables` further.
fn put_table(text: &mut Vec<u8>, table: u64, tables: u64, columns: u64) -> Result<(), AllocError> {
    put_key(text, b"[[table]]\nname", table)?;
    put_role(text, table)?;
    text.extend_from_slice(b"column=[\n")?;
    let mut number = table;
    for place in 0..columns {
        put_column(text, number, columns - place == 1)?;
        number = number.wrapping_add(tables);
    }
    text.extend_from_slice(b"]\n")?;
    Ok(())
}

/// The text of the schema of a shape: one table of 26 columns, or 64 of 256.
pub fn schema_text(alloc: Global, shape: Shape) -> Result<Vec<u8>, AllocError> {
    let (tables, columns) = match shape {
        Shape::Joins | Shape::Columns => (TABLES, COLUMNS),
        _ => (1, 26),
    };
    let mut text = Vec::new(alloc);
    for table in 0..tables {
        put_table(&mut text, table, tables, columns)?;
    }
    Ok(text)
}
