//! Schemas, and what is said of those that are out of form. A schema that is good ends at the first file that is missing.

use crate::databases::{check, expect_schema};
use crate::worlds::numbers;
use std::alloc::{AllocError, Global};
use std::test::Fail;
use stream_core::MemStore;

const FACT: &str = "[[table]]\nname=\"t\"\nrole=\"fact\"\n";

const DIMENSION: &str = "[[table]]\nname=\"d\"\nrole=\"dimension\"\n";

const A: &str = "[[table.column]]\nname=\"a\"\nkind=\"number\"\n";

const KEYWORD: &str = "[[table]]\nname=\"select\"\nrole=\"fact\"\n";

// Names of 31 bytes, and of 32.
const LONGEST_TABLE: &str = "[[table]]\nname=\"a234567890123456789012345678901\"\nrole=\"fact\"\n";

const LONG_TABLE: &str = "[[table]]\nname=\"a2345678901234567890123456789012\"\nrole=\"fact\"\n";

const LONGEST_COLUMN: &str =
    "[[table.column]]\nname=\"a234567890123456789012345678901\"\nkind=\"number\"\n";

const LONG_COLUMN: &str =
    "[[table.column]]\nname=\"a2345678901234567890123456789012\"\nkind=\"number\"\n";

// The same in other words of TOML.
const INLINE: &str =
    "table = [ { name = 't', \"role\" = \"fact\", column = [ { 'name' = 'a', kind = \"te\\u0078t\", format = 'auto' } ] } ]\n";

#[test]
fn a_schema_out_of_form_is_refused_at_its_first_fault(rt: HostRuntime) -> Result<(), Fail> {
    let alloc = rt.alloc();
    for (parts, what) in [
        (["[[", "", ""], "schema.toml: bad toml"),
        (["", "", ""], "schema.toml: shape 0 0"),
        (["x=1\n", FACT, A], "schema.toml: shape 0 0"),
        (["table=[]", "", ""], "schema.toml: shape 0 0"),
        (["table=[1]", "", ""], "schema.toml: shape 1 0"),
        ([FACT, "x=1\n", A], "schema.toml: shape 1 0"),
        ([FACT, "key=\"a\"\n", A], "schema.toml: shape 1 0"),
        ([FACT, "repeats=false\n", A], "schema.toml: shape 1 0"),
        ([FACT, "column=[]\n", ""], "schema.toml: shape 1 0"),
        ([DIMENSION, "", A], "schema.toml: shape 1 0"),
        ([DIMENSION, "key=\"b\"\n", A], "schema.toml: shape 1 0"),
        (
            [FACT, "[[table.column]]\nname=\"a\"\nkind=\"int\"\n", ""],
            "schema.toml: shape 1 1",
        ),
        ([FACT, A, "format=\"zip\"\n"], "schema.toml: shape 1 1"),
        (
            [FACT, A, "[[table.column]]\nname=\"in\"\nkind=\"number\"\n"],
            "schema.toml: shape 1 2",
        ),
        ([FACT, A, "[[table]]\n"], "schema.toml: shape 2 0"),
        ([FACT, A, A], "schema.toml: repeated a"),
        ([KEYWORD, A, ""], "schema.toml: shape 1 0"),
        ([LONG_TABLE, A, ""], "schema.toml: shape 1 0"),
        (
            [LONGEST_TABLE, A, ""],
            "a234567890123456789012345678901.now: no file",
        ),
        ([FACT, LONG_COLUMN, ""], "schema.toml: shape 1 1"),
        ([FACT, LONGEST_COLUMN, ""], "t.now: no file"),
        ([INLINE, "", ""], "t.now: no file"),
    ] {
        let [first, second, third] = parts;
        let text = format!(in alloc; "{first}{second}{third}")?;
        expect_schema(&rt, alloc, text.as_str(), what)?;
    }
    Ok(())
}

#[test]
fn a_name_of_two_tables_or_columns_is_found_after_all_keys(rt: HostRuntime) -> Result<(), Fail> {
    let alloc = rt.alloc();
    for (parts, what) in [
        ([FACT, A, FACT, A], "schema.toml: repeated t"),
        (
            [FACT, A, "[[table]]\nname=\"u\"\nrole=\"fact\"\n", A],
            "schema.toml: repeated a",
        ),
        ([FACT, A, FACT, ""], "schema.toml: shape 2 0"),
        (
            [DIMENSION, "key=\"a\"\nrepeats=true\n", A, ""],
            "d.now: no file",
        ),
        (
            [DIMENSION, "key='a'\n'repeats' = false\n", A, ""],
            "d.now: no file",
        ),
        (
            [FACT, "separator=\"\\t\"\nheader=true\n", A, ""],
            "t.now: no file",
        ),
    ] {
        let [first, second, third, fourth] = parts;
        let text = format!(in alloc; "{first}{second}{third}{fourth}")?;
        expect_schema(&rt, alloc, text.as_str(), what)?;
    }
    Ok(())
}

/// A schema of one table that is filled up to so many bytes by a comment.
fn filled(alloc: Global, len: usize) -> Result<Vec<u8>, AllocError> {
    let mut text = Vec::from_slice(alloc, FACT.as_bytes())?;
    text.extend_from_slice(A.as_bytes())?;
    for _ in text.len()..len {
        text.push(b'#')?;
    }
    Ok(text)
}

#[test]
fn a_schema_has_a_megabyte_at_most(rt: HostRuntime) -> Result<(), Fail> {
    let alloc = rt.alloc();
    for (len, line) in [
        (1_048_576usize, "database: t.now: no file\n"),
        (1_048_577, "database: schema.toml: too long\n"),
    ] {
        let mut store = MemStore::new(alloc, numbers(alloc, &[])?);
        store.put(alloc, "schema.toml", filled(alloc, len)?.as_slice())?;
        let (status, written) = check(alloc, &mut store, 400)?;
        let answered = status == 4 && written.as_slice() == line.as_bytes();
        assert!(&rt; answered, "{len} bytes");
    }
    Ok(())
}

/// A schema of so many tables of one column.
fn tables(alloc: Global, count: u32) -> Result<String, AllocError> {
    let mut text = String::new(alloc);
    for number in 0..count {
        let table = format!(in alloc;
            "[[table]]\nname=\"t{number}\"\nrole=\"fact\"\n[[table.column]]\nname=\"c{number}\"\nkind=\"number\"\n"
        )?;
        text.push_str(table.as_str())?;
    }
    Ok(text)
}

/// A schema of one table of so many columns.
fn columns(alloc: Global, count: u32) -> Result<String, AllocError> {
    let mut text = String::from_str(alloc, FACT)?;
    for number in 0..count {
        let column = format!(in alloc; "[[table.column]]\nname=\"c{number}\"\nkind=\"number\"\n")?;
        text.push_str(column.as_str())?;
    }
    Ok(text)
}

#[test]
fn a_schema_has_64_tables_and_256_columns_a_table_at_most(rt: HostRuntime) -> Result<(), Fail> {
    let alloc = rt.alloc();
    for (count, what) in [(64, "t0.now: no file"), (65, "schema.toml: shape 0 0")] {
        expect_schema(&rt, alloc, tables(alloc, count)?.as_str(), what)?;
    }
    for (count, what) in [(256, "t.now: no file"), (257, "schema.toml: shape 1 0")] {
        expect_schema(&rt, alloc, columns(alloc, count)?.as_str(), what)?;
    }
    Ok(())
}
