//! What is judged first: the text, then the schema, then the binding.

use crate::folders::{expect, expect_explained, folder, source};
use crate::stars::TWO_FACTS;
use std::alloc::{AllocError, Global};
use std::process::Abort;
use std::test::Fail;

/// A text that says no query, and one that binds to no schema.
const NO_QUERY: (&str, &str) = ("select", "query: syntax at 6\n");

const UNBOUND: (&str, &str) = ("select x from nowhere", "query: unknown table at 14\n");

const BOUND: (&str, &str) = ("select sum(s_price) from sales", "o1 c1 = sum s_price\n");

const UNKNOWN_KIND: &str = r#"
table = [ { name = "a", role = "fact", column = [ { name = "x", kind = "numbers" } ] } ]
"#;

const SAME_NAMES: &str = r#"
table = [ { name = "a", role = "fact", column = [ { name = "x", kind = "number" }, { name = "x", kind = "text" } ] } ]
"#;

/// A text is refused before the schema is, and the schema before a binding.
#[test]
fn the_schema_is_refused_between_the_text_and_the_binding(rt: HostRuntime) -> Result<(), Fail> {
    let alloc = rt.alloc();
    for (schema, line) in [
        (None, "database: schema.toml: no file\n"),
        (Some("table = ["), "database: schema.toml: bad toml\n"),
        (Some("a = 1"), "database: schema.toml: shape 0 0\n"),
        (Some(UNKNOWN_KIND), "database: schema.toml: shape 1 1\n"),
        (Some(SAME_NAMES), "database: schema.toml: repeated x\n"),
    ] {
        let mut store = folder(alloc, schema, &[])?;
        expect_explained(&rt, alloc, &mut store, NO_QUERY.0, (1, NO_QUERY.1))?;
        expect_explained(&rt, alloc, &mut store, UNBOUND.0, (4, line))?;
        expect_explained(&rt, alloc, &mut store, BOUND.0, (4, line))?;
    }
    Ok(())
}

/// The bytes of a query with spaces behind it, so many in all.
fn padded(alloc: Global, len: usize) -> Result<Vec<u8>, AllocError> {
    let mut text = Vec::from_slice(alloc, BOUND.0.as_bytes())?;
    for _space in text.len()..len {
        text.push(b' ')?;
    }
    Ok(text)
}

fn expect_padded(
    rt: &impl Abort,
    alloc: Global,
    len: usize,
    expected: (u8, &str),
) -> Result<(), AllocError> {
    let mut store = folder(alloc, Some(TWO_FACTS), &[])?;
    let text = padded(alloc, len)?;
    let mut input = source(alloc, text.as_slice(), &[])?;
    expect(rt, alloc, &mut store, &["explain"], &mut input, expected)
}

/// A text has at most 65,536 bytes. One that is too long is refused for that, with the schema or without it.
#[test]
fn a_text_is_too_long_at_65537_bytes(rt: HostRuntime) -> Result<(), Fail> {
    let alloc = rt.alloc();
    expect_padded(&rt, alloc, 65_536, (0, BOUND.1))?;
    expect_padded(&rt, alloc, 65_537, (1, "query: too long\n"))?;
    expect_padded(&rt, alloc, 70_000, (1, "query: too long\n"))?;
    let text = padded(alloc, 65_537)?;
    let mut input = source(alloc, text.as_slice(), &[])?;
    let mut store = folder(alloc, None, &[])?;
    expect(
        &rt,
        alloc,
        &mut store,
        &["explain"],
        &mut input,
        (1, "query: too long\n"),
    )?;
    Ok(())
}

/// Words behind `explain` denote no command, and leave the input to the next one.
#[test]
fn explain_has_no_more_words(rt: HostRuntime) -> Result<(), Fail> {
    let alloc = rt.alloc();
    let mut store = folder(alloc, Some(TWO_FACTS), &[])?;
    let mut input = source(alloc, BOUND.0.as_bytes(), &[])?;
    let usage = (2, "usage: see morphq help\n");
    for words in [
        ["explain", "sales"].as_slice(),
        &["explain", "--lanes", "8"],
        &["explain", "explain"],
        &["Explain"],
    ] {
        expect(&rt, alloc, &mut store, words, &mut input, usage)?;
    }
    expect(
        &rt,
        alloc,
        &mut store,
        &["explain"],
        &mut input,
        (0, BOUND.1),
    )?;
    // The input is at its end now.
    expect(
        &rt,
        alloc,
        &mut store,
        &["explain"],
        &mut input,
        (1, "query: syntax at 0\n"),
    )?;
    Ok(())
}
