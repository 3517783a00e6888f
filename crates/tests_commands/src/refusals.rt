//! Texts and words out of form.

use crate::worlds::{TEXT, command, example_with, expect, source};
use std::alloc::{AllocError, Global};
use std::process::Abort;
use std::test::Fail;
use stream_core::{List, MemSink};

#[test]
fn a_text_of_another_form_is_refused(rt: HostRuntime) -> Result<(), Fail> {
    let mut store = example_with(rt.alloc(), &[])?;
    for text in [
        "",
        " ",
        "select sum(a), sum(b) from t",
        "select sum(a) from t where",
        "select sum(a) from",
        "select sum(a) from t where b between 3 and",
        "select sum(a) from t where b between 3 and 7;",
        "select sum(a) from t where b between 3 and 7 and",
        "select sum(a) from t where b between 3 and 18446744073709551616",
        "select sum(a) from t where b between 3 and -7",
        "select sum(a) from t where b between 3 and 'x'",
        "select sum[a] from t where b between 3 and 7",
        "select sum(sum) from t where b between 3 and 7",
        "select sum(_a) from t where b between 3 and 7",
        "select sum(a) from t where b between 3and7x 7",
        "selectsum(a) from t where b between 3 and 7",
        "select sum(abcdefghijabcdefghijabcdefghijab) from t where b between 3 and 7",
        "select sum(t.a) from t where b between 3 and 7",
        "select sum(\u{e4}) from t where b between 3 and 7",
    ] {
        expect(&rt, rt.alloc(), &mut store, text, 1, "query: not built\n")?;
    }
    Ok(())
}

#[test]
fn a_text_has_at_most_65536_bytes(rt: HostRuntime) -> Result<(), Fail> {
    let alloc = rt.alloc();
    let mut store = example_with(alloc, &[])?;
    let mut text = String::from_str(alloc, TEXT)?;
    for _ in TEXT.len()..65_536 {
        text.push(' ')?;
    }
    expect(&rt, alloc, &mut store, text.as_str(), 0, "90\n")?;
    text.push(' ')?;
    expect(
        &rt,
        alloc,
        &mut store,
        text.as_str(),
        1,
        "query: not built\n",
    )?;
    Ok(())
}

/// The words of a command line.
fn words_of(alloc: Global, words: &[&str]) -> Result<Vec<String>, AllocError> {
    let mut list = Vec::new(alloc);
    for word in words {
        list.push(String::from_str(alloc, word)?)?;
    }
    Ok(list)
}

/// The words are no command, and the input is left to the next one.
fn no_command(rt: &impl Abort, alloc: Global, words: &[&str]) -> Result<(), AllocError> {
    let mut store = example_with(alloc, &[])?;
    let mut input = source(alloc, TEXT.as_bytes(), &[])?;
    for (words, status, line) in [
        (words, 2, "usage: see morphq help\n"),
        (["query"].as_slice(), 0, "90\n"),
    ] {
        let list = words_of(alloc, words)?;
        let mut out = MemSink::new(alloc, 100, List::from_vec(Vec::new(alloc)))?;
        let (found, written) = command(alloc, list.as_slice(), &mut store, &mut input, &mut out)?;
        assert!(rt;
            found == status && written.as_slice() == line.as_bytes(),
            "{words:?}, and not {line}"
        );
    }
    Ok(())
}

#[test]
fn other_words_are_no_command_and_leave_the_input_unread(rt: HostRuntime) -> Result<(), Fail> {
    for words in [
        [].as_slice(),
        &["helps"],
        &["Query"],
        &[""],
        &["query", "t"],
        &["query", ""],
        &["quer", "y"],
    ] {
        no_command(&rt, rt.alloc(), words)?;
    }
    Ok(())
}
