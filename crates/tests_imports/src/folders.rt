//! A database in memory, and commands over it.

use engine_tool::run;
use std::alloc::{AllocError, Global};
use std::process::Abort;
use stream_core::{List, MemSink, MemSource, MemStore};

/// A command: its words, the text that is its input, the status that it ends with, and what it writes.
pub type Step<'a> = (&'a [&'a str], &'a str, u8, &'a str);

/// A list of numbers.
pub fn numbers(alloc: Global, numbers: &[u64]) -> Result<List<u64>, AllocError> {
    Ok(List::from_vec(Vec::from_slice(alloc, numbers)?))
}

/// A database of this schema without rows. The loads and saves of these numbers fail.
pub fn database(alloc: Global, schema: &str, failing: &[u64]) -> Result<MemStore, AllocError> {
    let mut store = MemStore::new(alloc, numbers(alloc, failing)?);
    store.put(alloc, "schema.toml", schema.as_bytes())?;
    Ok(store)
}

fn strings_of(alloc: Global, words: &[&str]) -> Result<Vec<String>, AllocError> {
    let mut strings = Vec::new(alloc);
    for word in words {
        strings.push(String::from_str(alloc, word)?)?;
    }
    Ok(strings)
}

/// An input of this text, handed out in pieces of seven bytes. The reads of these numbers fail.
pub fn source(alloc: Global, text: &[u8], failing: &[u64]) -> Result<MemSource, AllocError> {
    let bytes = List::from_vec(Vec::from_slice(alloc, text)?);
    Ok(MemSource::new(bytes, 7, numbers(alloc, failing)?))
}

/// The status and the output of a command over this input, into an output with room for so many bytes.
pub fn answer_over(
    alloc: Global,
    store: &mut MemStore,
    words: &[&str],
    input: &mut MemSource,
    room: usize,
) -> Result<(u8, Vec<u8>), AllocError> {
    let words = strings_of(alloc, words)?;
    let mut out = MemSink::new(alloc, room, numbers(alloc, &[])?)?;
    let status = run(alloc, words.as_slice(), store, input, &mut out);
    Ok((status, Vec::from_slice(alloc, out.taken())?))
}

/// The status and the output of a command, into an output with room for so many bytes.
pub fn answer(
    alloc: Global,
    store: &mut MemStore,
    words: &[&str],
    text: &[u8],
    room: usize,
) -> Result<(u8, Vec<u8>), AllocError> {
    let mut input = source(alloc, text, &[])?;
    answer_over(alloc, store, words, &mut input, room)
}

/// The command ends with its status, and writes its text.
pub fn expect(
    rt: &impl Abort,
    alloc: Global,
    store: &mut MemStore,
    step: Step,
) -> Result<(), AllocError> {
    let (words, text, status, written) = step;
    let (found, taken) = answer(alloc, store, words, text.as_bytes(), 1000)?;
    let answered = found == status && taken.as_slice() == written.as_bytes();
    assert!(rt; answered, "{words:?} of {text}, and not {written}");
    Ok(())
}

/// The commands, one after the other over the same files.
pub fn expect_all(
    rt: &impl Abort,
    alloc: Global,
    store: &mut MemStore,
    steps: &[Step],
) -> Result<(), AllocError> {
    for step in steps {
        expect(rt, alloc, store, *step)?;
    }
    Ok(())
}

/// A fact table of four numbers, and a dimension.
pub const STAR: &str = r#"
table = [
  { name = "lineorder", role = "fact", column = [
    { name = "lo_orderdate", kind = "number" }, { name = "lo_quantity", kind = "number" },
    { name = "lo_discount", kind = "number" }, { name = "lo_extendedprice", kind = "number" } ] },
  { name = "date", role = "dimension", key = "d_datekey", column = [
    { name = "d_datekey", kind = "number" }, { name = "d_year", kind = "number" } ] },
]
"#;

/// The rows of the star's two tables.
pub const FACTS: &str =
    "19930101,10,2,1000\n19930101,24,3,500\n19930101,25,1,700\n19940101,5,2,900\n";

pub const DATES: &str = "19930101,1993\n19940101,1994\n";
