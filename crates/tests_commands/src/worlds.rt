//! A database in memory, and one command over it.

use block_core::{Format, MAX_ROWS};
use column_core::encode_list;
use engine_tool::run;
use std::alloc::{AllocError, Global};
use std::process::Abort;
use stream_core::{List, MemSink, MemSource, MemStore};

/// A query over the example whose answer is `90`.
pub const TEXT: &str = "select sum(a) from t where b between 3 and 7";

/// The now file of slot `a` and so many rows, fewer than 256.
pub fn now_file(rows: u8) -> [u8; 13] {
    [b'M', b'N', b'O', b'W', b'a', rows, 0, 0, 0, 0, 0, 0, 0]
}

/// The bytes of the column file of these values, of as many as a column has at most.
pub fn column_bytes(alloc: Global, values: &[u64], format: Format) -> Result<Vec<u8>, AllocError> {
    let count = values.len().min(MAX_ROWS as usize);
    let column = encode_list(alloc, &values[..count], format)?;
    Vec::from_slice(alloc, column.encoded())
}

/// The bytes of the column file of version 1 of these values, fewer than a block: a head, and a word for each value.
pub fn first_bytes(alloc: Global, values: &[u64], format: Format) -> Result<Vec<u8>, AllocError> {
    let mut bytes = Vec::from_slice(alloc, b"MCOL\x01")?;
    bytes.extend_from_slice(&[format.tag(), 0, 0])?;
    bytes.extend_from_slice(&(values.len() as u64).to_le_bytes())?;
    for value in values {
        bytes.extend_from_slice(&value.to_le_bytes())?;
    }
    Ok(bytes)
}

/// The bytes of three parts, one after the other.
pub fn joined(
    alloc: Global,
    first: &[u8],
    second: &[u8],
    third: &[u8],
) -> Result<Vec<u8>, AllocError> {
    let mut bytes = Vec::from_slice(alloc, first)?;
    bytes.extend_from_slice(second)?;
    bytes.extend_from_slice(third)?;
    Ok(bytes)
}

/// A list of numbers.
pub fn numbers(alloc: Global, numbers: &[u64]) -> Result<List<u64>, AllocError> {
    Ok(List::from_vec(Vec::from_slice(alloc, numbers)?))
}

/// Puts the column file of these values, but for a name that is to be missing.
fn put_column(
    alloc: Global,
    store: &mut MemStore,
    name: &str,
    values: &[u64],
    missing: &str,
) -> Result<(), AllocError> {
    if name == missing {
        return Ok(());
    }
    let bytes = column_bytes(alloc, values, Format::Plain)?;
    store.put(alloc, name, bytes.as_slice())
}

/// The files of table `t` with five rows: `a` is 10, 20, 30, 40, 50 and `b` is 2, 3, 5, 7, 8. One of them may be missing, and
/// the loads of these numbers fail.
pub fn example_without(
    alloc: Global,
    missing: &str,
    failing: &[u64],
) -> Result<MemStore, AllocError> {
    let mut store = MemStore::new(alloc, numbers(alloc, failing)?);
    if missing != "t.now" {
        store.put(alloc, "t.now", &now_file(5))?;
    }
    put_column(
        alloc,
        &mut store,
        "t.a.a.col",
        &[10, 20, 30, 40, 50],
        missing,
    )?;
    put_column(alloc, &mut store, "t.a.b.col", &[2, 3, 5, 7, 8], missing)?;
    Ok(store)
}

/// The example's files, and then these, each in the place of one of its name.
pub fn example_with(alloc: Global, files: &[(&str, &[u8])]) -> Result<MemStore, AllocError> {
    let mut store = example_without(alloc, "", &[])?;
    for (name, bytes) in files {
        store.put(alloc, name, bytes)?;
    }
    Ok(store)
}

/// An input of this text, handed out in pieces of seven bytes. The reads of these numbers fail.
pub fn source(alloc: Global, text: &[u8], failing: &[u64]) -> Result<MemSource, AllocError> {
    let bytes = List::from_vec(Vec::from_slice(alloc, text)?);
    Ok(MemSource::new(bytes, 7, numbers(alloc, failing)?))
}

/// The status and the output of a command.
pub fn command(
    alloc: Global,
    words: &[String],
    store: &mut MemStore,
    input: &mut MemSource,
    out: &mut MemSink,
) -> Result<(u8, Vec<u8>), AllocError> {
    let status = run(alloc, words, store, input, out);
    Ok((status, Vec::from_slice(alloc, out.taken())?))
}

/// The status and the output of `query` over these files.
pub fn query(
    alloc: Global,
    store: &mut MemStore,
    text: &[u8],
) -> Result<(u8, Vec<u8>), AllocError> {
    let words = [String::from_str(alloc, "query")?];
    let mut input = source(alloc, text, &[])?;
    let mut out = MemSink::new(alloc, 100, List::from_vec(Vec::new(alloc)))?;
    command(alloc, &words, store, &mut input, &mut out)
}

/// Whether `query` of this text over these files ends with this status and writes this line.
pub fn answers(
    alloc: Global,
    store: &mut MemStore,
    text: &str,
    status: u8,
    line: &str,
) -> Result<bool, AllocError> {
    let (found, written) = query(alloc, store, text.as_bytes())?;
    Ok(found == status && written.as_slice() == line.as_bytes())
}

/// It does.
pub fn expect(
    rt: &impl Abort,
    alloc: Global,
    store: &mut MemStore,
    text: &str,
    status: u8,
    line: &str,
) -> Result<(), AllocError> {
    let answered = answers(alloc, store, text, status, line)?;
    assert!(rt; answered, "{text}, and not {line}");
    Ok(())
}
