//! Commands that may want memory. With ample memory they answer; where an allocation is refused they say so, and the rows stand.

use crate::folders::answer;
use crate::notes::{NEW, OLD, notes};
use std::alloc::{AllocError, Global};
use std::process::Abort;
use std::test::Fail;
use stream_core::MemStore;

/// Whether the command is done, with this text, and not in want of memory.
fn is_done(
    rt: &impl Abort,
    alloc: Global,
    store: &mut MemStore,
    words: &[&str],
    text: &str,
    whole: &str,
) -> Result<bool, AllocError> {
    let (status, taken) = answer(alloc, store, words, text.as_bytes(), 100)?;
    let done = status == 0 && taken.as_slice() == whole.as_bytes();
    let wants = status == 6 && taken.as_slice() == b"memory\n".as_slice();
    assert!(rt; done || wants, "{words:?} and not {whole}: status {status}");
    Ok(done)
}

#[test]
fn want_of_memory_is_said_and_leaves_the_rows(rt: HostRuntime) -> Result<(), Fail> {
    let alloc = rt.alloc();
    let mut store = notes(alloc, &[])?;
    let line = "imported t 2 rows\n";
    let imported = is_done(&rt, alloc, &mut store, &["import", "t"], NEW, line)?;
    let (rows, line) = if imported {
        (NEW, "reformatted t 2 rows\n")
    } else {
        (OLD, "reformatted t 1 rows\n")
    };
    let exported = is_done(&rt, alloc, &mut store, &["export", "t"], "", rows)?;
    let reformatted = is_done(&rt, alloc, &mut store, &["reformat", "t"], "", line)?;
    let again = is_done(&rt, alloc, &mut store, &["export", "t"], "", rows)?;
    let first = imported && exported;
    let second = reformatted && again;
    let one_wants = first && (reformatted || again) || second && (imported || exported);
    assert!(&rt; one_wants, "more than one command wants memory");
    Ok(())
}
