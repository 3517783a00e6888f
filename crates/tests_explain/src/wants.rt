//! Queries that may want memory. With ample memory they are explained; where an allocation is refused the command says so.

use crate::folders::{answer, folder, source};
use crate::plans::PLANS;
use crate::stars::STAR;
use std::alloc::{AllocError, Global};
use std::process::Abort;
use std::test::Fail;

/// Whether the query is explained, and the command not in want of memory.
fn is_done(rt: &impl Abort, alloc: Global, text: &str, lines: &str) -> Result<bool, AllocError> {
    let mut store = folder(alloc, Some(STAR), &[])?;
    let mut input = source(alloc, text.as_bytes(), &[])?;
    let (status, taken) = answer(alloc, &mut store, &["explain"], &mut input, 2000)?;
    let done = status == 0 && taken.as_slice() == lines.as_bytes();
    let wants = status == 6 && taken.as_slice() == b"memory\n".as_slice();
    assert!(rt; done || wants, "{text} ends with status {status}");
    Ok(done)
}

/// One query at most wants memory. The last ones have groups, sums and choices of texts.
#[test]
fn want_of_memory_is_said(rt: HostRuntime) -> Result<(), Fail> {
    let alloc = rt.alloc();
    let mut wanting = 0u64;
    for (text, lines) in PLANS {
        if !is_done(&rt, alloc, text, lines)? && wanting < 2 {
            wanting += 1;
        }
    }
    assert!(&rt; wanting < 2, "more than one query wants memory");
    Ok(())
}
