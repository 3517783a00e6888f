//! Loads and saves that fail, and outputs of little room: the old rows stand, or the new ones.

use crate::folders::{DATES, STAR, answer, database, expect};
use std::alloc::{AllocError, Global};
use std::process::Abort;
use std::test::Fail;
use stream_core::MemStore;

const NEW: &str = "1,2\n3,4\n5,6\n";

/// A database whose table `date` has rows, and whose later calls of these numbers fail. The first import makes five calls: two
/// loads, two saves of columns and one of the now file.
fn imported(rt: &impl Abort, alloc: Global, failing: u64) -> Result<MemStore, AllocError> {
    let mut store = database(alloc, STAR, &[failing])?;
    expect(
        rt,
        alloc,
        &mut store,
        (&["import", "date"], DATES, 0, "imported date 2 rows\n"),
    )?;
    Ok(store)
}

/// A second import makes five calls too. Saving the table again makes three more: two loads of columns, and one of the now file.
#[test]
fn a_failed_call_leaves_the_old_rows(rt: HostRuntime) -> Result<(), Fail> {
    let alloc = rt.alloc();
    for call in 5..11u64 {
        let mut store = imported(&rt, alloc, call)?;
        let done = (
            ["import", "date"].as_slice(),
            NEW,
            0,
            "imported date 3 rows\n",
        );
        let fault = (["import", "date"].as_slice(), NEW, 3, "fault: store\n");
        let (step, rows) = if call < 10 {
            (fault, DATES)
        } else {
            (done, NEW)
        };
        expect(&rt, alloc, &mut store, step)?;
        let mut later = imported_copy(alloc, &store)?;
        expect(&rt, alloc, &mut later, (&["export", "date"], "", 0, rows))?;
    }
    for call in 5..14u64 {
        let mut store = imported(&rt, alloc, call)?;
        let done = (
            ["reformat", "date"].as_slice(),
            "",
            0,
            "reformatted date 2 rows\n",
        );
        let fault = (["reformat", "date"].as_slice(), "", 3, "fault: store\n");
        expect(&rt, alloc, &mut store, if call < 13 { fault } else { done })?;
        let mut later = imported_copy(alloc, &store)?;
        expect(&rt, alloc, &mut later, (&["export", "date"], "", 0, DATES))?;
    }
    Ok(())
}

/// The same files in a store that does not fail.
fn imported_copy(alloc: Global, store: &MemStore) -> Result<MemStore, AllocError> {
    let mut copy = database(alloc, STAR, &[])?;
    for name in [
        "date.now",
        "date.a.d_datekey.col",
        "date.a.d_year.col",
        "date.b.d_datekey.col",
        "date.b.d_year.col",
    ] {
        if let Some(bytes) = store.file(name) {
            copy.put(alloc, name, bytes)?;
        }
    }
    Ok(copy)
}

/// Once all is saved, a closing line that is cut off takes nothing back.
#[test]
fn a_closing_line_that_is_cut_off_leaves_the_new_rows(rt: HostRuntime) -> Result<(), Fail> {
    let alloc = rt.alloc();
    let line = "imported date 3 rows\n";
    for room in 0..line.len() {
        let mut store = imported(&rt, alloc, 99)?;
        let (status, taken) = answer(alloc, &mut store, &["import", "date"], NEW.as_bytes(), room)?;
        let cut = status == 3 && taken.as_slice() == &line.as_bytes()[..room];
        assert!(&rt; cut, "{room} bytes");
        expect(&rt, alloc, &mut store, (&["export", "date"], "", 0, NEW))?;
    }
    Ok(())
}
