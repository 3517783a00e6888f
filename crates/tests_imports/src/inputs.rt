//! Inputs whose reads fail, and inputs that are left unread.

use crate::folders::{answer_over, expect, source};
use crate::notes::{NEW, OLD, OLD_FILES, notes};
use std::alloc::{AllocError, Global};
use std::process::Abort;
use std::test::Fail;
use stream_core::{MemSource, MemStore};

/// The files are those of the row that stood, and there is none in the other slot.
fn expect_old_files(rt: &impl Abort, store: &MemStore) {
    for (name, bytes) in OLD_FILES {
        let kept = store.file(name) == Some(bytes);
        assert!(rt; kept, "{name}");
    }
    for name in ["t.b.x.col", "t.b.x.dic", "t.b.v.col"] {
        let absent = store.file(name).is_none();
        assert!(rt; absent, "{name}");
    }
}

/// A command over this input ends with this status, and writes this.
fn expect_over(
    rt: &impl Abort,
    alloc: Global,
    store: &mut MemStore,
    table: &str,
    input: &mut MemSource,
    status: u8,
    written: &str,
) -> Result<(), AllocError> {
    let (found, taken) = answer_over(alloc, store, &["import", table], input, 1000)?;
    let answered = found == status && taken.as_slice() == written.as_bytes();
    assert!(rt; answered, "{table} and not {written}");
    Ok(())
}

/// The read of this number fails, and no file is written.
fn expect_failed_read(rt: &impl Abort, alloc: Global, read: u64) -> Result<(), AllocError> {
    let mut store = notes(alloc, &[])?;
    let mut input = source(alloc, NEW.as_bytes(), &[read])?;
    expect_over(rt, alloc, &mut store, "t", &mut input, 3, "fault: input\n")?;
    expect_old_files(rt, &store);
    expect(rt, alloc, &mut store, (&["export", "t"], "", 0, OLD))
}

/// The eight bytes are read in two pieces, and a third read finds the end. A fourth is never made.
#[test]
fn each_failed_read_leaves_the_files(rt: HostRuntime) -> Result<(), Fail> {
    let alloc = rt.alloc();
    for read in 0..3u64 {
        expect_failed_read(&rt, alloc, read)?;
    }
    let mut store = notes(alloc, &[])?;
    let mut input = source(alloc, NEW.as_bytes(), &[3])?;
    expect_over(
        &rt,
        alloc,
        &mut store,
        "t",
        &mut input,
        0,
        "imported t 2 rows\n",
    )?;
    Ok(())
}

/// The same input serves the next command, as long as no table is found.
#[test]
fn an_unknown_table_leaves_the_input_unread(rt: HostRuntime) -> Result<(), Fail> {
    let alloc = rt.alloc();
    let mut store = notes(alloc, &[])?;
    let mut input = source(alloc, NEW.as_bytes(), &[])?;
    let none = "database: no such table\n";
    expect_over(&rt, alloc, &mut store, "s", &mut input, 4, none)?;
    expect_over(
        &rt,
        alloc,
        &mut store,
        "t",
        &mut input,
        0,
        "imported t 2 rows\n",
    )?;
    expect(&rt, alloc, &mut store, (&["export", "t"], "", 0, NEW))?;
    let mut broken = source(alloc, NEW.as_bytes(), &[0])?;
    expect_over(&rt, alloc, &mut store, "s", &mut broken, 4, none)?;
    Ok(())
}
