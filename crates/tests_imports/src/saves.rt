//! Saves that fail: which files are new then, and what is read of them.

use crate::folders::{DATES, FACTS, STAR, database, expect, expect_all};
use crate::notes::{NEW, NEW_FILES, NOTES, OLD, OLD_FILES, notes};
use std::alloc::{AllocError, Global};
use std::process::Abort;
use std::test::Fail;
use stream_core::MemStore;

const FAULT: &str = "fault: store\n";

/// Both imports make twelve calls. The second one of `lineorder` makes two loads, and then its saves.
#[test]
fn a_third_save_that_fails_leaves_the_answers_of_the_star(rt: HostRuntime) -> Result<(), Fail> {
    let alloc = rt.alloc();
    let mut store = database(alloc, STAR, &[16])?;
    let sum = "select sum(lo_extendedprice) from lineorder where lo_discount between 2 and 3";
    let steps = [
        (
            ["import", "date"].as_slice(),
            DATES,
            0,
            "imported date 2 rows\n",
        ),
        (
            &["import", "lineorder"],
            FACTS,
            0,
            "imported lineorder 4 rows\n",
        ),
        (&["import", "lineorder"], "19930101,1,2,3\n", 3, FAULT),
        (&["query"], sum, 0, "2400\n"),
        (&["export", "lineorder"], "", 0, FACTS),
        (&["export", "date"], "", 0, DATES),
    ];
    expect_all(&rt, alloc, &mut store, &steps)?;
    Ok(())
}

/// The command is stopped by the call of this number, and the row that stood stands.
fn expect_old_row(
    rt: &impl Abort,
    alloc: Global,
    words: &[&str],
    call: u64,
) -> Result<(), AllocError> {
    let mut store = notes(alloc, &[call])?;
    expect(rt, alloc, &mut store, (words, NEW, 3, FAULT))?;
    expect(rt, alloc, &mut store, (&["export", "t"], "", 0, OLD))
}

/// An import makes two loads and four saves. Saving the table again makes three more loads, of its data files.
#[test]
fn a_failed_call_leaves_the_texts(rt: HostRuntime) -> Result<(), Fail> {
    let alloc = rt.alloc();
    for (words, calls, line, rows) in [
        (["import", "t"].as_slice(), 6, "imported t 2 rows\n", NEW),
        (
            ["reformat", "t"].as_slice(),
            10,
            "reformatted t 1 rows\n",
            OLD,
        ),
    ] {
        for call in 0..calls {
            expect_old_row(&rt, alloc, words, call)?;
        }
        let mut store = notes(alloc, &[calls])?;
        expect(&rt, alloc, &mut store, (words, NEW, 0, line))?;
        expect(&rt, alloc, &mut store, (&["check"], "", 3, FAULT))?;
        expect(&rt, alloc, &mut store, (&["export", "t"], "", 0, rows))?;
    }
    Ok(())
}

/// The rows that stand in slot `b`, while slot `a` still has the files of the row before.
const MIDDLE: &str = "b,1\nd,2\nb,4\n";

/// The first so many files are new, and those behind them are as before.
fn expect_new_files(rt: &impl Abort, store: &MemStore, count: usize) {
    for place in 0..NEW_FILES.len() {
        let (name, new) = NEW_FILES[place];
        let before = if place == 3 {
            b"MNOWb\x03\0\0\0\0\0\0\0".as_slice()
        } else {
            OLD_FILES[place].1
        };
        let expected = if place < count { new } else { before };
        let found = store.file(name) == Some(expected);
        assert!(rt; found, "{name} of {count} new files");
    }
}

/// An import over both slots, of which so many saves succeed. The one before it makes six calls, and each makes two loads first.
fn saved_in_part(rt: &impl Abort, alloc: Global, saves: u64) -> Result<MemStore, AllocError> {
    let failing = if saves < 4 { saves + 8 } else { 99 };
    let mut store = notes(alloc, &[failing])?;
    let middle = (["import", "t"].as_slice(), MIDDLE, 0, "imported t 3 rows\n");
    expect(rt, alloc, &mut store, middle)?;
    let (status, line) = if saves < 4 {
        (3, FAULT)
    } else {
        (0, "imported t 2 rows\n")
    };
    expect(rt, alloc, &mut store, (&["import", "t"], NEW, status, line))?;
    Ok(store)
}

#[test]
fn the_files_before_a_failed_save_are_new(rt: HostRuntime) -> Result<(), Fail> {
    let alloc = rt.alloc();
    for count in 0..5usize {
        let mut store = saved_in_part(&rt, alloc, count as u64)?;
        expect_new_files(&rt, &store, count);
        let rows = if count < 4 { MIDDLE } else { NEW };
        expect(&rt, alloc, &mut store, (&["export", "t"], "", 0, rows))?;
    }
    Ok(())
}
