//! Loads that fail behind a refusal: what is refused is judged before anything more is loaded.
//!
//! No clause says so, since a store keeps no list of its calls. The next command is the one that meets the load that fails.

use crate::folders::{STAR, Step, database, expect, expect_all};
use crate::notes::{NOTES, OLD, notes};
use std::alloc::{AllocError, Global};
use std::process::Abort;
use std::test::Fail;

const FAULT: &str = "fault: store\n";

/// An import is refused behind the schema, although the load of the now file would fail.
fn expect_refused_text(
    rt: &impl Abort,
    alloc: Global,
    schema: &str,
    refused: Step,
) -> Result<(), AllocError> {
    let mut store = database(alloc, schema, &[1])?;
    expect(rt, alloc, &mut store, refused)?;
    expect(rt, alloc, &mut store, (&["check"], "", 3, FAULT))
}

#[test]
fn a_text_is_refused_though_the_next_load_fails(rt: HostRuntime) -> Result<(), Fail> {
    let notes = ["import", "t"].as_slice();
    let date = ["import", "date"].as_slice();
    for (schema, words, text, line) in [
        (NOTES, notes, "b,1\nd\n", "import: row 2: 1 fields\n"),
        (NOTES, notes, "b,1,\n", "import: row 1: 3 fields\n"),
        (NOTES, notes, "b,x\n", "import: row 1 field 2: bad number\n"),
        (STAR, date, "4,1\n4,2\n", "import: row 2: repeated key\n"),
    ] {
        expect_refused_text(&rt, rt.alloc(), schema, (words, text, 7, line))?;
    }
    Ok(())
}

/// The files of the table in the order in which they are loaded behind the schema, what is said of each if it is the byte `?`, and the
/// number of the next load.
const LOADED: [(&str, &str, u64); 4] = [
    ("t.now", "database: t.now: bad now\n", 2),
    ("t.a.x.col", "database: t.a.x.col: bad header\n", 3),
    ("t.a.x.dic", "database: t.a.x.dic: bad header\n", 4),
    ("t.a.v.col", "database: t.a.v.col: bad header\n", 5),
];

/// The command is refused for its damaged file, although the next load would fail.
fn expect_refused_file(
    rt: &impl Abort,
    alloc: Global,
    name: &str,
    next: u64,
    refused: Step,
) -> Result<(), AllocError> {
    let mut store = notes(alloc, &[next])?;
    store.put(alloc, name, b"?")?;
    expect(rt, alloc, &mut store, refused)?;
    expect(rt, alloc, &mut store, (&["check"], "", 3, FAULT))
}

#[test]
fn a_damaged_table_is_refused_though_the_next_load_fails(rt: HostRuntime) -> Result<(), Fail> {
    for words in [["reformat", "t"].as_slice(), &["export", "t"]] {
        for (name, line, next) in LOADED {
            expect_refused_file(&rt, rt.alloc(), name, next, (words, "", 4, line))?;
        }
    }
    Ok(())
}

/// Keys are tested before the now file is loaded again for the save. The import makes five calls, and four loads follow.
#[test]
fn a_repeated_key_is_refused_though_the_next_load_fails(rt: HostRuntime) -> Result<(), Fail> {
    let alloc = rt.alloc();
    let repeats = STAR.replace(alloc, "key =", "repeats = true, key =")?;
    let mut store = database(alloc, repeats.as_str(), &[9])?;
    let imported = (
        ["import", "date"].as_slice(),
        "4,1\n4,2\n",
        0,
        "imported date 2 rows\n",
    );
    expect(&rt, alloc, &mut store, imported)?;
    store.put(alloc, "schema.toml", STAR.as_bytes())?;
    let steps = [
        (
            ["reformat", "date"].as_slice(),
            "",
            4,
            "database: date: repeated key\n",
        ),
        (&["check"], "", 3, FAULT),
    ];
    expect_all(&rt, alloc, &mut store, &steps)?;
    Ok(())
}

/// An export loads the schema and four files. A sixth load is never made.
#[test]
fn each_failed_load_of_an_export_is_a_fault(rt: HostRuntime) -> Result<(), Fail> {
    let alloc = rt.alloc();
    for load in 0..6u64 {
        let mut store = notes(alloc, &[load])?;
        let (status, written) = if load < 5 { (3, FAULT) } else { (0, OLD) };
        expect(
            &rt,
            alloc,
            &mut store,
            (&["export", "t"], "", status, written),
        )?;
    }
    Ok(())
}
