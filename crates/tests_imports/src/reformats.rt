//! Tables that are saved again in the formats of the schema.

use crate::folders::{DATES, FACTS, STAR, database, expect, expect_all};
use std::test::Fail;

#[test]
fn a_column_takes_the_format_of_the_schema(rt: HostRuntime) -> Result<(), Fail> {
    let alloc = rt.alloc();
    let mut store = database(alloc, STAR, &[])?;
    expect(
        &rt,
        alloc,
        &mut store,
        (&["import", "date"], DATES, 0, "imported date 2 rows\n"),
    )?;
    let runs = STAR.replace(
        alloc,
        "\"d_year\", kind",
        "\"d_year\", format = \"runs\", kind",
    )?;
    store.put(alloc, "schema.toml", runs.as_bytes())?;
    expect(
        &rt,
        alloc,
        &mut store,
        (&["reformat", "date"], "", 0, "reformatted date 2 rows\n"),
    )?;
    let file = b"MCOL\x02\x03\0\x0b\x02\0\0\0\0\0\0\0\xc9\x57\x3e";
    assert!(&rt;
        store.file("date.b.d_year.col") == Some(file.as_slice()),
        "the file of d_year"
    );
    expect(&rt, alloc, &mut store, (&["export", "date"], "", 0, DATES))?;
    Ok(())
}

/// The files of the first version are written anew as files of the second.
#[test]
fn files_of_the_first_version_are_migrated(rt: HostRuntime) -> Result<(), Fail> {
    let alloc = rt.alloc();
    let mut store = database(alloc, STAR, &[])?;
    store.put(alloc, "date.now", b"MNOWb\x01\0\0\0\0\0\0\0")?;
    let head = b"MCOL\x01\0\0\0\x01\0\0\0\0\0\0\0\x07\0\0\0\0\0\0\0";
    store.put(alloc, "date.b.d_datekey.col", head)?;
    store.put(alloc, "date.b.d_year.col", head)?;
    let steps = [
        (
            ["reformat", "date"].as_slice(),
            "",
            0,
            "reformatted date 1 rows\n",
        ),
        (&["export", "date"], "", 0, "7,7\n"),
    ];
    expect_all(&rt, alloc, &mut store, &steps)?;
    let migrated = b"MCOL\x02\0\0\x40\x01\0\0\0\0\0\0\0\x07\0\0\0\0\0\0\0";
    assert!(&rt;
        store.file("date.a.d_year.col") == Some(migrated.as_slice()),
        "the file of d_year"
    );
    assert!(&rt;
        store.file("date.now") == Some(b"MNOWa\x01\0\0\0\0\0\0\0".as_slice()),
        "the now file"
    );
    Ok(())
}

/// With `auto` each column takes the format of its shortest file, in an import and when it is saved again.
#[test]
fn auto_takes_the_shortest_file(rt: HostRuntime) -> Result<(), Fail> {
    let alloc = rt.alloc();
    let auto = STAR.replace(
        alloc,
        "kind = \"number\"",
        "kind = \"number\", format = \"auto\"",
    )?;
    let mut store = database(alloc, STAR, &[])?;
    let lines = "lineorder 4\nlineorder.lo_orderdate static 29\nlineorder.lo_quantity static 19\n\
        lineorder.lo_discount static 17\nlineorder.lo_extendedprice static 21\n\
        date 2\ndate.d_datekey static 23\ndate.d_year static 19\n";
    let steps = [
        (
            ["import", "date"].as_slice(),
            DATES,
            0,
            "imported date 2 rows\n",
        ),
        (
            &["import", "lineorder"],
            FACTS,
            0,
            "imported lineorder 4 rows\n",
        ),
    ];
    expect_all(&rt, alloc, &mut store, &steps)?;
    store.put(alloc, "schema.toml", auto.as_bytes())?;
    let steps = [
        (
            ["reformat", "date"].as_slice(),
            "",
            0,
            "reformatted date 2 rows\n",
        ),
        (
            &["import", "lineorder"],
            FACTS,
            0,
            "imported lineorder 4 rows\n",
        ),
        (&["check"], "", 0, lines),
        (&["export", "lineorder"], "", 0, FACTS),
    ];
    expect_all(&rt, alloc, &mut store, &steps)?;
    Ok(())
}
