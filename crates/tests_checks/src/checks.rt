//! `check` over whole databases, good and damaged.

use crate::databases::{
    LINES, SCHEMA, check, column_bytes, database_amid, database_with, dictionary_bytes,
    expect_check, now_file, numbers, source,
};
use block_core::Format;
use engine_tool::run;
use std::alloc::{AllocError, Global};
use std::process::Abort;
use std::test::Fail;
use stream_core::{Bytes, List, LoadError, MemSink, MemStore, SaveError, Store};

#[test]
fn every_table_and_column_is_printed(rt: HostRuntime) -> Result<(), Fail> {
    let mut store = database_with(rt.alloc(), &[])?;
    expect_check(&rt, rt.alloc(), &mut store, 0, LINES)?;
    Ok(())
}

const STAR: &str = r#"
table = [
  { name = "lineorder", role = "fact", column = [
    { name = "lo_orderdate", kind = "number" }, { name = "lo_quantity", kind = "number" },
    { name = "lo_discount", kind = "number" }, { name = "lo_extendedprice", kind = "number" } ] },
  { name = "date", role = "dimension", key = "d_datekey", column = [
    { name = "d_datekey", kind = "number" }, { name = "d_year", kind = "number" } ] },
]
"#;

/// The files of a fact table of four rows and a dimension of two.
fn star(alloc: Global) -> Result<MemStore, AllocError> {
    let mut store = MemStore::new(alloc, numbers(alloc, &[])?);
    store.put(alloc, "schema.toml", STAR.as_bytes())?;
    store.put(alloc, "lineorder.now", &now_file(4))?;
    for (name, values) in [
        (
            "lineorder.a.lo_orderdate.col",
            [19930101u64, 19930101, 19930101, 19940101],
        ),
        ("lineorder.a.lo_quantity.col", [10, 24, 25, 5]),
        ("lineorder.a.lo_discount.col", [2, 3, 1, 2]),
        ("lineorder.a.lo_extendedprice.col", [1000, 500, 700, 900]),
    ] {
        let bytes = column_bytes(alloc, &values, Format::Plain)?;
        store.put(alloc, name, bytes.as_slice())?;
    }
    store.put(alloc, "date.now", &now_file(2))?;
    let keys = column_bytes(alloc, &[19930101, 19940101], Format::Plain)?;
    store.put(alloc, "date.a.d_datekey.col", keys.as_slice())?;
    let years = column_bytes(alloc, &[1993, 1994], Format::Plain)?;
    store.put(alloc, "date.a.d_year.col", years.as_slice())?;
    Ok(store)
}

#[test]
fn a_star_is_printed_in_the_order_of_its_schema(rt: HostRuntime) -> Result<(), Fail> {
    let mut store = star(rt.alloc())?;
    let lines = "lineorder 4\nlineorder.lo_orderdate plain 48\nlineorder.lo_quantity plain 48\n\
        lineorder.lo_discount plain 48\nlineorder.lo_extendedprice plain 48\n\
        date 2\ndate.d_datekey plain 32\ndate.d_year plain 32\n";
    expect_check(&rt, rt.alloc(), &mut store, 0, lines)?;
    Ok(())
}

/// A file of the database as these bytes is refused with this, and stays as it is.
fn damaged(
    rt: &impl Abort,
    alloc: Global,
    name: &str,
    bytes: &[u8],
    what: &str,
) -> Result<(), AllocError> {
    let mut store = database_with(alloc, &[(name, bytes)])?;
    let line = format!(in alloc; "database: {what}\n")?;
    let (status, written) = check(alloc, &mut store, 400)?;
    let refused = status == 4 && written.as_slice() == line.as_bytes();
    let kept = store.file(name) == Some(bytes);
    assert!(rt; refused && kept, "{name} and not {what}");
    Ok(())
}

#[test]
fn each_damage_is_named_by_file_cause_and_place(rt: HostRuntime) -> Result<(), Fail> {
    for (name, bytes, what) in [
        ("s.now", b"MNOW".as_slice(), "s.now: bad now"),
        (
            "s.now",
            b"MNOWb\x03\0\0\0\0\0\0\0",
            "s.b.amount.col: no file",
        ),
        ("s.a.amount.col", b"MCOL", "s.a.amount.col: bad header"),
        (
            "s.a.amount.col",
            b"MCOL\x02\x02\0\0\0\x04\0\0\0\0\0\0\x19\0\0\0\0\0\0\0\0",
            "s.a.amount.col: bad directory 0",
        ),
        (
            "s.a.amount.col",
            b"MCOL\x02\x02\0\0\0\x04\0\0\0\0\0\0\x18\0\0\0\0\0\0\0\x41",
            "s.a.amount.col: bad block 0",
        ),
        (
            "s.a.amount.col",
            b"MCOL\x02\x01\x02\0\x03\0\0\0\0\0\0\0",
            "s.a.amount.col: bad width",
        ),
        (
            "s.a.amount.col",
            b"MCOL\x02\0\0\x40\x03\0\0\0\0\0\0\0",
            "s.a.amount.col: bad tail",
        ),
        (
            "s.a.amount.col",
            b"MCOL\x02\0\0\x40\0\0\0\0\0\0\0\0",
            "s.a.amount.col: length",
        ),
        ("s.a.word.dic", b"MDIC", "s.a.word.dic: bad header"),
        (
            "s.a.word.dic",
            b"MDIC\x01\0\0\0\x01\0\0\0\0\0\0\0\x01\0\0\0\xff",
            "s.a.word.dic: bad entry 0",
        ),
        (
            "s.a.word.dic",
            b"MDIC\x01\0\0\0\x01\0\0\0\0\0\0\0\x01\0\0\0ab",
            "s.a.word.dic: trailing",
        ),
        (
            "s.a.word.dic",
            b"MDIC\x01\0\0\0\x01\0\0\0\0\0\0\0\x01\0\0\0a",
            "s.a.word.col: bad code",
        ),
        (
            "d.a.k.col",
            b"MCOL\x02\x01\0\x03\x02\0\0\0\0\0\0\0\x24",
            "d: repeated key",
        ),
    ] {
        damaged(&rt, rt.alloc(), name, bytes, what)?;
    }
    Ok(())
}

/// Two files are damaged, and the one that is opened first is named.
#[test]
fn the_first_of_two_damaged_files_is_named(rt: HostRuntime) -> Result<(), Fail> {
    for (first, later, what) in [
        ("schema.toml", "s.now", "schema.toml: bad toml"),
        ("s.now", "s.a.amount.col", "s.now: bad now"),
        (
            "s.a.amount.col",
            "s.a.word.col",
            "s.a.amount.col: bad header",
        ),
        ("s.a.word.col", "s.a.word.dic", "s.a.word.col: bad header"),
        ("s.a.word.dic", "d.now", "s.a.word.dic: bad header"),
        ("d.now", "d.a.k.col", "d.now: bad now"),
        ("d.a.k.col", "d.a.n.col", "d.a.k.col: bad header"),
        ("d.a.n.col", "d.a.n.dic", "d.a.n.col: bad header"),
    ] {
        let damage = [(first, b"[[".as_slice()), (later, b"[[")];
        let mut store = database_with(rt.alloc(), &damage)?;
        let line = format!(in rt.alloc(); "database: {what}\n")?;
        expect_check(&rt, rt.alloc(), &mut store, 4, line.as_str())?;
    }
    Ok(())
}

/// The keys of a table are tested after its columns, and not at all if they may repeat.
#[test]
fn keys_are_tested_last_and_only_if_they_may_not_repeat(rt: HostRuntime) -> Result<(), Fail> {
    let alloc = rt.alloc();
    let equal = column_bytes(alloc, &[4, 4], Format::Plain)?;
    let damage = [("d.a.k.col", equal.as_slice()), ("d.a.n.dic", b"MDIC")];
    let mut store = database_with(alloc, &damage)?;
    expect_check(
        &rt,
        alloc,
        &mut store,
        4,
        "database: d.a.n.dic: bad header\n",
    )?;
    let repeats = SCHEMA.replace(alloc, "key = \"k\"", "key = \"k\"\nrepeats = true")?;
    let files = [
        ("d.a.k.col", equal.as_slice()),
        ("schema.toml", repeats.as_bytes()),
    ];
    let mut store = database_with(alloc, &files)?;
    expect_check(&rt, alloc, &mut store, 0, LINES)?;
    Ok(())
}

/// The database has nine files, and each is loaded once. A tenth load is never made.
#[test]
fn each_failed_load_is_a_fault_of_the_store(rt: HostRuntime) -> Result<(), Fail> {
    for load in 0..10u64 {
        let mut store = database_amid(rt.alloc(), &[load])?;
        let (status, text) = if load < 9 {
            (3, "fault: store\n")
        } else {
            (0, LINES)
        };
        expect_check(&rt, rt.alloc(), &mut store, status, text)?;
    }
    Ok(())
}

/// The lines are cut off at each byte.
#[test]
fn an_output_of_little_room_takes_the_front_of_the_lines(rt: HostRuntime) -> Result<(), Fail> {
    for room in 0..LINES.len() {
        let mut store = database_with(rt.alloc(), &[])?;
        let (status, written) = check(rt.alloc(), &mut store, room)?;
        let cut = status == 3 && written.as_slice() == &LINES.as_bytes()[..room];
        assert!(&rt; cut, "{room} bytes");
    }
    Ok(())
}

#[test]
fn a_missing_schema_or_dictionary_is_named(rt: HostRuntime) -> Result<(), Fail> {
    let alloc = rt.alloc();
    let mut empty = MemStore::new(alloc, numbers(alloc, &[])?);
    expect_check(
        &rt,
        alloc,
        &mut empty,
        4,
        "database: schema.toml: no file\n",
    )?;
    let three = column_bytes(alloc, &[0, 0, 0], Format::Plain)?;
    let mut store = database_with(
        alloc,
        &[
            ("s.now", b"MNOWb\x03\0\0\0\0\0\0\0"),
            ("s.b.amount.col", three.as_slice()),
            ("s.b.word.col", three.as_slice()),
        ],
    )?;
    expect_check(
        &rt,
        alloc,
        &mut store,
        4,
        "database: s.b.word.dic: no file\n",
    )?;
    Ok(())
}

#[test]
fn tables_without_rows_are_printed(rt: HostRuntime) -> Result<(), Fail> {
    let alloc = rt.alloc();
    let none = column_bytes(alloc, &[], Format::Plain)?;
    let texts = dictionary_bytes(alloc, 0, &[])?;
    let mut store = database_with(
        alloc,
        &[
            ("s.now", &now_file(0)),
            ("s.a.amount.col", none.as_slice()),
            ("s.a.word.col", none.as_slice()),
            ("s.a.word.dic", texts.as_slice()),
        ],
    )?;
    let lines = "s 0\ns.amount plain 16\ns.word plain 16\nd 2\nd.k plain 32\nd.n static 17\n";
    expect_check(&rt, alloc, &mut store, 0, lines)?;
    Ok(())
}

/// A store that tells nothing. Its schema is that of the example, its now files say three rows, and its dictionaries have more bytes
/// than any limit, or its columns have.
#[derive(Drop)]
struct HugeFiles {
    columns: bool,
}

impl Store for HugeFiles {
    ghost use Rattle.std.specs.Prelude.{None};

    ghost files = { λ _. None };

    ghost faults = { λ _. 0 };

    fn load(&mut self, alloc: Global, name: &str, _limit: u64) -> Result<Option<Bytes>, LoadError> {
        if name == "schema.toml" {
            let bytes = Vec::from_slice(alloc, SCHEMA.as_bytes())?;
            return Ok(Some(List::from_vec(bytes)));
        }
        if name.ends_with(".now") {
            let bytes = Vec::from_slice(alloc, &now_file(3))?;
            return Ok(Some(List::from_vec(bytes)));
        }
        if name.ends_with(".col") && !self.columns {
            let bytes = column_bytes(alloc, &[0, 0, 0], Format::Plain)?;
            return Ok(Some(List::from_vec(bytes)));
        }
        Err(LoadError::TooLong)
    }

    fn save(&mut self, _alloc: Global, _name: &str, _bytes: &[u8]) -> Result<(), SaveError> {
        Err(SaveError::Memory)
    }
}

#[test]
fn a_column_or_dictionary_file_that_is_too_long_is_named(rt: HostRuntime) -> Result<(), Fail> {
    let alloc = rt.alloc();
    let words = [String::from_str(alloc, "check")?];
    for (columns, line) in [
        (true, b"database: s.a.amount.col: too long\n".as_slice()),
        (false, b"database: s.a.word.dic: too long\n"),
    ] {
        let mut store = HugeFiles { columns };
        let mut input = source(alloc, b"left unread", &[])?;
        let mut out = MemSink::new(alloc, 100, numbers(alloc, &[])?)?;
        let status = run(alloc, &words, &mut store, &mut input, &mut out);
        assert!(&rt; status == 4 && out.taken() == line, "{columns}: {status}");
    }
    Ok(())
}
