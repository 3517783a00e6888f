//! Opening over stores in memory: what opens, each refusal with its file, and which of two comes first.

ghost use Rattle.std.specs.Prelude.{◌<◌, IfOk};
ghost use Rattle.catalog_core.specs.LawfulSchemas.{IsSchema};

use crate::stores::{
    LONG_NOW, OTHER_SLOT, SCHEMA, SHORT_NOW, column_bytes, database, dictionary_bytes, now_bytes,
    with_files,
};
use block_core::Format;
use catalog_core::{ColumnId, Needs, Schema, SchemaError, read_schema};
use database_core::{OpenError, open_for};
use std::alloc::{AllocError, Global};
use std::process::Abort;
use std::test::Fail;
use stream_core::{List, MemStore, Store};
use table_core::Tables;

/// What an opening answers: `open`, or the refusal with its file or its table. Want of memory is no answer.
fn answer_of(alloc: Global, opened: &Result<Tables, OpenError>) -> Result<String, AllocError> {
    match opened {
        Ok(_) => String::from_str(alloc, "open"),
        Err(OpenError::Store) => String::from_str(alloc, "store"),
        Err(OpenError::TooLong { file }) => format!(in alloc; "{}: too long", file.as_str()),
        Err(OpenError::NoFile { file }) => format!(in alloc; "{}: no file", file.as_str()),
        Err(OpenError::BadNow { table }) => format!(in alloc; "table {table}: bad now"),
        Err(OpenError::Column { file, error }) => {
            format!(in alloc; "{}: {error:?}", file.as_str())
        }
        Err(OpenError::Length { file }) => format!(in alloc; "{}: length", file.as_str()),
        Err(OpenError::Dict { file, error }) => format!(in alloc; "{}: {error:?}", file.as_str()),
        Err(OpenError::BadCode { file }) => format!(in alloc; "{}: bad code", file.as_str()),
        Err(OpenError::RepeatedKey { table }) => format!(in alloc; "table {table}: repeated key"),
        Err(OpenError::Memory) => Err(AllocError),
    }
}

/// The schema of a text.
fn schema_of(rt: &impl Abort, alloc: Global, text: &str) -> Result<Schema, AllocError>
    ensures { IfOk result IsSchema }
{
    match read_schema(alloc, text.as_bytes()) {
        Ok(schema) => Ok(schema),
        Err(SchemaError::Memory) => Err(AllocError),
        Err(_) => panic!(rt; "the schema is refused"),
    }
}

/// All of the database is opened, with this answer.
fn expect_answer<S: Store>(
    rt: &impl Abort,
    alloc: Global,
    store: &mut S,
    answer: &str,
) -> Result<(), AllocError> {
    let schema = schema_of(rt, alloc, SCHEMA)?;
    let needs = Needs::of_all(alloc, &schema)?;
    let found = answer_of(alloc, &open_for(alloc, store, &schema, &needs))?;
    assert!(rt;
        found.as_str() == answer,
        "{} and not {answer}",
        found.as_str()
    );
    Ok(())
}

/// Only this table is opened, with this answer.
fn expect_table<S: Store>(
    rt: &impl Abort,
    alloc: Global,
    store: &mut S,
    table: u32,
    answer: &str,
) -> Result<(), AllocError>
    requires { table < 2 }
{
    let schema = schema_of(rt, alloc, SCHEMA)?;
    assert!(rt; schema.tables.as_slice().len() == 2, "two tables");
    let needs = Needs::of_table(alloc, &schema, table)?;
    let found = answer_of(alloc, &open_for(alloc, store, &schema, &needs))?;
    assert!(rt;
        found.as_str() == answer,
        "{} and not {answer}",
        found.as_str()
    );
    Ok(())
}

#[test]
fn a_database_opens_in_either_slot(rt: HostRuntime) -> Result<(), Fail> {
    let alloc = rt.alloc();
    let schema = schema_of(&rt, alloc, SCHEMA)?;
    let needs = Needs::of_all(alloc, &schema)?;
    for letter in [b'a', b'b'] {
        let mut store = database(alloc, letter, &[])?;
        let tables = match open_for(alloc, &mut store, &schema, &needs) {
            Ok(tables) => tables,
            Err(OpenError::Memory) => return Ok(Err(AllocError)?),
            Err(_) => panic!(&rt; "it does not open"),
        };
        assert_eq!(rt; tables.rows(0), Some(3));
        assert_eq!(rt; tables.rows(1), Some(2));
        for (table, column, texts) in [(0, 0, 0), (0, 1, 2), (1, 0, 0), (1, 1, 2)] {
            let id = ColumnId { table, column };
            let count = tables.column(id).map_or(0, |held| held.count());
            assert_eq!(rt; Some(count), tables.rows(table), "column {table}.{column}");
            let held = tables.dictionary(id).map_or(0, |held| held.count());
            assert_eq!(rt; held, texts, "texts of {table}.{column}");
        }
        let word = ColumnId {
            table: 0,
            column: 1,
        };
        let Some(words) = tables.dictionary(word) else {
            panic!(&rt; "no texts");
        };
        assert!(rt;
            words.text(1) == Some(b"a".as_slice()),
            "the text of code 1"
        );
    }
    Ok(())
}

#[test]
fn each_fault_is_answered_with_its_file(rt: HostRuntime) -> Result<(), Fail> {
    let alloc = rt.alloc();
    let short = column_bytes(alloc, &[1, 2], Format::Plain)?;
    let above = column_bytes(alloc, &[0, 1, 2], Format::Plain)?;
    let equal = column_bytes(alloc, &[4, 4], Format::Plain)?;
    let above_and_short = column_bytes(alloc, &[5, 5], Format::Plain)?;
    let long = column_bytes(alloc, &[4, 4, 4, 4], Format::Plain)?;
    let falling = dictionary_bytes(alloc, &[b"b", b"a"])?;
    for (name, bytes, answer) in [
        ("s.now", SHORT_NOW, "table 0: bad now"),
        ("s.now", LONG_NOW, "table 0: bad now"),
        ("s.now", OTHER_SLOT, "table 0: bad now"),
        ("d.now", b"".as_slice(), "table 1: bad now"),
        (
            "s.now",
            b"MNOWb\x03\0\0\0\0\0\0\0".as_slice(),
            "s.b.amount.col: no file",
        ),
        (
            "s.a.amount.col",
            b"MCOL".as_slice(),
            "s.a.amount.col: BadHeader",
        ),
        ("s.a.amount.col", short.as_slice(), "s.a.amount.col: length"),
        (
            "s.a.word.dic",
            b"MDIC".as_slice(),
            "s.a.word.dic: BadHeader",
        ),
        (
            "s.a.word.dic",
            falling.as_slice(),
            "s.a.word.dic: BadEntry { entry: 1 }",
        ),
        ("s.a.word.col", above.as_slice(), "s.a.word.col: bad code"),
        (
            "s.a.word.col",
            above_and_short.as_slice(),
            "s.a.word.col: length",
        ),
        ("s.a.amount.col", long.as_slice(), "s.a.amount.col: length"),
        ("d.a.k.col", long.as_slice(), "d.a.k.col: length"),
        ("d.a.k.col", equal.as_slice(), "table 1: repeated key"),
        // A key may be any number, and the fact table has none.
        ("s.a.amount.col", above.as_slice(), "open"),
    ] {
        let mut store = with_files(alloc, &[(name, bytes)])?;
        expect_answer(&rt, alloc, &mut store, answer)?;
    }
    Ok(())
}

#[test]
fn the_first_of_two_faults_is_answered(rt: HostRuntime) -> Result<(), Fail> {
    let alloc = rt.alloc();
    let short = column_bytes(alloc, &[1, 1], Format::Plain)?;
    let above = column_bytes(alloc, &[0, 1, 2], Format::Plain)?;
    let equal = column_bytes(alloc, &[4, 4], Format::Plain)?;
    let code_above = column_bytes(alloc, &[0, 2], Format::Plain)?;
    let bad = b"?".as_slice();
    for (first, second, answer) in [
        (("s.now", bad), ("s.a.amount.col", bad), "table 0: bad now"),
        (
            ("s.a.amount.col", bad),
            ("s.a.word.col", bad),
            "s.a.amount.col: BadHeader",
        ),
        (
            ("s.a.amount.col", short.as_slice()),
            ("s.a.word.col", bad),
            "s.a.amount.col: length",
        ),
        (
            ("s.a.word.col", bad),
            ("s.a.word.dic", bad),
            "s.a.word.col: BadHeader",
        ),
        (
            ("s.a.word.col", short.as_slice()),
            ("s.a.word.dic", bad),
            "s.a.word.col: length",
        ),
        (
            ("s.a.word.dic", bad),
            ("s.a.word.col", above.as_slice()),
            "s.a.word.dic: BadHeader",
        ),
        (
            ("s.a.word.col", above.as_slice()),
            ("d.now", bad),
            "s.a.word.col: bad code",
        ),
        (("d.now", bad), ("d.a.k.col", bad), "table 1: bad now"),
        (
            ("d.a.n.dic", bad),
            ("d.a.k.col", equal.as_slice()),
            "d.a.n.dic: BadHeader",
        ),
        (
            ("d.a.n.col", code_above.as_slice()),
            ("d.a.k.col", equal.as_slice()),
            "d.a.n.col: bad code",
        ),
    ] {
        let mut store = with_files(alloc, &[first, second])?;
        expect_answer(&rt, alloc, &mut store, answer)?;
    }
    Ok(())
}

#[test]
fn each_of_the_eight_loads_may_fail(rt: HostRuntime) -> Result<(), Fail> {
    let alloc = rt.alloc();
    for load in 0..8u64 {
        let mut store = database(alloc, b'a', &[load])?;
        expect_answer(&rt, alloc, &mut store, "store")?;
    }
    let mut store = database(alloc, b'a', &[8])?;
    expect_answer(&rt, alloc, &mut store, "open")?;
    Ok(())
}

#[test]
fn what_is_not_needed_is_not_loaded(rt: HostRuntime) -> Result<(), Fail> {
    let alloc = rt.alloc();
    let equal = column_bytes(alloc, &[4, 4], Format::Plain)?;
    let bad = b"?".as_slice();
    let mut store = with_files(
        alloc,
        &[
            ("d.now", bad),
            ("d.a.n.col", bad),
            ("d.a.k.col", equal.as_slice()),
        ],
    )?;
    expect_table(&rt, alloc, &mut store, 0, "open")?;
    expect_table(&rt, alloc, &mut store, 1, "table 1: bad now")?;
    let mut other = with_files(alloc, &[("s.now", bad), ("s.a.word.dic", bad)])?;
    expect_table(&rt, alloc, &mut other, 1, "open")?;
    expect_table(&rt, alloc, &mut other, 0, "table 0: bad now")?;
    Ok(())
}

#[test]
fn a_file_that_is_not_there_is_named(rt: HostRuntime) -> Result<(), Fail> {
    let alloc = rt.alloc();
    let mut store = MemStore::new(alloc, List::from_vec(Vec::new(alloc)));
    expect_answer(&rt, alloc, &mut store, "s.now: no file")?;
    store.put(alloc, "s.now", &now_bytes(b'a', 0))?;
    expect_answer(&rt, alloc, &mut store, "s.a.amount.col: no file")?;
    let empty = column_bytes(alloc, &[], Format::Plain)?;
    store.put(alloc, "s.a.amount.col", empty.as_slice())?;
    expect_answer(&rt, alloc, &mut store, "s.a.word.col: no file")?;
    store.put(alloc, "s.a.word.col", empty.as_slice())?;
    expect_answer(&rt, alloc, &mut store, "s.a.word.dic: no file")?;
    let none = dictionary_bytes(alloc, &[])?;
    store.put(alloc, "s.a.word.dic", none.as_slice())?;
    expect_answer(&rt, alloc, &mut store, "d.now: no file")?;
    Ok(())
}

/// The files in the order in which they are loaded, and what is said of each if it is the byte `?`.
const LOADED: [(&str, &str); 8] = [
    ("s.now", "table 0: bad now"),
    ("s.a.amount.col", "s.a.amount.col: BadHeader"),
    ("s.a.word.col", "s.a.word.col: BadHeader"),
    ("s.a.word.dic", "s.a.word.dic: BadHeader"),
    ("d.now", "table 1: bad now"),
    ("d.a.k.col", "d.a.k.col: BadHeader"),
    ("d.a.n.col", "d.a.n.col: BadHeader"),
    ("d.a.n.dic", "d.a.n.dic: BadHeader"),
];

// A file is judged before the next one is loaded. No clause says so, since a store keeps no list of its calls.
#[test]
fn a_bad_file_is_named_though_the_next_load_fails(rt: HostRuntime) -> Result<(), Fail> {
    let alloc = rt.alloc();
    for place in 0..LOADED.len() {
        let (name, answer) = LOADED[place];
        let mut store = database(alloc, b'a', &[place as u64 + 1])?;
        store.put(alloc, name, b"?")?;
        expect_answer(&rt, alloc, &mut store, answer)?;
    }
    Ok(())
}

/// Two dimensions.
const TWO_KEYS: &str = r#"
[[table]]
name = "d"
role = "dimension"
key = "k"
column = [ { name = "k", kind = "number" } ]

[[table]]
name = "e"
role = "dimension"
key = "j"
column = [ { name = "j", kind = "number" } ]
"#;

#[test]
fn the_keys_of_a_table_are_tested_before_the_next_table(rt: HostRuntime) -> Result<(), Fail> {
    let alloc = rt.alloc();
    let schema = schema_of(&rt, alloc, TWO_KEYS)?;
    let needs = Needs::of_all(alloc, &schema)?;
    let equal = column_bytes(alloc, &[4, 4], Format::Plain)?;
    let mut store = MemStore::new(alloc, List::from_vec(Vec::new(alloc)));
    store.put(alloc, "d.now", &now_bytes(b'a', 2))?;
    store.put(alloc, "d.a.k.col", equal.as_slice())?;
    store.put(alloc, "e.now", b"?")?;
    let found = answer_of(alloc, &open_for(alloc, &mut store, &schema, &needs))?;
    assert!(rt;
        found.as_str() == "table 0: repeated key",
        "{}",
        found.as_str()
    );
    Ok(())
}
