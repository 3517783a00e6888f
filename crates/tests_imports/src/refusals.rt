//! Texts and tables that are refused. The rows that stood before stand still.

use crate::folders::{STAR, database, expect, expect_all};
use std::test::Fail;

/// A text and a number, with a byte behind each row.
const BARS: &str = r#"
[[table]]
name = "t"
role = "fact"
separator = "|"
trailing = true
column = [{ name = "a", kind = "number" }, { name = "x", kind = "text" }]
"#;

#[test]
fn the_first_fault_of_a_text_is_named(rt: HostRuntime) -> Result<(), Fail> {
    let alloc = rt.alloc();
    let mut store = database(alloc, BARS, &[])?;
    expect(
        &rt,
        alloc,
        &mut store,
        (&["import", "t"], "1|2|\n3|4|\n", 0, "imported t 2 rows\n"),
    )?;
    for (text, line) in [
        ("1|2|x\n", "import: row 1: 3 fields\n"),
        ("1|2||\n", "import: row 1: 4 fields\n"),
        ("1\n", "import: row 1: 1 fields\n"),
        ("-2|1\n", "import: row 1 field 1: bad number\n"),
        ("|1\n", "import: row 1 field 1: bad number\n"),
        ("1 |1\n", "import: row 1 field 1: bad number\n"),
        ("+1|1\n", "import: row 1 field 1: bad number\n"),
        (
            "18446744073709551616|1\n",
            "import: row 1 field 1: bad number\n",
        ),
        ("000000000000000000001|1\n2\n", "import: row 2: 1 fields\n"),
        ("1|a\n\n2|b\nx|c\n", "import: row 3 field 1: bad number\n"),
        ("1|2\n1|2|3\nx|4\n", "import: row 2: 3 fields\n"),
    ] {
        expect(&rt, alloc, &mut store, (&["import", "t"], text, 7, line))?;
    }
    expect(
        &rt,
        alloc,
        &mut store,
        (&["export", "t"], "", 0, "1|2\n3|4\n"),
    )?;
    Ok(())
}

#[test]
fn a_key_that_repeats_is_refused_unless_it_may(rt: HostRuntime) -> Result<(), Fail> {
    let alloc = rt.alloc();
    let rows = "4,1993\n5,1994\n4,1995\n";
    let mut store = database(alloc, STAR, &[])?;
    let refused = (
        ["import", "date"].as_slice(),
        rows,
        7,
        "import: row 3: repeated key\n",
    );
    expect(&rt, alloc, &mut store, refused)?;
    let repeats = STAR.replace(alloc, "key =", "repeats = true, key =")?;
    let mut store = database(alloc, repeats.as_str(), &[])?;
    let imported = (
        ["import", "date"].as_slice(),
        rows,
        0,
        "imported date 3 rows\n",
    );
    expect(&rt, alloc, &mut store, imported)?;
    Ok(())
}

#[test]
fn a_table_that_is_not_there_is_refused(rt: HostRuntime) -> Result<(), Fail> {
    let alloc = rt.alloc();
    let mut store = database(alloc, STAR, &[])?;
    let none = "database: no such table\n";
    let empty = "database: date.now: no file\n";
    let steps = [
        (["import", "dates"].as_slice(), "1,2\n", 4, none),
        (&["export", ""], "", 4, none),
        (&["reformat", "-"], "", 4, none),
        (&["export", "date"], "", 4, empty),
        (&["reformat", "date"], "", 4, empty),
    ];
    expect_all(&rt, alloc, &mut store, &steps)?;
    let mut store = database(alloc, "[[table]]", &[])?;
    let shape = (
        ["import", "t"].as_slice(),
        "",
        4,
        "database: schema.toml: shape 1 0\n",
    );
    expect(&rt, alloc, &mut store, shape)?;
    Ok(())
}

/// A text of 65,535 bytes is taken, and one byte more is not. Bytes that are not UTF-8 are none.
#[test]
fn texts_that_are_too_long_or_no_utf8_are_refused(rt: HostRuntime) -> Result<(), Fail> {
    let alloc = rt.alloc();
    let mut store = database(alloc, BARS, &[])?;
    for (count, byte, status, line) in [
        (65_535, b'a', 0, "imported t 1 rows\n"),
        (65_536, b'a', 7, "import: row 1 field 2: text too long\n"),
        (65_536, 0xff, 7, "import: row 1 field 2: bad text\n"),
        (1, 0xff, 7, "import: row 1 field 2: bad text\n"),
    ] {
        let mut text = Vec::from_slice(alloc, b"1|")?;
        text.resize(count + 2, byte)?;
        let (found, taken) = crate::folders::answer(
            alloc,
            &mut store,
            &["import", "t"],
            text.as_slice(),
            100,
        )?;
        assert!(&rt;
            found == status && taken.as_slice() == line.as_bytes(),
            "{count} times {byte}"
        );
    }
    Ok(())
}
