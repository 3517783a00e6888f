//! Texts that are imported, and what comes out again.

use crate::folders::{DATES, FACTS, STAR, answer, database, expect, expect_all};
use std::alloc::{AllocError, Global};
use std::process::Abort;
use std::test::Fail;

#[test]
fn a_star_is_imported_checked_summed_and_exported(rt: HostRuntime) -> Result<(), Fail> {
    let alloc = rt.alloc();
    let mut store = database(alloc, STAR, &[])?;
    let lines = "lineorder 4\nlineorder.lo_orderdate plain 48\nlineorder.lo_quantity plain 48\n\
        lineorder.lo_discount plain 48\nlineorder.lo_extendedprice plain 48\n\
        date 2\ndate.d_datekey plain 32\ndate.d_year plain 32\n";
    let sum = "select sum(lo_extendedprice) from lineorder where lo_discount between 2 and 3";
    let steps = [
        (
            ["import", "date"].as_slice(),
            DATES,
            0,
            "imported date 2 rows\n",
        ),
        (
            &["import", "lineorder"],
            FACTS,
            0,
            "imported lineorder 4 rows\n",
        ),
        (&["check"], "", 0, lines),
        (&["query"], sum, 0, "2400\n"),
        (&["export", "date"], "", 0, DATES),
        (&["export", "lineorder"], "", 0, FACTS),
        (&["import", "date"], "1,2\n", 0, "imported date 1 rows\n"),
        (&["export", "date"], "", 0, "1,2\n"),
    ];
    expect_all(&rt, alloc, &mut store, &steps)?;
    Ok(())
}

/// A table of a text and a number, whose texts are read as these lines say.
fn schema_with(alloc: Global, lines: &str) -> Result<String, AllocError> {
    format!(in alloc;
        "[[table]]\nname = \"t\"\nrole = \"fact\"\n{lines}\n\
        column = [{{ name = \"x\", kind = \"text\" }}, {{ name = \"v\", kind = \"number\", format = \"auto\" }}]\n"
    )
}

/// What is imported comes out as this text, which imports as the same rows.
fn expect_rows(
    rt: &impl Abort,
    alloc: Global,
    lines: &str,
    text: &str,
    exported: &str,
) -> Result<(), AllocError> {
    let schema = schema_with(alloc, lines)?;
    let mut store = database(alloc, schema.as_str(), &[])?;
    for given in [text, exported] {
        let (status, _) = answer(alloc, &mut store, &["import", "t"], given.as_bytes(), 1000)?;
        assert!(rt; status == 0, "{given}");
        expect(rt, alloc, &mut store, (&["export", "t"], "", 0, exported))?;
    }
    Ok(())
}

#[test]
fn an_exported_text_imports_as_the_same_rows(rt: HostRuntime) -> Result<(), Fail> {
    for (lines, text, exported) in [
        ("", "b,1\nd,2\nb,4\n", "b,1\nd,2\nb,4\n"),
        ("", "b,1\nd,2", "b,1\nd,2\n"),
        ("", "b,1\r\nd,002\r\r\n\n", "b,1\nd,2\n"),
        ("", "\u{feff}b,1\n", "b,1\n"),
        ("", "", ""),
        (
            "",
            ",0\n\"\",18446744073709551615\n",
            ",0\n,18446744073709551615\n",
        ),
        (
            "",
            "\"a,b\",1\n\"a\nb\",2\n\"a\"\"b\",3\n",
            "\"a,b\",1\n\"a\nb\",2\n\"a\"\"b\",3\n",
        ),
        ("", "\u{e9},1\nz,2\n", "\u{e9},1\nz,2\n"),
        (
            "separator = \"|\"\ntrailing = true",
            "a|1|\nb|2\n",
            "a|1\nb|2\n",
        ),
        (
            "separator = \"\\t\"\nheader = true",
            "p\tq\na\t1\n",
            "x\tv\na\t1\n",
        ),
        ("header = true", "x,v\n", "x,v\n"),
        ("header = true", "", "x,v\n"),
        (
            "separator = \";\"\nheader = true\ntrailing = true",
            "x;v;\na,b;1;\n",
            "x;v\na,b;1\n",
        ),
    ] {
        expect_rows(&rt, rt.alloc(), lines, text, exported)?;
    }
    Ok(())
}

#[test]
fn the_commands_are_listed(rt: HostRuntime) -> Result<(), Fail> {
    let alloc = rt.alloc();
    let mut store = database(alloc, STAR, &[0])?;
    let lines = "morphq import TABLE\nmorphq export TABLE\nmorphq reformat TABLE\nmorphq check\n\
        morphq explain\nmorphq query [--lanes N] [--strategy NAME] [--trace] [--dump N]\n\
        morphq demo [--lanes N] [--strategy NAME] [--seed N] [--rows N]\nmorphq help\n";
    let usage = "usage: see morphq help\n";
    let steps = [
        (["help"].as_slice(), "", 0, lines),
        (&["help", "me"], "", 2, usage),
        (&["import"], "", 2, usage),
        (&["import", "a", "b"], "", 2, usage),
        (&["check", "date"], "", 2, usage),
        (&["explain", "me"], "", 2, usage),
        (&["demo"], "", 2, usage),
        (&["query", "--trace"], "", 2, usage),
        (&[], "", 2, usage),
    ];
    expect_all(&rt, alloc, &mut store, &steps)?;
    Ok(())
}
