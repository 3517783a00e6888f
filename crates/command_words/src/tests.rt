//! What words denote, by lines whose words stand between single spaces. So two spaces have the empty word between them.

use crate::{Command, DemoOptions, QueryOptions, WordsError, command_of, help_text};
use std::alloc::{AllocError, Global};

/// The words of a line.
fn words_of(alloc: Global, line: &str) -> Result<Vec<String>, AllocError> {
    let mut words = Vec::new(alloc);
    for word in line.split(' ') {
        words.push(String::from_str(alloc, word)?)?;
    }
    Ok(words)
}

fn query(
    lanes: u8,
    strategy: Option<&'static str>,
    trace: bool,
    dump: Option<u64>,
) -> Command<'static> {
    Command::Query(QueryOptions {
        lanes,
        strategy,
        trace,
        dump,
    })
}

fn demo(lanes: u8, strategy: Option<&'static str>, seed: u64, rows: u64) -> Command<'static> {
    Command::Demo(DemoOptions {
        lanes,
        strategy,
        seed,
        rows,
    })
}

#[test]
fn lines_are_commands(rt: HostRuntime) {
    let name = "a123456789b123456789c123456789_";
    for (line, command) in [
        ("import sales", Command::Import { table: "sales" }),
        ("import -", Command::Import { table: "-" }),
        ("import ", Command::Import { table: "" }),
        ("import morphq", Command::Import { table: "morphq" }),
        ("import -- --trace", Command::Import { table: "--trace" }),
        ("-- import --", Command::Import { table: "--" }),
        ("export help", Command::Export { table: "help" }),
        ("export -- -h", Command::Export { table: "-h" }),
        ("reformat Sales!", Command::Reformat { table: "Sales!" }),
        ("check", Command::Check),
        ("check --", Command::Check),
        ("explain", Command::Explain),
        ("help", Command::Help),
        ("query", query(8, None, false, None)),
        ("--trace query", query(8, None, true, None)),
        ("query --lanes 1 --dump 1", query(1, None, false, Some(1))),
        ("query --lanes=2", query(2, None, false, None)),
        ("--lanes 4 query", query(4, None, false, None)),
        ("query --lanes +8", query(8, None, false, None)),
        ("query --lanes 016", query(16, None, false, None)),
        (
            "query --dump=18446744073709551615",
            query(8, None, false, Some(18446744073709551615)),
        ),
        (
            "--strategy fast --dump 3 query --trace --lanes 16",
            query(16, Some("fast"), true, Some(3)),
        ),
        (
            "query --strategy=a123456789b123456789c123456789_",
            query(8, Some(name), false, None),
        ),
        ("demo", demo(8, None, 1, 1000)),
        ("demo --seed 0 --rows 0", demo(8, None, 0, 0)),
        (
            "demo --rows=1000000 --seed=18446744073709551615",
            demo(8, None, 18446744073709551615, 1000000),
        ),
        (
            "--rows 7 demo --lanes 2 --strategy by_7 --seed +007",
            demo(2, Some("by_7"), 7, 7),
        ),
    ] {
        let words = words_of(rt.alloc(), line).expect(&rt, "memory");
        let answer = command_of(rt.alloc(), words.as_slice());
        assert!(rt; answer == Ok(command), "{line}");
    }
}

#[test]
fn lines_are_no_command(rt: HostRuntime) {
    for line in [
        "",
        "-",
        "--",
        "morphq",
        "morphq check",
        "Check",
        "append t",
        "import",
        "export --",
        "import a b",
        "import a b c",
        "import a --trace",
        "export a --lanes 8",
        "reformat a --strategy b",
        "check a",
        "check ",
        "check -- -",
        "check --trace",
        "explain --lanes 8",
        "help check",
        "help --dump 1",
        "query a",
        "query --seed 1",
        "query --rows 1",
        "demo a",
        "demo --trace",
        "demo --dump 1",
        "--help",
        "-h",
        "query --help",
        "query -h",
        "--version",
        "-V",
        "query -t",
        "query --trace=true",
        "query --trace --trace",
        "query --trac",
        "query --frob 1",
        "query --lanes",
        "query --lanes --trace",
        "query --lanes -- 8",
        "query --lanes 8 --lanes 8",
        "query --lanes=8 --lanes 8",
        "query --lanes 0",
        "query --lanes 3",
        "query --lanes 32",
        "query --lanes 264",
        "query --lanes -1",
        "query --lanes -",
        "query --lanes ",
        "query --lanes=",
        "query --lanes +",
        "query --lanes ++8",
        "query --lanes 8.0",
        "query --lanes 0x8",
        "query --dump 0",
        "query --dump -1",
        "query --dump 18446744073709551616",
        "demo --seed 18446744073709551616",
        "demo --seed a",
        "demo --rows 1000001",
        "query --strategy",
        "query --strategy ",
        "query --strategy=",
        "query --strategy -",
        "query --strategy a123456789b123456789c123456789_1",
        "query --strategy select",
        "query --strategy Fast",
        "query --strategy a.b",
        "query --strategy 1a",
        "query --strategy _a",
        "demo --strategy by",
        "demo --strategy a --strategy b",
    ] {
        let words = words_of(rt.alloc(), line).expect(&rt, "memory");
        let answer = command_of(rt.alloc(), words.as_slice());
        assert!(rt; answer == Err(WordsError::Usage), "{line}");
    }
}

#[test]
fn no_words_are_no_command(rt: HostRuntime) {
    let words: Vec<String> = Vec::new(rt.alloc());
    assert!(rt; command_of(rt.alloc(), words.as_slice()) == Err(WordsError::Usage));
}

#[test]
fn help_has_a_line_for_each_command(rt: HostRuntime) {
    assert!(rt; help_text().lines().count() == 8);
    assert!(rt; help_text().ends_with("morphq help\n"));
}
