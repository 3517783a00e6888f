//! Queries that have an answer.

use crate::worlds::{
    TEXT, answers, column_bytes, example_with, expect, first_bytes, joined, now_file,
};
use block_core::Format;
use std::alloc::{AllocError, Global};
use std::process::Abort;
use std::test::Fail;

#[test]
fn a_query_sums_the_rows_in_the_range(rt: HostRuntime) -> Result<(), Fail> {
    let mut store = example_with(rt.alloc(), &[])?;
    for (text, answer) in [
        (TEXT, "90\n"),
        ("select sum(a) from t where b between 7 and 3", "NULL\n"),
        ("select sum(a) from t where b between 0 and 100", "150\n"),
        ("select sum(a) from t", "150\n"),
        ("SELECT SUM(b) FROM t \n", "25\n"),
        ("select sum(a) from t where b between 8 and 8", "50\n"),
        ("select sum(b) from t where a between 10 and 10", "2\n"),
        ("select sum(a) from t where a between 20 and 30", "50\n"),
        (
            "\t SELECT\nSum(A)From T\r\nwhere B between 003 and 7 ",
            "90\n",
        ),
        (
            "select sum(a)from t where b between 0 and 18446744073709551615",
            "150\n",
        ),
    ] {
        expect(&rt, rt.alloc(), &mut store, text, 0, answer)?;
    }
    Ok(())
}

/// The sum of two rows is this.
fn expect_sum(
    rt: &impl Abort,
    alloc: Global,
    values: [u64; 2],
    status: u8,
    line: &str,
) -> Result<(), AllocError> {
    let a = column_bytes(alloc, &values, Format::Static)?;
    let b = column_bytes(alloc, &[1, 1], Format::Runs)?;
    let mut store = example_with(
        alloc,
        &[
            ("t.now", &now_file(2)),
            ("t.a.a.col", a.as_slice()),
            ("t.a.b.col", b.as_slice()),
        ],
    )?;
    let text = "select sum(a) from t where b between 0 and 9";
    expect(rt, alloc, &mut store, text, status, line)
}

#[test]
fn a_sum_is_answered_up_to_the_greatest_word(rt: HostRuntime) -> Result<(), Fail> {
    let too_wide = "sum 1 operand 1 group 1: too wide\n";
    expect_sum(&rt, rt.alloc(), [u64::MAX, 1], 5, too_wide)?;
    expect_sum(&rt, rt.alloc(), [u64::MAX, 0], 0, "18446744073709551615\n")?;
    Ok(())
}

#[test]
fn an_empty_table_and_the_other_slot_are_read(rt: HostRuntime) -> Result<(), Fail> {
    let alloc = rt.alloc();
    let text = "select sum(a) from t where b between 0 and 9";
    let empty = column_bytes(alloc, &[], Format::Plain)?;
    let one = column_bytes(alloc, &[9], Format::Delta1Runs)?;
    let mut store = example_with(
        alloc,
        &[
            ("t.now", &now_file(0)),
            ("t.a.a.col", empty.as_slice()),
            ("t.a.b.col", empty.as_slice()),
            ("t.b.a.col", one.as_slice()),
            ("t.b.b.col", one.as_slice()),
        ],
    )?;
    expect(&rt, alloc, &mut store, text, 0, "NULL\n")?;
    store.put(alloc, "t.now", b"MNOWb\x01\0\0\0\0\0\0\0")?;
    expect(&rt, alloc, &mut store, text, 0, "9\n")?;
    Ok(())
}

/// The example's sum is the same over files of both versions in this format.
fn expect_sum_in(rt: &impl Abort, alloc: Global, format: Format) -> Result<(), AllocError> {
    let old_a = first_bytes(alloc, &[10, 20, 30, 40, 50], format)?;
    let old_b = first_bytes(alloc, &[2, 3, 5, 7, 8], format)?;
    let a = column_bytes(alloc, &[10, 20, 30, 40, 50], format)?;
    let b = column_bytes(alloc, &[2, 3, 5, 7, 8], format)?;
    for (case, a, b) in [
        ("both of version 2", &a, &b),
        ("both of version 1", &old_a, &old_b),
        ("a of version 1", &old_a, &b),
        ("b of version 1", &a, &old_b),
    ] {
        let files = [("t.a.a.col", a.as_slice()), ("t.a.b.col", b.as_slice())];
        let mut store = example_with(alloc, &files)?;
        let answered = answers(alloc, &mut store, TEXT, 0, "90\n")?;
        assert!(rt; answered, "{format:?}, {case}");
    }
    Ok(())
}

#[test]
fn columns_of_every_format_and_version_give_the_same_answer(rt: HostRuntime) -> Result<(), Fail> {
    for format in Format::ALL {
        expect_sum_in(&rt, rt.alloc(), format)?;
    }
    Ok(())
}

/// 2,051 rows: 1,024 times 0, 1,024 times 1, and then 5, 0, 7, in the format `dynamic`. In version 1 there is no directory, and
/// the tail is words.
#[test]
fn whole_blocks_of_both_versions_are_summed(rt: HostRuntime) -> Result<(), Fail> {
    let alloc = rt.alloc();
    let ones = [0xff; 128];
    let first = joined(
        alloc,
        b"MCOL\x01\x02\0\0\x03\x08\0\0\0\0\0\0\0\x01",
        &ones,
        b"\x05\0\0\0\0\0\0\0\0\0\0\0\0\0\0\0\x07\0\0\0\0\0\0\0",
    )?;
    let second = joined(
        alloc,
        b"MCOL\x02\x02\0\x03\x03\x08\0\0\0\0\0\0\x20\0\0\0\0\0\0\0\x21\0\0\0\0\0\0\0\0\x01",
        &ones,
        b"\xc5\x01",
    )?;
    for (case, a, b) in [
        ("both of version 2", &second, &second),
        ("both of version 1", &first, &first),
        ("a of version 1", &first, &second),
        ("b of version 1", &second, &first),
    ] {
        let files = [
            ("t.now", b"MNOWa\x03\x08\0\0\0\0\0\0".as_slice()),
            ("t.a.a.col", a.as_slice()),
            ("t.a.b.col", b.as_slice()),
        ];
        let mut store = example_with(alloc, &files)?;
        let text = "select sum(a) from t where b between 1 and 5";
        let answered = answers(alloc, &mut store, text, 0, "1029\n")?;
        assert!(rt; answered, "{case}");
    }
    Ok(())
}

/// 2,049 rows: `a` is the row's number, in this format, and `b` is 1 in each third row, in the other format.
fn expect_sums_of_blocks(
    rt: &impl Abort,
    alloc: Global,
    numbers: (Format, &[u64]),
    thirds: (Format, &[u64]),
) -> Result<(), AllocError> {
    let a = column_bytes(alloc, numbers.1, numbers.0)?;
    let b = column_bytes(alloc, thirds.1, thirds.0)?;
    let mut store = example_with(
        alloc,
        &[
            ("t.now", b"MNOWa\x01\x08\0\0\0\0\0\0"),
            ("t.a.a.col", a.as_slice()),
            ("t.a.b.col", b.as_slice()),
        ],
    )?;
    for (text, line) in [
        ("select sum(a) from t", "2098176\n"),
        ("select sum(a) from t where b between 1 and 1", "698709\n"),
        ("select sum(b) from t where a between 1023 and 1025", "1\n"),
        (
            "select sum(a) from t where a between 2048 and 2048",
            "2048\n",
        ),
    ] {
        let answered = answers(alloc, &mut store, text, 0, line)?;
        assert!(rt; answered, "{text} over {:?}, and not {line}", numbers.0);
    }
    Ok(())
}

#[test]
fn whole_blocks_of_every_format_are_summed(rt: HostRuntime) -> Result<(), Fail> {
    let mut numbers = Vec::new(rt.alloc());
    let mut thirds = Vec::new(rt.alloc());
    for row in 0..2049u64 {
        numbers.push(row)?;
        thirds.push(u64::from(row % 3 == 0))?;
    }
    for (format, other) in Format::ALL.iter().zip(Format::ALL.iter().rev()) {
        let numbers = (*format, numbers.as_slice());
        let thirds = (*other, thirds.as_slice());
        expect_sums_of_blocks(&rt, rt.alloc(), numbers, thirds)?;
    }
    Ok(())
}
