//! Reads, loads and writes that fail.

use crate::folders::{answer, expect, expect_explained, folder, source};
use crate::stars::TWO_FACTS;
use std::alloc::{AllocError, Global};
use std::process::Abort;
use std::test::Fail;

const TEXT: &str = "select sum(s_price) from sales";

const LINE: &str = "o1 c1 = sum s_price\n";

const FAULT: &str = "fault: store\n";

/// The thirty bytes are read in five pieces, and a sixth read finds the end. A seventh is never made. The schema is not even looked for
/// where a read failed.
#[test]
fn each_failed_read_is_a_fault(rt: HostRuntime) -> Result<(), Fail> {
    let alloc = rt.alloc();
    for read in 0..7u64 {
        let mut store = folder(alloc, Some(TWO_FACTS), &[])?;
        let mut input = source(alloc, TEXT.as_bytes(), &[read])?;
        let expected = if read < 6 {
            (3, "fault: input\n")
        } else {
            (0, LINE)
        };
        expect(&rt, alloc, &mut store, &["explain"], &mut input, expected)?;
    }
    let mut store = folder(alloc, Some(TWO_FACTS), &[0])?;
    let mut input = source(alloc, TEXT.as_bytes(), &[5])?;
    expect(
        &rt,
        alloc,
        &mut store,
        &["explain"],
        &mut input,
        (3, "fault: input\n"),
    )?;
    Ok(())
}

/// The schema is loaded once. A text that is refused is refused although that load would fail: the next command meets the failure.
#[test]
fn the_schema_alone_is_loaded_and_only_behind_a_query(rt: HostRuntime) -> Result<(), Fail> {
    let alloc = rt.alloc();
    let mut broken = folder(alloc, Some(TWO_FACTS), &[0])?;
    expect_explained(
        &rt,
        alloc,
        &mut broken,
        "select",
        (1, "query: syntax at 6\n"),
    )?;
    expect_explained(
        &rt,
        alloc,
        &mut broken,
        "select 'a",
        (1, "query: open string at 7\n"),
    )?;
    expect_explained(&rt, alloc, &mut broken, TEXT, (3, FAULT))?;
    expect_explained(&rt, alloc, &mut broken, TEXT, (0, LINE))?;
    let mut store = folder(alloc, Some(TWO_FACTS), &[1, 3])?;
    expect_explained(&rt, alloc, &mut store, TEXT, (0, LINE))?;
    expect_explained(&rt, alloc, &mut store, TEXT, (3, FAULT))?;
    expect_explained(
        &rt,
        alloc,
        &mut store,
        "select x from nowhere",
        (1, "query: unknown table at 14\n"),
    )?;
    expect_explained(&rt, alloc, &mut store, TEXT, (3, FAULT))?;
    let kept = store.file("schema.toml") == Some(TWO_FACTS.as_bytes());
    assert!(&rt; kept, "the schema file changed");
    Ok(())
}

/// Into an output of less room the front of the text is written.
fn expect_cut(rt: &impl Abort, alloc: Global, text: &str, whole: &str) -> Result<(), AllocError> {
    for room in 0..whole.len() {
        let mut store = folder(alloc, Some(TWO_FACTS), &[])?;
        let mut input = source(alloc, text.as_bytes(), &[])?;
        let (status, taken) = answer(alloc, &mut store, &["explain"], &mut input, room)?;
        let cut = status == 3 && taken.as_slice() == &whole.as_bytes()[..room];
        assert!(rt; cut, "{text} and {room} bytes");
    }
    Ok(())
}

#[test]
fn an_output_of_little_room_takes_the_front(rt: HostRuntime) -> Result<(), Fail> {
    for (text, whole) in [
        (TEXT, LINE),
        (
            "select sum(s_price) from sales, days where s_day = d_key",
            "o1 c1 = semijoin s_day d_key\no2 c2 = project s_price c1\no3 c3 = sum c2\n",
        ),
        ("select", "query: syntax at 6\n"),
        ("select x from nowhere", "query: unknown table at 14\n"),
    ] {
        expect_cut(&rt, rt.alloc(), text, whole)?;
    }
    Ok(())
}
