//! Calls of the store, the input and the output that fail.

use crate::worlds::{TEXT, command, example_without, numbers, source};
use std::alloc::{AllocError, Global};
use std::process::Abort;
use std::test::Fail;
use stream_core::MemSink;

/// The calls that fail, by their numbers, and how much the output takes.
#[derive(Clone, Copy, Debug)]
struct Outside {
    load: u64,
    read: u64,
    write: u64,
    room: usize,
}

/// A call that no command makes.
const NEVER: u64 = 99;

/// An outside that does not fail.
const SOUND: Outside = Outside {
    load: NEVER,
    read: NEVER,
    write: NEVER,
    room: 100,
};

/// The status and the output of a query over the example.
fn query_amid(alloc: Global, outside: Outside, text: &str) -> Result<(u8, Vec<u8>), AllocError> {
    let words = [String::from_str(alloc, "query")?];
    let mut store = example_without(alloc, "", &[outside.load])?;
    let mut input = source(alloc, text.as_bytes(), &[outside.read])?;
    let mut out = MemSink::new(alloc, outside.room, numbers(alloc, &[outside.write])?)?;
    command(alloc, &words, &mut store, &mut input, &mut out)
}

/// The query over the example ends with this status, and this much is written.
fn expect_amid(
    rt: &impl Abort,
    alloc: Global,
    outside: Outside,
    text: &str,
    status: u8,
    written: &str,
) -> Result<(), AllocError> {
    let (found, taken) = query_amid(alloc, outside, text)?;
    assert!(rt;
        found == status && taken.as_slice() == written.as_bytes(),
        "{outside:?}, and not {written}"
    );
    Ok(())
}

/// The fourth load, the ninth read and a third write are never made.
#[test]
fn a_call_that_fails_is_a_fault_of_what_was_called(rt: HostRuntime) -> Result<(), Fail> {
    for (outside, status, written) in [
        (Outside { load: 0, ..SOUND }, 3, "fault: store\n"),
        (Outside { load: 1, ..SOUND }, 3, "fault: store\n"),
        (Outside { load: 2, ..SOUND }, 3, "fault: store\n"),
        (Outside { load: 3, ..SOUND }, 0, "90\n"),
        (Outside { read: 0, ..SOUND }, 3, "fault: input\n"),
        (Outside { read: 1, ..SOUND }, 3, "fault: input\n"),
        (Outside { read: 7, ..SOUND }, 3, "fault: input\n"),
        (Outside { read: 8, ..SOUND }, 0, "90\n"),
        (
            Outside {
                write: 0,
                room: 8,
                ..SOUND
            },
            3,
            "",
        ),
        (
            Outside {
                write: 1,
                room: 2,
                ..SOUND
            },
            3,
            "90",
        ),
        (
            Outside {
                load: 1,
                room: 5,
                ..SOUND
            },
            3,
            "fault",
        ),
    ] {
        expect_amid(&rt, rt.alloc(), outside, TEXT, status, written)?;
    }
    Ok(())
}

/// The now file and the file of `a` are the only ones that are loaded.
#[test]
fn a_column_that_is_summed_and_tested_is_loaded_once(rt: HostRuntime) -> Result<(), Fail> {
    let text = "select sum(a) from t where a between 20 and 30";
    for (load, status, line) in [(1, 3, "fault: store\n"), (2, 0, "50\n")] {
        let outside = Outside { load, ..SOUND };
        expect_amid(&rt, rt.alloc(), outside, text, status, line)?;
    }
    Ok(())
}

/// Outputs with room for no byte to eight, over an answer of three bytes and over a fault's line of thirteen.
#[test]
fn an_output_of_little_room_takes_a_prefix(rt: HostRuntime) -> Result<(), Fail> {
    for (load, whole) in [(NEVER, "90\n"), (0, "fault: store\n")] {
        for room in 0..9usize {
            let answered = load == NEVER && room >= whole.len();
            let status = if answered { 0 } else { 3 };
            let written = whole.get(..room).unwrap_or(whole);
            let outside = Outside {
                load,
                room,
                ..SOUND
            };
            expect_amid(&rt, rt.alloc(), outside, TEXT, status, written)?;
        }
    }
    Ok(())
}
