//! Outputs that are closed at each byte.

use crate::folders::answer;
use crate::notes::{NEW, OLD, notes};
use std::alloc::{AllocError, Global};
use std::process::Abort;
use std::test::Fail;

/// The table's rows stand where they stood.
const BEFORE: &[u8] = b"MNOWa\x01\0\0\0\0\0\0\0";

/// The command writes this text. Into an output of less room it writes the front of it, and the now file is this one.
fn expect_cut(
    rt: &impl Abort,
    alloc: Global,
    words: &[&str],
    text: &str,
    whole: &str,
    now: &[u8],
) -> Result<(), AllocError> {
    for room in 0..whole.len() {
        let mut store = notes(alloc, &[])?;
        let (status, taken) = answer(alloc, &mut store, words, text.as_bytes(), room)?;
        let cut = status == 3 && taken.as_slice() == &whole.as_bytes()[..room];
        let stands = store.file("t.now") == Some(now);
        assert!(rt; cut && stands, "{words:?} of {text} and {room} bytes");
    }
    Ok(())
}

/// What was saved stays saved, although the line that says so is cut off. A refusal that is cut off saves nothing.
#[test]
fn an_output_of_little_room_takes_the_front(rt: HostRuntime) -> Result<(), Fail> {
    let imported = b"MNOWb\x02\0\0\0\0\0\0\0".as_slice();
    let reformatted = b"MNOWb\x01\0\0\0\0\0\0\0".as_slice();
    for (words, text, whole, now) in [
        (
            ["import", "t"].as_slice(),
            NEW,
            "imported t 2 rows\n",
            imported,
        ),
        (
            ["import", "t"].as_slice(),
            "b\n",
            "import: row 1: 1 fields\n",
            BEFORE,
        ),
        (["export", "t"].as_slice(), "", OLD, BEFORE),
        (
            ["reformat", "t"].as_slice(),
            "",
            "reformatted t 1 rows\n",
            reformatted,
        ),
    ] {
        expect_cut(&rt, rt.alloc(), words, text, whole, now)?;
    }
    Ok(())
}
