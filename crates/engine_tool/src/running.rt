//! The top call.

ghost use Rattle.std.specs.Prelude.{◌≡◌, map, string_bytes};
ghost use Rattle.engine_tool.specs.Commands.{command_in};
ghost use Rattle.engine_tool.specs.Promises.{Inside, Promises};
ghost use Rattle.engine_tool.specs.Ends.{outside, IsWritten};

use crate::replies::reply;
use std::alloc::Global;
use stream_core::{Bytes, Failed, Sink, Source, Store, write_all};
use table_commands::Stop;

/// The status of a failed call.
const FAULT: u8 = 3;

/// Writes an answer or a stop's line, and gives the exit status.
fn respond<O: Sink>(out: &mut O, end: Result<Bytes, Stop>) -> u8
    ensures { (before after : Inside) → IsWritten end (record { inside = before; output = O.taken out.old; output_faults = O.faults out.old })
        (record { inside = after; output = O.taken out.new; output_faults = O.faults out.new }) result }
{
    let (status, written) = match end {
        Ok(text) => (0, write_all(out, text.as_slice())),
        Err(stop) => (
            stop.status(),
            write_all(out, stop.line().as_str().as_bytes()),
        ),
    };
    match written {
        Ok(()) => status,
        Err(Failed) => FAULT,
    }
}

/// Does what the words say, over the files of `store`, with the text of `input`, and writes the answer or one line that
/// says why there is none to `out`. The result is the exit status: 0 if the whole answer was taken, 1 if the text is
/// no query, 2 if the words are no command, 3 after a call that failed, 4 if the database or the table that is named does not
/// open, 5 if a sum is too wide, 6 if memory was refused, and 7 if the text of an import is refused.
pub fn run<S: Store, I: Source, O: Sink>(
    alloc: Global,
    words: &[String],
    store: &mut S,
    input: &mut I,
    out: &mut O,
) -> u8
    ensures promises { Promises (command_in (map string_bytes words.now))
        (outside (S.files store.old) (S.faults store.old) (I.left input.old) (I.faults input.old) (O.taken out.old) (O.faults out.old))
        (outside (S.files store.new) (S.faults store.new) (I.left input.new) (I.faults input.new) (O.taken out.new) (O.faults out.new)) result }
{
    let end = reply(alloc, words, store, input);
    respond(out, end)
}
