//! A writer as a sink.

ghost use Rattle.std.specs.Prelude.{◌≡◌, ◌^◌, ◌<◌, ◌≤◌, length, IfOk};
ghost use Rattle.std.specs.Io.{WritesAtMost};
ghost use Rattle.std.specs.Io.KnownBytes.{WriteAppends};
ghost use Rattle.stream_core.specs.Faults.{HasCause};

use std::io::Write;
use std::marker::Model;
use stream_core::{Failed, Sink};

/// A writer as a sink, as standard output.
#[derive(Drop)]
pub struct StdSink<O: Write> {
    out: O,
    faults: u64,
}

impl<O: Write> Model for StdSink<O> {
    ghost use Rattle.host_edge.specs.Adapters.{WriterState};

    ghost Value = { WriterState };

    ghost view = { λ s. record { held = O.contents s.out; faults = s.faults } };
}

impl<O: Write> StdSink<O> {
    pub fn new(out: O) -> StdSink<O>
        ensures { result ≡ record { held = O.contents out; faults = 0 } }
    {
        StdSink { out, faults: 0 }
    }
}

impl<O: Write> Sink for StdSink<O> {
    ghost use Rattle.std.specs.Prelude.{None};

    ghost taken = { λ _. None };

    ghost faults = { λ sink. sink.faults };

    // A write that takes nothing of a piece would never end, so it is a fault.
    fn write(&mut self, piece: &[u8]) -> Result<usize, Failed>
        ensures bound { WritesAtMost result piece.now }
        ensures progress { IfOk result (λ count. 0 < length piece.now → 0 < count) }
        ensures cause { HasCause self.old.faults self.new.faults result }
        ensures later { self.old.faults ≤ self.new.faults }
        ensures calm { IfOk result (λ _. self.new.faults ≡ self.old.faults) }
        ensures count { self.new.faults < 2 ^ 64 }
        ensures handed { WriteAppends self.old.held self.new.held result piece.now }
    {
        let faults = self.faults;
        match self.out.write(piece) {
            Ok(count) if count > 0 || piece.is_empty() => Ok(count),
            _ => {
                self.faults = faults.saturating_add(1);
                Err(Failed)
            }
        }
    }
}
