//! A reader as a source.

ghost use Rattle.std.specs.Prelude.{◌≡◌, ◌^◌, ◌<◌, ◌≤◌, IfOk};
ghost use Rattle.std.specs.Io.{ReadsAtMost};
ghost use Rattle.std.specs.Io.KnownBytes.{ReadConsumes};
ghost use Rattle.stream_core.specs.Faults.{HasCause};

use std::io::Read;
use std::marker::Model;
use stream_core::{Failed, Source};

/// A reader as a source, as standard input or an open file.
#[derive(Drop)]
pub struct StdSource<I: Read> {
    input: I,
    faults: u64,
}

impl<I: Read> Model for StdSource<I> {
    ghost use Rattle.host_edge.specs.Adapters.{ReaderState};

    ghost Value = { ReaderState };

    ghost view = { λ s. record { left = I.remaining s.input; faults = s.faults } };
}

impl<I: Read> StdSource<I> {
    pub fn new(input: I) -> StdSource<I>
        ensures { result ≡ record { left = I.remaining input; faults = 0 } }
    {
        StdSource { input, faults: 0 }
    }
}

impl<I: Read> Source for StdSource<I> {
    ghost use Rattle.std.specs.Prelude.{None};

    ghost left = { λ _. None };

    ghost faults = { λ source. source.faults };

    // The reader's own bytes are a clause of their own: nothing says that a reader whose bytes are unknown keeps them so, as
    // a source that tells its content must.
    fn read(&mut self, into: &mut [u8]) -> Result<usize, Failed>
        ensures bound { ReadsAtMost result into.new }
        ensures cause { HasCause self.old.faults self.new.faults result }
        ensures later { self.old.faults ≤ self.new.faults }
        ensures calm { IfOk result (λ _. self.new.faults ≡ self.old.faults) }
        ensures count { self.new.faults < 2 ^ 64 }
        ensures handed { ReadConsumes self.old.left self.new.left result into.new }
    {
        let faults = self.faults;
        match self.input.read(into) {
            Ok(count) => Ok(count),
            Err(_) => {
                self.faults = faults.saturating_add(1);
                Err(Failed)
            }
        }
    }
}
