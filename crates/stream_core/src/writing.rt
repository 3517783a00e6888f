//! Sinks of bytes.

ghost use Rattle.std.specs.Prelude.{◌≡◌, ℕ, ◌^◌, ◌<◌, ◌≤◌, List, length, Option, is_some, IfOk, OnOk, OnErr};
ghost use Rattle.std.specs.Io.{WritesAtMost};
ghost use Rattle.std.specs.Io.KnownBytes.{WriteAppends, Appends};
ghost use Rattle.stream_core.specs.Faults.{HasCause};
ghost use Rattle.stream_core.specs.Calls.{AppendsProperPrefix};

use crate::Failed;

/// What bytes are written to, as standard output.
pub trait Sink {
    /// The bytes that were taken, where the sink tells them.
    ghost taken: { Self → Option (List ℕ) };

    /// How many calls have failed.
    ghost faults: { Self → ℕ };

    /// Takes a prefix of the piece, at least one byte of a piece that isn't empty. A call that failed takes nothing.
    fn write(&mut self, piece: &[u8]) -> Result<usize, Failed>
        ensures bound { WritesAtMost result piece.now }
        ensures bytes { WriteAppends (taken self.old) (taken self.new) result piece.now }
        ensures progress { IfOk result (λ count. 0 < length piece.now → 0 < count) }
        ensures told { is_some (taken self.new) ≡ is_some (taken self.old) }
        ensures cause { HasCause (faults self.old) (faults self.new) result }
        ensures later { faults self.old ≤ faults self.new }
        ensures calm { IfOk result (λ _. faults self.new ≡ faults self.old) }
        ensures count { faults self.new < 2 ^ 64 };
}

/// Writes all the bytes, or a proper prefix of them where a write failed.
pub fn write_all<O: Sink>(out: &mut O, bytes: &[u8]) -> Result<(), Failed>
    ensures bytes { OnOk result (Appends (O.taken out.old) (O.taken out.new) bytes.now) }
    ensures prefix { OnErr result (AppendsProperPrefix (O.taken out.old) (O.taken out.new) bytes.now) }
    ensures told { is_some (O.taken out.new) ≡ is_some (O.taken out.old) }
    ensures cause { HasCause (O.faults out.old) (O.faults out.new) result }
    ensures calm { OnOk result (O.faults out.new ≡ O.faults out.old) }
    ensures later { O.faults out.old ≤ O.faults out.new }
{
    let mut start = 0;
    while start < bytes.len() {
        start += out.write(&bytes[start..])?;
    }
    Ok(())
}
