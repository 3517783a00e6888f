//! Sources of bytes.

ghost use Rattle.std.specs.Prelude.{◌≡◌, ℕ, ◌+◌, ◌^◌, ◌<◌, ◌≤◌, List, length, Option, is_some, IsErrOf, OnErr, IfOk};
ghost use Rattle.std.specs.Io.{ReadsAtMost};
ghost use Rattle.std.specs.Io.KnownBytes.{ReadConsumes, Consumes, IsAtEnd};
ghost use Rattle.stream_core.specs.Faults.{Rose, HasCause};
ghost use Rattle.stream_core.specs.Calls.{ConsumesSome};

use crate::{Bytes, Failed, List};
use std::alloc::{AllocError, Global};

/// What bytes are read from, as a query's text or a table's.
pub trait Source {
    /// The bytes that are left, where the source tells them.
    ghost left: { Self → Option (List ℕ) };

    /// How many calls have failed.
    ghost faults: { Self → ℕ };

    /// Gives the next bytes, at most as many as `into` holds. `Ok(0)` into a buffer that isn't empty means the end. A call
    /// that failed takes no byte.
    fn read(&mut self, into: &mut [u8]) -> Result<usize, Failed>
        ensures bound { ReadsAtMost result into.new }
        ensures bytes { ReadConsumes (left self.old) (left self.new) result into.new }
        ensures told { is_some (left self.new) ≡ is_some (left self.old) }
        ensures cause { HasCause (faults self.old) (faults self.new) result }
        ensures later { faults self.old ≤ faults self.new }
        ensures calm { IfOk result (λ _. faults self.new ≡ faults self.old) }
        ensures count { faults self.new < 2 ^ 64 };
}

/// Why a text wasn't read.
#[derive(Clone, Copy, Debug, PartialEq, Eq)]
pub enum ReadError {
    /// A read failed.
    Failed,
    /// There are more bytes than the limit.
    TooLong,
    /// Memory was refused.
    Memory,
}

impl From<Failed> for ReadError {
    ghost use Rattle.std.specs.Prelude.{◌≡◌};
    ghost use Rattle.stream_core.specs.declared.reading.ReadError.TheVariants as variant;

    ghost from_gives = { λ _ error. error ≡ variant.Failed };

    fn from(_failed: Failed) -> ReadError {
        ReadError::Failed
    }
}

impl From<AllocError> for ReadError {
    ghost use Rattle.std.specs.Prelude.{◌≡◌};
    ghost use Rattle.stream_core.specs.declared.reading.ReadError.TheVariants as variant;

    ghost from_gives = { λ _ error. error ≡ variant.Memory };

    fn from(_refused: AllocError) -> ReadError {
        ReadError::Memory
    }
}

/// How many bytes are asked for at once.
const PIECE: usize = 4096;

/// Reads to the end of the input, at most `limit` bytes. One byte more is read to see that there are too many, and none
/// after it.
pub fn read_all<I: Source>(alloc: Global, input: &mut I, limit: u64) -> Result<Bytes, ReadError>
    ensures bytes { IfOk result (λ bytes. Consumes (I.left input.old) (I.left input.new) bytes) }
    ensures whole { IfOk result (λ bytes. IsAtEnd (I.left input.new)) }
    ensures short { IfOk result (λ bytes. length bytes ≤ limit) }
    ensures too_long { IsErrOf result ReadError.TooLong → ConsumesSome (I.left input.old) (I.left input.new) (limit + 1) }
    ensures stopped { OnErr result ((count : ℕ) × (count ≤ limit + 1) × ConsumesSome (I.left input.old) (I.left input.new) count) }
    ensures told { is_some (I.left input.new) ≡ is_some (I.left input.old) }
    ensures cause { IsErrOf result ReadError.Failed → Rose (I.faults input.old) (I.faults input.new) }
    ensures failed { IsErrOf result ReadError.Failed → ((count : ℕ) × (count ≤ limit) × ConsumesSome (I.left input.old) (I.left input.new) count) }
    ensures memory { IsErrOf result ReadError.Memory → ((count : ℕ) × (count ≤ limit) × ConsumesSome (I.left input.old) (I.left input.new) count) }
    ensures calm { (IsErrOf result ReadError.Failed → ⊥) → I.faults input.new ≡ I.faults input.old }
    ensures later { I.faults input.old ≤ I.faults input.new }
{
    let mut text = Vec::new(alloc);
    let mut piece = [0u8; PIECE];
    loop {
        let left = limit - text.len() as u64;
        let most = left.min(PIECE as u64 - 1) as usize + 1;
        let count = input.read(&mut piece[..most])?;
        if count == 0 {
            return Ok(List::from_vec(text));
        }
        if count as u64 > left {
            return Err(ReadError::TooLong);
        }
        text.extend_from_slice(&piece[..count])?;
    }
}
