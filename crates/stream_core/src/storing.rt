//! Stores of files.

ghost use Rattle.std.specs.Prelude.{◌≡◌, ℕ, ◌^◌, ◌<◌, ◌≤◌, Option, IsErrOf};
ghost use Rattle.stream_core.specs.Files.{Files};
ghost use Rattle.stream_core.specs.Faults.{Rose};
ghost use Rattle.stream_core.specs.Stores.{IsLoaded, IsSaved};

use crate::Bytes;
use std::alloc::{AllocError, Global};

/// Why a file wasn't loaded.
#[derive(Clone, Copy, Debug, PartialEq, Eq)]
pub enum LoadError {
    /// The store failed.
    Failed,
    /// The file has more bytes than the limit.
    TooLong,
    /// Memory was refused.
    Memory,
}

impl From<AllocError> for LoadError {
    ghost use Rattle.std.specs.Prelude.{◌≡◌};
    ghost use Rattle.stream_core.specs.declared.storing.LoadError.TheVariants as variant;

    ghost from_gives = { λ _ error. error ≡ variant.Memory };

    fn from(_refused: AllocError) -> LoadError {
        LoadError::Memory
    }
}

/// Why a file wasn't saved.
#[derive(Clone, Copy, Debug, PartialEq, Eq)]
pub enum SaveError {
    /// The store failed. Any bytes may stand under the file's name, or no file.
    Failed,
    /// Memory was refused, and nothing changed.
    Memory,
}

impl From<AllocError> for SaveError {
    ghost use Rattle.std.specs.Prelude.{◌≡◌};
    ghost use Rattle.stream_core.specs.declared.storing.SaveError.TheVariants as variant;

    ghost from_gives = { λ _ error. error ≡ variant.Memory };

    fn from(_refused: AllocError) -> SaveError {
        SaveError::Memory
    }
}

/// Files by name, as a folder's.
pub trait Store {
    /// The files, where the store tells them.
    ghost files: { Self → Option Files };

    /// How many calls have failed.
    ghost faults: { Self → ℕ };

    /// The file's bytes, or nothing where there is no such file. A file of more than `limit` bytes is refused.
    fn load(&mut self, alloc: Global, name: &str, limit: u64) -> Result<Option<Bytes>, LoadError>
        ensures loaded { IsLoaded (files self.old) name.now limit result }
        ensures unchanged { files self.new ≡ files self.old }
        ensures calm { (IsErrOf result LoadError.Failed → ⊥) → faults self.new ≡ faults self.old }
        ensures cause { IsErrOf result LoadError.Failed → Rose (faults self.old) (faults self.new) }
        ensures later { faults self.old ≤ faults self.new }
        ensures count { faults self.new < 2 ^ 64 };

    /// Replaces the file, or makes it, and changes no other.
    fn save(&mut self, alloc: Global, name: &str, bytes: &[u8]) -> Result<(), SaveError>
        ensures saved { IsSaved (files self.old) (files self.new) name.now bytes.now result }
        ensures calm { (IsErrOf result SaveError.Failed → ⊥) → faults self.new ≡ faults self.old }
        ensures cause { IsErrOf result SaveError.Failed → Rose (faults self.old) (faults self.new) }
        ensures later { faults self.old ≤ faults self.new }
        ensures count { faults self.new < 2 ^ 64 };
}
