//! The files of the current folder as a store.

ghost use Rattle.std.specs.Prelude.{◌≡◌, ◌≢◌, ◌+◌, ◌^◌, ◌<◌, ◌≤◌, Ok, Err, Some, None, length, take, IfOk, IfErr, IfSome, OnOk, if◌then◌else◌};
ghost use Rattle.std.specs.IoError.{error_kind};
ghost use Rattle.stream_core.specs.Faults.{next_count};

use std::alloc::Global;
use std::fs::OpenFile;
use std::io::{ErrorKind, Read};
use std::marker::Model;
use std::rt::Files;
use std::{fs, io};
use stream_core::{Bytes, List, LoadError, SaveError, Store};

/// The files of the current folder. Contracts see how many calls have failed.
#[derive(Drop)]
pub struct FolderStore<'a, R: Files> {
    rt: &'a R,
    faults: u64,
}

impl<'a, R: Files> Model for FolderStore<'a, R> {
    ghost use Rattle.std.specs.Prelude.{ℕ};

    ghost Value = { ℕ };

    ghost view = { λ store. store.faults };
}

impl<'a, R: Files> FolderStore<'a, R> {
    pub fn new(rt: &'a R) -> FolderStore<'a, R>
        ensures { result ≡ 0 }
    {
        FolderStore { rt, faults: 0 }
    }
}

/// What a file has, at most `limit` bytes and one more. Room for `len` bytes is made at first, so a file of that length is
/// read without moving.
fn read_limited<F: Read + Drop>(alloc: Global, file: F, len: u64, limit: u64) -> io::Result<Vec<u8>>
    ensures { IfOk result (λ bytes. limit + 1 < 2 ^ 64 → IfSome (F.remaining file) (λ left. bytes.items ≡ take (limit + 1) left)) }
{
    let room = usize::try_from(len.min(limit))
        .unwrap_or(0)
        .saturating_add(1);
    let mut bytes = Vec::with_capacity(alloc, room)?;
    file.take(limit.saturating_add(1)).read_to_end(&mut bytes)?;
    Ok(bytes)
}

/// The file's bytes, at most `limit` and one more.
fn read_file<R: Files>(alloc: Global, rt: &R, name: &str, limit: u64) -> io::Result<Vec<u8>> {
    let file = fs::open(rt, name)?;
    let len = file.metadata()?.len();
    read_limited(alloc, file, len, limit)
}

/// What a load answers when the folder gave these bytes or this error.
fn load_answer(found: io::Result<Vec<u8>>, limit: u64) -> Result<Option<Bytes>, LoadError>
    ensures file { IfOk found (λ bytes. length bytes.items ≤ limit → result ≡ Ok (Some bytes.items)) }
    ensures too_long { IfOk found (λ bytes. limit < length bytes.items → result ≡ Err LoadError.TooLong) }
    ensures no_file { IfErr found (λ error. error_kind error ≡ ErrorKind.NotFound → result ≡ Ok None) }
    ensures memory { IfErr found (λ error. error_kind error ≡ ErrorKind.OutOfMemory → result ≡ Err LoadError.Memory) }
    ensures failed { IfErr found (λ error. error_kind error ≢ ErrorKind.NotFound → error_kind error ≢ ErrorKind.OutOfMemory → result ≡ Err LoadError.Failed) }
{
    match found {
        Ok(bytes) if bytes.len() as u64 > limit => Err(LoadError::TooLong),
        Ok(bytes) => Ok(Some(List::from_vec(bytes))),
        Err(error) => match error.kind() {
            ErrorKind::NotFound => Ok(None),
            ErrorKind::OutOfMemory => Err(LoadError::Memory),
            _ => Err(LoadError::Failed),
        },
    }
}

/// Writes the bytes as a file of their own, which then takes the name. So who opens the name finds a whole file, the old one or the new
/// one, also if the program is ended in between. After an error the file of its own is removed.
fn replace_file<R: Files>(alloc: Global, rt: &R, name: &str, bytes: &[u8]) -> io::Result<()> {
    let beside = format!(in alloc; "{name}.new")?;
    let done = match fs::write(rt, beside.as_str(), bytes) {
        Ok(()) => fs::rename(rt, beside.as_str(), name),
        Err(error) => Err(error),
    };
    if done.is_err() {
        let _ = fs::remove_file(rt, beside.as_str());
    }
    done
}

/// What a save answers when the folder ended it so.
fn save_answer(done: io::Result<()>) -> Result<(), SaveError>
    ensures saved { OnOk done (result ≡ Ok tt) }
    ensures memory { IfErr done (λ error. error_kind error ≡ ErrorKind.OutOfMemory → result ≡ Err SaveError.Memory) }
    ensures failed { IfErr done (λ error. error_kind error ≢ ErrorKind.OutOfMemory → result ≡ Err SaveError.Failed) }
{
    match done {
        Ok(()) => Ok(()),
        Err(error) => match error.kind() {
            ErrorKind::OutOfMemory => Err(SaveError::Memory),
            _ => Err(SaveError::Failed),
        },
    }
}

/// The count of failed calls after one more call.
fn faults_after(faults: u64, has_failed: bool) -> u64
    ensures { result ≡ (if has_failed then next_count faults else faults) }
{
    if has_failed {
        faults.saturating_add(1)
    } else {
        faults
    }
}

impl<'a, R: Files> Store for FolderStore<'a, R> {
    ghost files = { λ _. None };

    ghost faults = { λ store. store };

    fn load(&mut self, alloc: Global, name: &str, limit: u64) -> Result<Option<Bytes>, LoadError> {
        let answer = load_answer(read_file(alloc, self.rt, name, limit), limit);
        let has_failed = matches!(&answer, Err(LoadError::Failed));
        self.faults = faults_after(self.faults, has_failed);
        answer
    }

    fn save(&mut self, alloc: Global, name: &str, bytes: &[u8]) -> Result<(), SaveError> {
        let answer = save_answer(replace_file(alloc, self.rt, name, bytes));
        let has_failed = matches!(&answer, Err(SaveError::Failed));
        self.faults = faults_after(self.faults, has_failed);
        answer
    }
}
