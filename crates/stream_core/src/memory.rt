//! Sources, sinks and stores in memory, which tell their contents and fail at the calls that they are given by number.

ghost use Rattle.std.specs.Prelude.{◌≡◌, ℕ, ◌+◌, ◌-◌, ◌^◌, ◌<◌, ◌≤◌, ◌⊎◌, min, [], List as Items, length, option_copied, Some, None, is_some, is_err, IfOk, OnOk, OnErr, IsErrOf, true, ◌↔◌, if◌then◌else◌};
ghost use Rattle.std.specs.Io.{ReadsAtMost, WritesAtMost};
ghost use Rattle.std.specs.Io.KnownBytes.{ReadConsumes, WriteAppends};
ghost use Rattle.stream_core.specs.Faults.{Rose, HasCause, next_count};
ghost use Rattle.stream_core.specs.Memory.{is_failing, cannot_write, faults_after};
ghost use Rattle.stream_core.specs.Stores.{Replaces, IsLoaded, IsSaved};

use crate::{Bytes, Failed, List, LoadError, SaveError, Sink, Source, Store};
use std::alloc::{AllocError, Global};
use std::collections::BTreeMap;
use std::marker::Model;

/// Whether the call of this number is to fail.
fn is_failing(failing: &[u64], call: u64) -> bool
    ensures { result ≡ is_failing failing.now call }
{
    failing.iter().any(|number| *number == call)
}

/// Bytes in memory, handed out in pieces.
#[derive(Drop)]
pub struct MemSource {
    bytes: Bytes,
    start: usize,
    piece: usize,
    failing: List<u64>,
    calls: u64,
    faults: u64,
}

impl Model for MemSource {
    ghost use Rattle.std.specs.Prelude.{◌≤◌, ◌<◌, drop, length};
    ghost use Rattle.stream_core.specs.Memory.{SourceState};

    ghost Value = { SourceState };

    ghost view = { λ s. record { left = drop s.start s.bytes; piece = s.piece; failing = s.failing; calls = s.calls; faults = s.faults } };

    ghost invariant = { λ s. (s.start ≤ length s.bytes) × (0 < s.piece) };
}

impl MemSource {
    /// Hands out at most `piece` bytes a call. The calls whose numbers, from 0, are in `failing` fail.
    pub fn new(bytes: Bytes, piece: usize, failing: List<u64>) -> MemSource
        requires { 0 < piece }
        ensures { result ≡ record { left = bytes; piece = piece; failing = failing; calls = 0; faults = 0 } }
    {
        MemSource {
            bytes,
            start: 0,
            piece,
            failing,
            calls: 0,
            faults: 0,
        }
    }
}

impl Source for MemSource {
    ghost left = { λ s. Some s.left };

    ghost faults = { λ s. s.faults };

    fn read(&mut self, into: &mut [u8]) -> Result<usize, Failed>
        ensures bound { ReadsAtMost result into.new }
        ensures bytes { ReadConsumes (Some self.old.left) (Some self.new.left) result into.new }
        ensures told { is_some (Some self.new.left) ≡ is_some (Some self.old.left) }
        ensures cause { HasCause self.old.faults self.new.faults result }
        ensures later { self.old.faults ≤ self.new.faults }
        ensures calm { IfOk result (λ _. self.new.faults ≡ self.old.faults) }
        ensures count { self.new.faults < 2 ^ 64 }
        ensures fails { is_err result ≡ is_failing self.old.failing self.old.calls }
        ensures piece { IfOk result (λ count. count ≤ self.old.piece) }
        ensures calls { self.new.calls ≡ next_count self.old.calls }
        ensures faults { self.new.faults ≡ (if is_err result then next_count self.old.faults else self.old.faults) }
        ensures kept { (self.new.piece ≡ self.old.piece) × (self.new.failing ≡ self.old.failing) }
    {
        let call = self.calls;
        self.calls = call.saturating_add(1);
        if is_failing(self.failing.as_slice(), call) {
            self.faults = self.faults.saturating_add(1);
            return Err(Failed);
        }
        let left = &self.bytes.as_slice()[self.start..];
        let count = left.len().min(into.len()).min(self.piece);
        into[..count].copy_from_slice(&left[..count]);
        self.start += count;
        Ok(count)
    }
}

/// A buffer of fixed capacity, which takes what fits.
#[derive(Drop)]
pub struct MemSink {
    bytes: Vec<u8>,
    capacity: usize,
    failing: List<u64>,
    calls: u64,
    faults: u64,
}

impl Model for MemSink {
    ghost use Rattle.std.specs.Prelude.{◌≤◌, vec_len, vec_capacity};
    ghost use Rattle.stream_core.specs.Memory.{SinkState};

    ghost Value = { SinkState };

    ghost view = { λ s. record { taken = s.bytes.items; capacity = s.capacity; failing = s.failing; calls = s.calls; faults = s.faults } };

    ghost invariant = { λ s. (vec_len s.bytes ≤ s.capacity) × (s.capacity ≤ vec_capacity s.bytes) };
}

impl MemSink {
    /// Takes at most `capacity` bytes in all, for which it makes room now. The calls whose numbers, from 0, are in
    /// `failing` fail, and so does a write of which nothing fits.
    pub fn new(alloc: Global, capacity: usize, failing: List<u64>) -> Result<MemSink, AllocError>
        ensures { IfOk result (λ sink. sink ≡ record { taken = []; capacity = capacity; failing = failing; calls = 0; faults = 0 }) }
    {
        let bytes = Vec::with_capacity(alloc, capacity)?;
        Ok(MemSink {
            bytes,
            capacity,
            failing,
            calls: 0,
            faults: 0,
        })
    }

    /// The bytes that were taken so far.
    pub fn taken(&self) -> &[u8]
        ensures { result.now ≡ self.now.taken }
    {
        self.bytes.as_slice()
    }
}

impl Sink for MemSink {
    ghost taken = { λ s. Some s.taken };

    ghost faults = { λ s. s.faults };

    fn write(&mut self, piece: &[u8]) -> Result<usize, Failed>
        ensures bound { WritesAtMost result piece.now }
        ensures bytes { WriteAppends (Some self.old.taken) (Some self.new.taken) result piece.now }
        ensures progress { IfOk result (λ count. 0 < length piece.now → 0 < count) }
        ensures told { is_some (Some self.new.taken) ≡ is_some (Some self.old.taken) }
        ensures cause { HasCause self.old.faults self.new.faults result }
        ensures later { self.old.faults ≤ self.new.faults }
        ensures calm { IfOk result (λ _. self.new.faults ≡ self.old.faults) }
        ensures count { self.new.faults < 2 ^ 64 }
        ensures fails { is_err result ≡ cannot_write self.old piece.now }
        ensures fits { IfOk result (λ count. count ≡ min (length piece.now) (self.old.capacity - length self.old.taken)) }
        ensures calls { self.new.calls ≡ next_count self.old.calls }
        ensures faults { self.new.faults ≡ (if is_err result then next_count self.old.faults else self.old.faults) }
        ensures kept { (self.new.capacity ≡ self.old.capacity) × (self.new.failing ≡ self.old.failing) }
    {
        let call = self.calls;
        self.calls = call.saturating_add(1);
        let room = self.capacity - self.bytes.len();
        let is_full = room == 0 && !piece.is_empty();
        if is_failing(self.failing.as_slice(), call) || is_full {
            self.faults = self.faults.saturating_add(1);
            return Err(Failed);
        }
        let count = piece.len().min(room);
        self.bytes.extend_from_slice(&piece[..count]).unwrap();
        Ok(count)
    }
}

/// Files in memory.
#[derive(Drop)]
pub struct MemStore {
    entries: BTreeMap<String, Vec<u8>>,
    failing: List<u64>,
    calls: u64,
    faults: u64,
}

impl MemStore {
    ghost use Rattle.stream_core.specs.Entries.{files_of, calls_of, faults_of, failing_of, KeepsCalls};

    /// A store with no file. Loads and saves are numbered together from 0, and those whose numbers are in `failing` fail. A
    /// save that fails leaves the file as it was.
    pub fn new(alloc: Global, failing: List<u64>) -> MemStore
        ensures files { (name : Items ℕ) → files_of result name ≡ None }
        ensures calls { calls_of result ≡ 0 }
        ensures faults { faults_of result ≡ 0 }
        ensures failing { failing_of result ≡ failing }
    {
        MemStore {
            entries: BTreeMap::new(alloc),
            failing,
            calls: 0,
            faults: 0,
        }
    }

    /// Sets a file. This isn't numbered among the calls, and fails only for want of memory.
    pub fn put(&mut self, alloc: Global, name: &str, bytes: &[u8]) -> Result<(), AllocError>
        ensures ok { OnOk result (Replaces (files_of self.old) (files_of self.new) name.now bytes.now) }
        ensures err { OnErr result ((other : Items ℕ) → files_of self.new other ≡ files_of self.old other) }
        ensures calls { KeepsCalls self.old self.new }
    {
        let key = String::from_str(alloc, name)?;
        let value = Vec::from_slice(alloc, bytes)?;
        self.entries.insert(key, value)?;
        Ok(())
    }

    /// The file's bytes, where there is such a file.
    pub fn file(&self, name: &str) -> Option<&[u8]>
        ensures { option_copied result ≡ files_of self.now name.now }
    {
        Some(self.entries.get(name)?.as_slice())
    }
}

impl MemStore {
    ghost use Rattle.stream_core.specs.Entries.{files_of, calls_of, faults_of, failing_of};

    // Counts a load or a save, and says whether it is to fail.
    fn begins_failing_call(&mut self) -> bool
        ensures fails { result ≡ is_failing (failing_of self.old) (calls_of self.old) }
        ensures entries { self.new.entries ≡ self.old.entries }
        ensures calls { calls_of self.new ≡ next_count (calls_of self.old) }
        ensures failing { failing_of self.new ≡ failing_of self.old }
        ensures faults { faults_of self.new ≡ faults_after (failing_of self.old) (calls_of self.old) (faults_of self.old) }
        ensures later { faults_of self.old ≤ faults_of self.new }
        ensures count { faults_of self.new < 2 ^ 64 }
    {
        let call = self.calls;
        let faults = self.faults;
        let fails = is_failing(self.failing.as_slice(), call);
        self.calls = call.saturating_add(1);
        self.faults = if fails {
            faults.saturating_add(1)
        } else {
            faults
        };
        fails
    }
}

impl Store for MemStore {
    ghost use Rattle.stream_core.specs.Entries.{files_of, calls_of, faults_of, failing_of};

    ghost files = { λ s. Some (files_of s) };

    ghost faults = { faults_of };

    fn load(&mut self, alloc: Global, name: &str, limit: u64) -> Result<Option<Bytes>, LoadError>
        ensures loaded { IsLoaded (Some (files_of self.old)) name.now limit result }
        ensures unchanged { Some (files_of self.new) ≡ Some (files_of self.old) }
        ensures calm { (IsErrOf result LoadError.Failed → ⊥) → faults_of self.new ≡ faults_of self.old }
        ensures cause { IsErrOf result LoadError.Failed → Rose (faults_of self.old) (faults_of self.new) }
        ensures later { faults_of self.old ≤ faults_of self.new }
        ensures count { faults_of self.new < 2 ^ 64 }
        ensures fails { IsErrOf result LoadError.Failed ↔ (is_failing (failing_of self.old) (calls_of self.old) ≡ true) }
        ensures calls { calls_of self.new ≡ next_count (calls_of self.old) }
        ensures failing { failing_of self.new ≡ failing_of self.old }
        ensures faults { faults_of self.new ≡ faults_after (failing_of self.old) (calls_of self.old) (faults_of self.old) }
    {
        if self.begins_failing_call() {
            return Err(LoadError::Failed);
        }
        let Some(bytes) = self.file(name) else {
            return Ok(None);
        };
        if bytes.len() as u64 > limit {
            return Err(LoadError::TooLong);
        }
        Ok(Some(List::from_vec(Vec::from_slice(alloc, bytes)?)))
    }

    fn save(&mut self, alloc: Global, name: &str, bytes: &[u8]) -> Result<(), SaveError>
        ensures saved { IsSaved (Some (files_of self.old)) (Some (files_of self.new)) name.now bytes.now result }
        ensures calm { (IsErrOf result SaveError.Failed → ⊥) → faults_of self.new ≡ faults_of self.old }
        ensures cause { IsErrOf result SaveError.Failed → Rose (faults_of self.old) (faults_of self.new) }
        ensures later { faults_of self.old ≤ faults_of self.new }
        ensures count { faults_of self.new < 2 ^ 64 }
        ensures fails { IsErrOf result SaveError.Failed ↔ (is_failing (failing_of self.old) (calls_of self.old) ≡ true) }
        ensures untouched { IsErrOf result SaveError.Failed → (other : Items ℕ) → files_of self.new other ≡ files_of self.old other }
        ensures calls { calls_of self.new ≡ next_count (calls_of self.old) }
        ensures failing { failing_of self.new ≡ failing_of self.old }
        ensures faults { faults_of self.new ≡ faults_after (failing_of self.old) (calls_of self.old) (faults_of self.old) }
    {
        if self.begins_failing_call() {
            return Err(SaveError::Failed);
        }
        self.put(alloc, name, bytes)?;
        Ok(())
    }
}
