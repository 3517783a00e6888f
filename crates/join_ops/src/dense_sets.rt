//! Keys that lie close together, as a table of bytes.

ghost use Rattle.std.specs.Prelude.{◌≡◌, ℕ, ◌+◌, ◌-◌, ◌^◌, ◌<◌, ◌≤◌, ◌++◌, ◌∷◌, [], All, length, replicate, slice_index, IfOk};
ghost use Rattle.definitions_operators.specs.Operators.{has};
ghost use Rattle.join_ops.specs.KeySets.{dense_keys, marked, HaveSameKeys, AreDistinct};

use block_core::Steps;
use scan_ops::PlaceTest;
use std::alloc::{AllocError, Global};
use std::marker::Model;

/// Keys from `low` on: the byte at a key's distance from `low` is 1. The last byte is 0, and is read for every value outside the table.
#[derive(Drop)]
pub struct DenseSet {
    low: u64,
    marks: Vec<u8>,
}

impl Model for DenseSet {
    ghost use Rattle.std.specs.Prelude.{◌≡◌, ◌<◌, ◌+◌, ◌-◌, ◌^◌, List, ℕ, length, slice_index};
    ghost use Rattle.join_ops.specs.KeySets.{DenseKeys, dense_keys, marked};

    ghost Value = { DenseKeys };

    ghost view = { λ set. dense_keys set.low (length set.marks.items) (marked set.low set.marks.items) };

    ghost invariant = { λ set. (0 < length set.marks.items) × (slice_index set.marks.items (length set.marks.items - 1) ≡ 0) × (set.low + length set.marks.items < 2 ^ 64 + 1) };
}

impl DenseSet {
    /// No keys, and room for the `len - 1` values from `low` on.
    pub fn none(alloc: Global, low: u64, len: usize) -> Result<DenseSet, AllocError>
        requires some { 0 < len }
        requires fits { low + len < 2 ^ 64 + 1 }
        ensures { IfOk result (λ set. set ≡ dense_keys low len []) }
    {
        Ok(DenseSet {
            low,
            marks: zero_bytes(alloc, len)?,
        })
    }

    /// Adds keys, which must be in the room.
    pub fn add_all(&mut self, keys: &[u64])
        requires { All (λ key. (self.old.low ≤ key) × (key + 1 < self.old.low + self.old.len)) keys.now }
        ensures room { (self.new.low ≡ self.old.low) × (self.new.len ≡ self.old.len) }
        ensures keys { HaveSameKeys self.new.keys (self.old.keys ++ keys.now) }
    {
        mark_keys(self.marks.as_mut_slice(), self.low, keys);
    }

    /// Tells a proof that no key is there twice, and does nothing.
    #[inline(always)]
    pub fn tell(&self)
        ensures { AreDistinct self.now.keys }
    {
        let _ = &self.marks;
    }

    /// Whether the value is a key.
    #[inline(always)]
    pub fn contains(&self, value: u64) -> bool
        ensures { result ≡ has self.now.keys value }
    {
        has_mark(self.marks.as_slice(), self.low, value)
    }
}

/// Whether a value is marked. One below `low` wraps around to a distance that no mark has.
#[inline(always)]
fn has_mark(marks: &[u8], low: u64, value: u64) -> bool
    requires some { 0 < length marks.now }
    requires last { slice_index marks.now (length marks.now - 1) ≡ 0 }
    requires fits { low + length marks.now < 2 ^ 64 + 1 }
    ensures { result ≡ has (marked low marks.now) value }
{
    let last = marks.len() - 1;
    marks[(value.wrapping_sub(low) as usize).min(last)] == 1
}

/// Marks keys.
fn mark_keys(marks: &mut [u8], low: u64, keys: &[u64])
    requires last { slice_index marks.old (length marks.old - 1) ≡ 0 }
    requires within { All (λ key. (low ≤ key) × (key + 1 < low + length marks.old)) keys.now }
    ensures kept { length marks.new ≡ length marks.old }
    ensures last { slice_index marks.new (length marks.old - 1) ≡ 0 }
    ensures keys { HaveSameKeys (marked low marks.new) (marked low marks.old ++ keys.now) }
{
    for key in keys {
        marks[(*key - low) as usize] = 1;
    }
}

/// So many bytes that mark nothing.
fn zero_bytes(alloc: Global, count: usize) -> Result<Vec<u8>, AllocError>
    ensures { IfOk result (λ marks. marks.items ≡ replicate count 0) }
{
    vec![in alloc; 0; count]
}

impl PlaceTest for DenseSet {
    ghost use Rattle.definitions_operators.specs.Operators.{has};

    ghost passes = { λ set. has set.keys };

    ghost cost = { λ _. 1 };

    fn mark<G>(
        &self,
        values: &[u64],
        first: u64,
        places: &mut [u64],
        steps: &mut Steps<G>,
    ) -> usize {
        steps.tick_by(values.len() as u64);
        let mut kept = 0;
        let mut place = first;
        for value in values {
            places[kept] = place;
            place += 1;
            kept += usize::from(self.contains(*value));
        }
        kept
    }
}
