//! Entries by their keys, in chains by bucket.

ghost use Rattle.std.specs.Prelude.{◌≡◌, ℕ, ◌+◌, ◌-◌, ◌*◌, ◌^◌, ◌<◌, ◌≤◌, ◌++◌, ◌∷◌, [], length, replicate, slice_index, vec_len, vec_capacity, IfOk, OnOk, OnErr, MatchOption};
ghost use Rattle.chain_table.specs.Entries.{entries_of, IsNewestBelow};
ghost use Rattle.chain_table.specs.Buckets.{bucket_of, IsLink, IsChained, IsBegun};

use std::alloc::{AllocError, Global};
use std::marker::Model;

/// An odd number near 2^64 divided by the golden ratio. The high bits of its products are well mixed (Knuth's multiplicative hashing).
const MIXER: u64 = 0x9E37_79B9_7F4A_7C15;

/// How many mixers are tried at most.
const MIXERS: usize = 4;

/// A bucket is crowded if the key changes so often along its entries. With well mixed keys there is hardly ever one.
const CROWD: usize = 16;

/// How many older entries of a bucket are looked at.
const LOOKED_AT: usize = 64;

/// Entries of a key and a value, in the order in which they came. Keys may repeat.
///
/// An entry takes 36 to 52 bytes, from four entries on: 8 for its key, 8 for its value, 4 for a link, and 16 to 32 for the heads of buckets, of which there are at least
/// four an entry. A look-up takes a multiplication, the head of a bucket, and a comparison for each entry in it: 1.25 at most on average if the keys are
/// different and well mixed, and as many as there are entries if all keys fall into one bucket.
#[derive(Drop)]
pub struct Chain {
    /// The newest entry of each bucket, as a link: one more than its number, and 0 for none.
    heads: Vec<u32>,
    keys: Vec<u64>,
    values: Vec<u64>,
    /// The next older entry of each entry's bucket, as a link.
    older: Vec<u32>,
    /// What keys are multiplied with.
    mixer: u64,
    /// How many bits of a product do not tell the bucket: there are 2^(64 - shift) buckets.
    shift: u32,
    room: u32,
}

impl Model for Chain {
    ghost use Rattle.chain_table.specs.Entries.{Entries, entries_of};
    ghost use Rattle.chain_table.specs.Buckets.{IsChained};

    ghost Value = { Entries };

    ghost view = { λ chain. entries_of chain.keys.items chain.values.items chain.room };

    ghost use Rattle.std.specs.Prelude.{◌≤◌, vec_capacity};

    ghost invariant = { λ chain. IsChained chain.mixer chain.shift chain.heads.items chain.keys.items chain.values.items chain.older.items chain.room
        × (chain.room ≤ vec_capacity chain.keys) × (chain.room ≤ vec_capacity chain.values) × (chain.room ≤ vec_capacity chain.older) };
}

impl Chain {
    /// No entries, and room for none. It takes no memory.
    pub fn new(alloc: Global) -> Chain
        ensures { result ≡ entries_of [] [] 0 }
    {
        Chain {
            heads: Vec::new(alloc),
            keys: Vec::new(alloc),
            values: Vec::new(alloc),
            older: Vec::new(alloc),
            mixer: MIXER,
            shift: 60,
            room: 0,
        }
    }

    /// Makes room for so many entries in a chain without entries.
    pub fn reserve(&mut self, entries: u32) -> Result<(), AllocError>
        requires empty { self.old.keys ≡ [] }
        requires few { entries ≤ 268435456 }
        ensures ok { OnOk result (self.new ≡ entries_of [] [] entries) }
        ensures err { OnErr result (self.new ≡ self.old) }
    {
        *self = Chain::with_room(*self.keys.allocator(), entries)?;
        Ok(())
    }

    /// No entries, and room for so many.
    fn with_room(alloc: Global, count: u32) -> Result<Chain, AllocError>
        requires { count ≤ 268435456 }
        ensures { IfOk result (λ chain. chain ≡ entries_of [] [] count) }
    {
        let shift = shift_for(count);
        Ok(Chain {
            heads: zeros(alloc, bucket_count(shift))?,
            keys: Vec::with_capacity(alloc, count as usize)?,
            values: Vec::with_capacity(alloc, count as usize)?,
            older: Vec::with_capacity(alloc, count as usize)?,
            mixer: MIXER,
            shift,
            room: count,
        })
    }

    /// Appends an entry, for which there is room.
    #[inline]
    pub fn insert(&mut self, key: u64, value: u64)
        requires { length self.old.keys < self.old.room }
        ensures { self.new ≡ entries_of (self.old.keys ++ key ∷ []) (self.old.values ++ value ∷ []) self.old.room }
    {
        let bucket = bucket_of(key, self.mixer, self.shift) as usize;
        let entry = self.keys.len() as u32;
        let newest = self.heads[bucket];
        push_word(&mut self.keys, key);
        push_word(&mut self.values, value);
        push_link(&mut self.older, newest);
        self.heads[bucket] = entry + 1;
    }

    /// Puts the entries into buckets by another mixer if a bucket is crowded, as for keys that were chosen to fall into one. Of four mixers at most it
    /// takes the one by which the fewest entries stand in a crowd. It takes no memory, and goes over all entries once, and over all buckets and
    /// entries for each further mixer.
    pub fn balance(&mut self)
        ensures { self.new ≡ self.old }
    {
        let mut best = self.mixer;
        let mut least = crowded(self.keys.as_slice(), self.older.as_slice());
        for _ in 1..MIXERS {
            if least == 0 {
                return;
            }
            self.link_by(self.mixer.wrapping_mul(MIXER));
            let count = crowded(self.keys.as_slice(), self.older.as_slice());
            if count < least {
                best = self.mixer;
                least = count;
            }
        }
        if least > 0 {
            self.link_by(best);
        }
    }

    /// Puts the entries into buckets by a mixer.
    fn link_by(&mut self, mixer: u64)
        ensures { self.new ≡ self.old }
    {
        if self.keys.is_empty() {
            return;
        }
        self.mixer = mixer;
        clear(self.heads.as_mut_slice());
        relink(
            self.mixer,
            self.shift,
            self.keys.as_slice(),
            self.heads.as_mut_slice(),
            self.older.as_mut_slice(),
        );
    }

    /// The newest entry of the key.
    #[inline]
    pub fn first(&self, key: u64) -> Option<u32>
        ensures { IsNewestBelow self.now.keys key (length self.now.keys) result }
    {
        let link = link_at(
            self.heads.as_slice(),
            bucket_of(key, self.mixer, self.shift) as usize,
        );
        entry_of(matching(
            self.mixer,
            self.shift,
            self.keys.as_slice(),
            self.older.as_slice(),
            key,
            self.keys.len(),
            link,
        ))
    }

    /// The next older entry with the key of the entry.
    #[inline]
    pub fn next_of(&self, entry: u32) -> Option<u32>
        requires { entry < length self.now.keys }
        ensures { IsNewestBelow self.now.keys (slice_index self.now.keys entry) entry result }
    {
        let link = self.older[entry as usize];
        entry_of(matching(
            self.mixer,
            self.shift,
            self.keys.as_slice(),
            self.older.as_slice(),
            self.keys[entry as usize],
            entry as usize,
            link,
        ))
    }

    /// The value of the entry.
    #[inline]
    pub fn value(&self, entry: u32) -> u64
        requires { entry < length self.now.keys }
        ensures { result ≡ slice_index self.now.values entry }
    {
        self.values[entry as usize]
    }
}

/// The first link, from a link of the key's bucket on, whose entry has the key.
#[inline]
fn matching(
    _mixer: u64,
    _shift: u32,
    keys: &[u64],
    older: &[u32],
    key: u64,
    _bound: usize,
    from: u32,
) -> u32
    requires { IsBegun _mixer _shift keys.now older.now key _bound from }
    ensures { IsLink keys.now key _bound result }
{
    let mut link = from;
    while link > 0 && keys[link as usize - 1] != key {
        link = older[link as usize - 1];
    }
    link
}

/// The greatest shift by which there are at least 16 buckets, and at least four times the count.
fn shift_for(count: u32) -> u32
    ensures some { 0 < result }
    ensures few { result < 64 }
{
    let mut shift = 60;
    for bits in 4..34 {
        if 1 << bits < 4 * u64::from(count) {
            shift = 63 - bits;
        }
    }
    shift
}

/// How many buckets there are with a shift.
fn bucket_count(shift: u32) -> usize
    requires some { 0 < shift }
    requires few { shift < 64 }
    ensures { result ≡ 2 ^ (64 - shift) }
{
    1 << (64 - shift)
}

/// So many links to nothing.
fn zeros(alloc: Global, count: usize) -> Result<Vec<u32>, AllocError>
    ensures { IfOk result (λ links. links.items ≡ replicate count 0) }
{
    vec![in alloc; 0; count]
}

/// Makes all links name nothing.
fn clear(links: &mut [u32])
    ensures size { length links.new ≡ length links.old }
    ensures none { (bucket : ℕ) → slice_index links.new bucket ≡ 0 }
{
    for index in 0..links.len() {
        links[index] = 0;
    }
}

/// Links all entries anew, in buckets of which none has an entry yet.
fn relink(mixer: u64, shift: u32, keys: &[u64], heads: &mut [u32], older: &mut [u32])
    requires shifts { shift < 64 }
    requires sized { length heads.old ≡ 2 ^ (64 - shift) }
    requires none { (bucket : ℕ) → slice_index heads.old bucket ≡ 0 }
    requires linked { length older.old ≡ length keys.now }
    requires few { length keys.now < 2 ^ 32 }
    ensures size { length heads.new ≡ length heads.old }
    ensures long { length older.new ≡ length older.old }
    ensures links { IsChained mixer shift heads.new keys.now keys.now older.new (length keys.now) }
{
    for entry in 0..keys.len() {
        let bucket = bucket_of(keys[entry], mixer, shift) as usize;
        older[entry] = heads[bucket];
        heads[bucket] = entry as u32 + 1;
    }
}

/// Appends within the capacity.
#[inline]
fn push_word(list: &mut Vec<u64>, value: u64)
    requires { vec_len list.old < vec_capacity list.old }
    ensures items { list.new.items ≡ list.old.items ++ value ∷ [] }
    ensures room { vec_capacity list.old ≤ vec_capacity list.new }
{
    let _ = list.push(value);
}

/// Appends within the capacity.
#[inline]
fn push_link(list: &mut Vec<u32>, value: u32)
    requires { vec_len list.old < vec_capacity list.old }
    ensures items { list.new.items ≡ list.old.items ++ value ∷ [] }
    ensures room { vec_capacity list.old ≤ vec_capacity list.new }
{
    let _ = list.push(value);
}

/// The link at a place, 0 behind all links.
#[inline]
fn link_at(links: &[u32], place: usize) -> u32
    ensures { result ≡ slice_index links.now place }
{
    match links.get(place) {
        Some(link) => *link,
        None => 0,
    }
}

/// The entry that a link names.
#[inline]
fn entry_of(link: u32) -> Option<u32>
    ensures { MatchOption result (link ≡ 0) (λ entry. entry + 1 ≡ link) }
{
    if link == 0 { None } else { Some(link - 1) }
}

/// The bucket of a key.
#[inline]
fn bucket_of(key: u64, mixer: u64, shift: u32) -> u64
    requires { shift < 64 }
    ensures bucket { result ≡ bucket_of mixer shift key }
    ensures within { result < 2 ^ (64 - shift) }
{
    key.wrapping_mul(mixer) >> shift
}

/// How many entries stand in a crowd.
fn crowded(keys: &[u64], older: &[u32]) -> usize {
    let mut count = 0;
    for entry in 0..keys.len() {
        count += usize::from(is_crowded(keys, older, entry));
    }
    count
}

/// Whether the key changes so often along the older entries of an entry's bucket. Only so many of them are looked at.
fn is_crowded(keys: &[u64], older: &[u32], entry: usize) -> bool {
    let mut newer = entry;
    let mut changes = 0;
    for _ in 0..LOOKED_AT {
        let link = link_at(older, newer) as usize;
        if link == 0 {
            return false;
        }
        if keys.get(link - 1) != keys.get(newer) {
            changes += 1;
        }
        if changes == CROWD {
            return true;
        }
        newer = link - 1;
    }
    false
}

#[cfg(test)]
mod tests {
    use super::*;
    use std::test::Fail;

    #[test]
    fn walks_meet_one_key_newest_first(rt: HostRuntime) -> Result<(), Fail> {
        let mut chain = Chain::new(rt.alloc());
        assert_eq!(rt; chain.first(0), None, "no room yet");
        chain.reserve(5)?;
        assert_eq!(rt; chain.first(0), None, "no entries yet");
        chain.insert(0, 10);
        chain.insert(FOE, 11);
        chain.insert(0, 12);
        chain.insert(u64::MAX, 13);
        chain.insert(0, 14);
        assert_eq!(rt; chain.first(0), Some(4), "the newest of three");
        assert_eq!(rt; chain.next_of(4), Some(2), "the one before");
        assert_eq!(rt; chain.next_of(2), Some(0), "the oldest");
        assert_eq!(rt; chain.next_of(0), None, "none before");
        assert_eq!(rt; chain.first(u64::MAX), Some(3), "a key of one entry");
        assert_eq!(rt; chain.next_of(3), None, "no other entry of that key");
        assert_eq!(rt; chain.first(FOE), Some(1), "another key of the bucket");
        assert_eq!(rt;
            chain.first(FOE.wrapping_mul(2)),
            None,
            "a key of the bucket that is not there"
        );
        assert_eq!(rt; chain.first(7), None, "a key of another bucket");
        assert_eq!(rt; chain.value(3), 13, "the value of an entry");
        Ok(())
    }

    /// The inverse of the mixer: products with its multiples are small numbers, which all fall into the first bucket.
    const FOE: u64 = 0xF1DE_83E1_9937_733D;

    #[test]
    fn keys_that_crowd_are_told_apart_by_another_mixer(rt: HostRuntime) -> Result<(), Fail> {
        let mut chain = Chain::new(rt.alloc());
        chain.reserve(100)?;
        for factor in 0..100 {
            chain.insert(FOE.wrapping_mul(factor), factor);
        }
        let before = crowded(chain.keys.as_slice(), chain.older.as_slice());
        assert_eq!(rt; before, 84, "all but the first 16 entries stand in a crowd");
        chain.balance();
        let after = crowded(chain.keys.as_slice(), chain.older.as_slice());
        assert_eq!(rt; after, 0, "none does by another mixer");
        assert_eq!(rt; chain.first(FOE), Some(1), "an entry is found there");
        assert_eq!(rt;
            chain.first(FOE.wrapping_mul(100)),
            None,
            "a key that is not there"
        );
        Ok(())
    }
}
