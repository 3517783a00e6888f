//! Reading a dictionary file: its head, and its entries in one pass.

ghost use Rattle.std.specs.Prelude.{◌≡◌, ◌≢◌, ◌+◌, ◌≤◌, ℕ, List as Items, Option, option_map, length, take, drop, true, ◌↔◌, IsTrue, IfOk, IfErr, MatchOption, IsUtf8};
ghost use Rattle.std.specs.Int.{from_le_bytes, w32, w64};
ghost use Rattle.definitions_blocks.specs.Words.{word_bytes};
ghost use Rattle.catalog_core.specs.Indexed.{IsIndexed};
ghost use Rattle.catalog_core.specs.Dictionaries.{dictionary_head, HasDictionaryFault};
ghost use Rattle.catalog_core.specs.DictionaryReading.{BeginsWithCount, LacksCount, may_follow, BeginsWithEntry, LacksText, LacksNext, BeginsWithSome, ReadSo};

use crate::errors::DictError;
use crate::short_texts::{LastEntry, read_short_texts};
use block_core::MAX_ROWS;
use std::alloc::Global;

/// How many bytes stand before the first entry of a dictionary file.
pub const HEAD_LEN: usize = 16;

/// Where the head says in 8 bytes how many entries there are.
const COUNT_AT: usize = 8;

/// How many bytes the length of a text takes, which stands before it.
pub const LENGTH_LEN: usize = 4;

/// How many bytes a text has at most.
const MAX_TEXT: usize = 65_535;

/// What was read of the entries: where each starts, and where the last one ends.
#[derive(Drop)]
struct Entries {
    starts: Vec<u64>,
    end: usize,
}

/// Where each entry of a dictionary file starts.
pub fn read_starts(alloc: Global, bytes: &[u8]) -> Result<Vec<u64>, DictError>
    ensures starts { IfOk result (λ starts. IsIndexed bytes.now starts.items) }
    ensures fault { IfErr result (λ error. error ≢ DictError.Memory → HasDictionaryFault bytes.now error) }
{
    let Some(count) = read_count(bytes) else {
        return Err(DictError::BadHeader);
    };
    let found = read_entries(alloc, bytes, count)?;
    if found.end != bytes.len() {
        return Err(DictError::Trailing);
    }
    Ok(found.starts)
}

/// The count of the head that the bytes begin with, if they begin with one. The 16 bytes are compared with those that their own
/// count asks for.
fn read_count(bytes: &[u8]) -> Option<u64>
    ensures { MatchOption result (LacksCount bytes.now) (λ count. BeginsWithCount count bytes.now) }
{
    if bytes.len() < HEAD_LEN {
        return None;
    }
    let found = &bytes[..HEAD_LEN];
    let count = count_in(found);
    if count > MAX_ROWS {
        return None;
    }
    if !is_head(found, count) {
        return None;
    }
    Some(count)
}

/// Whether the bytes are the head of this count.
fn is_head(found: &[u8], count: u64) -> bool
    ensures { IsTrue result ↔ (found.now ≡ dictionary_head count) }
{
    found == &head_of(count)[..]
}

/// What a head says of how many entries there are.
fn count_in(head: &[u8]) -> u64
    requires { length head.now ≡ 16 }
    ensures { result ≡ from_le_bytes w64 (drop 8 head.now) }
{
    let mut word = [0; 8];
    word.copy_from_slice(&head[COUNT_AT..]);
    u64::from_le_bytes(word)
}

#[tactic(auto, unfolding(definitions_blocks::specs::Words::word_bytes))]
fn word_bytes_of(value: u64) -> [u8; 8]
    ensures { result ≡ word_bytes value }
{
    value.to_le_bytes()
}

/// The head of a file of so many entries.
pub fn head_of(count: u64) -> [u8; 16]
    ensures { result ≡ dictionary_head count }
{
    let mut head = *b"MDIC\x01\0\0\0\0\0\0\0\0\0\0\0";
    head[COUNT_AT..].copy_from_slice(&word_bytes_of(count));
    head
}

/// Reads all entries that the head tells of. Memory is taken for no more starts than the bytes have room for.
fn read_entries(alloc: Global, bytes: &[u8], count: u64) -> Result<Entries, DictError>
    requires { BeginsWithCount count bytes.now }
    ensures ok { IfOk result (λ found. (last : Option (Items ℕ)) × ReadSo bytes.now count found.end found.starts.items last) }
    ensures fault { IfErr result (λ error. error ≢ DictError.Memory → HasDictionaryFault bytes.now error) }
{
    let most = (bytes.len() - HEAD_LEN) / LENGTH_LEN;
    let mut starts = Vec::with_capacity(alloc, most.min(count as usize))?;
    let mut end = HEAD_LEN;
    let mut last = None;
    while (starts.len() as u64) < count {
        let Some(text) = next_text(rest_from(bytes, end), last) else {
            return Err(DictError::BadEntry {
                entry: starts.len() as u64,
            });
        };
        starts.push_reserved(end as u64);
        let read = LastEntry {
            start: end,
            end: end + (LENGTH_LEN + text.len()),
        };
        let found = read_short_texts(bytes, count, &mut starts, read);
        last = Some(text_read(rest_from(bytes, found.start)));
        end = found.end;
    }
    Ok(Entries { starts, end })
}

/// The bytes from a place on.
pub fn rest_from(bytes: &[u8], place: usize) -> &[u8]
    requires { place ≤ length bytes.now }
    ensures { result.now ≡ drop place bytes.now }
{
    &bytes[place..]
}

/// The text of the first entry, if there is one and it may come after the last text.
fn next_text<'a>(bytes: &'a [u8], last: Option<&str>) -> Option<&'a str>
    ensures { MatchOption result
        (LacksNext (option_map (λ text. text.now) last.entry) bytes.entry.now)
        (λ text. BeginsWithEntry text.now bytes.entry.now × (may_follow (option_map (λ text. text.now) last.entry) text.now ≡ true)) }
{
    let text = first_text(bytes)?;
    if follows(last, text) {
        Some(text)
    } else {
        None
    }
}

/// Whether a text may come after the last one. Texts are compared as `str`, whose bytes are compared many at a time.
fn follows(last: Option<&str>, text: &str) -> bool
    ensures { result ≡ may_follow (option_map (λ text. text.now) last.entry) text.now }
{
    match last {
        None => true,
        Some(last) => last < text,
    }
}

/// The text of the first entry, if there is one.
fn first_text(bytes: &[u8]) -> Option<&str>
    ensures { MatchOption result (LacksText bytes.now) (λ text. BeginsWithEntry text.now bytes.now) }
{
    if bytes.len() < LENGTH_LEN {
        return None;
    }
    let length = first_length(bytes);
    if length > MAX_TEXT {
        return None;
    }
    if bytes.len() - LENGTH_LEN < length {
        return None;
    }
    match text_in(first_bytes(bytes, length)) {
        Some(text) => Some(text),
        None => None,
    }
}

/// The bytes as a text, if they are one. Most texts are ASCII, and so text, and ASCII is tested many bytes at a time.
fn text_in(bytes: &[u8]) -> Option<&str>
    ensures { MatchOption result (¬ (IsUtf8 bytes.now)) (λ text. (text.now ≡ bytes.now) × IsUtf8 bytes.now) }
{
    if bytes.is_ascii() {
        return Some(unsafe { std::str::from_utf8_unchecked(bytes) });
    }
    match std::str::from_utf8(bytes) {
        Ok(text) => Some(text),
        Err(_) => None,
    }
}

/// What the first four bytes say of a text's length.
pub fn first_length(bytes: &[u8]) -> usize
    requires { 4 ≤ length bytes.now }
    ensures { result ≡ from_le_bytes w32 (take 4 bytes.now) }
{
    let mut first = [0; LENGTH_LEN];
    first.copy_from_slice(&bytes[..LENGTH_LEN]);
    u32::from_le_bytes(first) as usize
}

/// So many bytes after those of the length.
pub fn first_bytes(bytes: &[u8], count: usize) -> &[u8]
    requires { 4 + count ≤ length bytes.now }
    ensures { result.now ≡ take count (drop 4 bytes.now) }
{
    &bytes[LENGTH_LEN..LENGTH_LEN + count]
}

/// The text of the first entry, which was read before.
fn text_read(bytes: &[u8]) -> &str
    requires { BeginsWithSome bytes.now }
    ensures { BeginsWithEntry result.now bytes.now }
{
    let len = first_length(bytes);
    let text = first_bytes(bytes, len);
    unsafe { std::str::from_utf8_unchecked(text) }
}
