//! Searching the texts of a dictionary, by its bytes and the places where entries start.

ghost use Rattle.std.specs.Prelude.{◌≡◌, ◌+◌, ◌<◌, ◌≤◌, true, [], length, take, drop, slice_index_or};
ghost use Rattle.std.specs.Int.{from_le_bytes, w32};
ghost use Rattle.catalog_core.specs.Indexed.{IsIndexed, text_at, texts_at};
ghost use Rattle.catalog_core.specs.Dictionaries.{code_of};
ghost use Rattle.catalog_core.specs.DictionarySearch.{is_counted, PartsAt};
ghost use Rattle.catalog_core.specs.Texts.{is_below};
ghost use Rattle.std.specs.Ordering.{MatchOrdering};

use crate::dictionary_reading::{first_bytes, first_length, rest_from};
use std::cmp::Ordering;

/// The code of a text, if it is one of the texts. Each turn halves the places that are left, by one comparison.
pub fn code_in(bytes: &[u8], starts: &[u64], text: &[u8]) -> Option<u64>
    requires { IsIndexed bytes.now starts.now }
    ensures { result ≡ code_of text.now (texts_at bytes.now starts.now) }
{
    let mut low = 0;
    let mut high = starts.len();
    while low < high {
        let middle = low + (high - low) / 2;
        match order_of(text_of(bytes, starts, middle), text) {
            Ordering::Less => low = middle + 1,
            Ordering::Equal => return Some(middle as u64),
            Ordering::Greater => high = middle,
        }
    }
    None
}

/// How another text stands to the text.
fn order_of(other: &[u8], text: &[u8]) -> Ordering
    ensures { MatchOrdering result (is_below other.now text.now ≡ true) (other.now ≡ text.now) (is_below text.now other.now ≡ true) }
{
    other.cmp(text)
}

/// How many texts come before a text or, if `through`, are equal to it. Each turn halves the places that are left, by one
/// comparison.
pub fn place_in(bytes: &[u8], starts: &[u64], text: &[u8], through: bool) -> usize
    requires { IsIndexed bytes.now starts.now }
    ensures { PartsAt through text.now (texts_at bytes.now starts.now) result }
{
    let mut low = 0;
    let mut high = starts.len();
    while low < high {
        let middle = low + (high - low) / 2;
        if is_counted(text_of(bytes, starts, middle), text, through) {
            low = middle + 1;
        } else {
            high = middle;
        }
    }
    low
}

/// Whether another text comes before the text or, if `through`, is equal to it.
fn is_counted(other: &[u8], text: &[u8], through: bool) -> bool
    ensures { result ≡ is_counted through text.now other.now }
{
    if through {
        !text.cmp(other).is_lt()
    } else {
        other.cmp(text).is_lt()
    }
}

/// The text at a place.
pub fn text_of<'a>(bytes: &'a [u8], starts: &[u64], place: usize) -> &'a [u8]
    requires indexed { IsIndexed bytes.now starts.now }
    requires within { place < length starts.now }
    ensures { result.now ≡ slice_index_or (texts_at bytes.now starts.now) place [] }
{
    text_from(bytes, starts[place] as usize)
}

/// The text of the entry that starts at a place.
fn text_from(bytes: &[u8], start: usize) -> &[u8]
    requires { start + 4 + from_le_bytes w32 (take 4 (drop start bytes.now)) ≤ length bytes.now }
    ensures { result.now ≡ text_at bytes.now start }
{
    let rest = rest_from(bytes, start);
    first_bytes(rest, first_length(rest))
}
