//! Reading the entries of short ASCII texts in one tight loop. Each text is compared with the one before by the number that its bytes
//! make, which fits a word of 128 bits, so that no byte is looked at alone.

ghost use Rattle.std.specs.Prelude.{◌≡◌, ◌+◌, ◌≤◌, length, take, vec_len, vec_capacity, IfSome};
ghost use Rattle.catalog_core.specs.DictionaryReading.{BeginsWithCount, room_for};
ghost use Rattle.catalog_core.specs.ShortTexts.{number_of, BeginsWithShort, ReadUpTo};

use crate::dictionary_reading::{LENGTH_LEN, first_length, rest_from};

/// How many bytes a short text has at most.
const SHORT: usize = 16;

/// A short text: its length, and the number of its bytes.
#[derive(Clone, Copy)]
struct ShortText {
    len: usize,
    number: u128,
}

/// Where the entry of the last text starts, and where it ends.
#[derive(Clone, Copy)]
pub struct LastEntry {
    pub start: usize,
    pub end: usize,
}

/// Reads entries for as long as they are those of short texts that rise, and keeps where each starts. What it does not read may be good
/// or not.
pub fn read_short_texts(
    bytes: &[u8],
    count: u64,
    starts: &mut Vec<u64>,
    last: LastEntry,
) -> LastEntry
    requires head { BeginsWithCount count bytes.now }
    requires few { vec_len starts.old ≤ count }
    requires room { room_for bytes.now count ≤ vec_capacity starts.old }
    requires so { ReadUpTo bytes.now (vec_len starts.old) last.start last.end starts.old.items }
    ensures few { vec_len starts.new ≤ count }
    ensures more { vec_len starts.old ≤ vec_len starts.new }
    ensures room { vec_capacity starts.new ≡ vec_capacity starts.old }
    ensures so { ReadUpTo bytes.now (vec_len starts.new) result.start result.end starts.new.items }
{
    let mut start = last.start;
    let mut end = last.end;
    let Some(first) = short_text(rest_from(bytes, start)) else {
        return last;
    };
    let mut number = first.number;
    for _entry in starts.len() as u64..count {
        let Some(next) = short_text(rest_from(bytes, end)) else {
            break;
        };
        if next.number <= number {
            break;
        }
        starts.push_reserved(end as u64);
        start = end;
        end += LENGTH_LEN + next.len;
        number = next.number;
    }
    LastEntry { start, end }
}

/// The short text of the first entry, if there is one, and the bytes of 16 more stand before the end and are ASCII.
fn short_text(bytes: &[u8]) -> Option<ShortText>
    ensures { IfSome result (λ text. BeginsWithShort bytes.now text.len text.number) }
{
    if bytes.len() < LENGTH_LEN + SHORT {
        return None;
    }
    let len = first_length(bytes);
    if len == 0 || len > SHORT {
        return None;
    }
    let front = &bytes[LENGTH_LEN..LENGTH_LEN + SHORT];
    if !front.is_ascii() {
        return None;
    }
    Some(ShortText {
        len,
        number: number_in(front, len),
    })
}

/// The number of so many bytes. Those that follow are shifted out.
fn number_in(front: &[u8], count: usize) -> u128
    requires { (length front.now ≡ 16) × (1 ≤ count) × (count ≤ 16) }
    ensures { result ≡ number_of 16 (take count front.now) }
{
    let mut bytes = [0; SHORT];
    bytes.copy_from_slice(front);
    let after = 8 * (SHORT - count);
    (u128::from_be_bytes(bytes) >> after) << after
}
