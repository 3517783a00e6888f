//! Making a dictionary file of texts.

ghost use Rattle.std.specs.Prelude.{◌≡◌, ◌++◌, ◌^◌, ◌<◌, ◌≤◌, length, OnOk, IfOk};
ghost use Rattle.std.specs.List.{AllByRecursion, dedup};
ghost use Rattle.std.specs.List.Sorted.{IsPermutation, IsSorted};
ghost use Rattle.std.specs.Ordering.{nat_cmp};
ghost use Rattle.std.specs.Str.{bytes_eq};
ghost use Rattle.std.specs.Cmp.Lexicographic.{slice_cmp};
ghost use Rattle.definitions_blocks.specs.Columns.{max_rows};
ghost use Rattle.catalog_core.specs.Texts.{IsText, max_text};
ghost use Rattle.catalog_core.specs.Dictionaries.{AreTexts, entry_of, entries_of, AreDistinctTextsOf};
ghost use Rattle.catalog_core.specs.DictionaryMaking.{IsFileOf};

use crate::dictionary_reading::{HEAD_LEN, LENGTH_LEN, head_of};
use std::alloc::{AllocError, Global};
use stream_core::Bytes;

/// The bytes of a dictionary file, and where each entry starts.
#[derive(Drop)]
pub struct File {
    pub bytes: Vec<u8>,
    pub starts: Vec<u64>,
}

/// Leaves each of the texts once, in their order. They are sorted in place.
pub fn sort_distinct(texts: &mut Vec<Bytes>)
    requires few { length texts.old.items ≤ max_rows }
    requires lawful { AllByRecursion IsText texts.old.items }
    ensures { AreDistinctTextsOf texts.old.items texts.new.items }
{
    sort(texts);
    drop_repeated(texts);
}

fn sort(texts: &mut Vec<Bytes>)
    ensures permutation { IsPermutation texts.old.items texts.new.items }
    ensures sorted { IsSorted (slice_cmp nat_cmp) texts.new.items }
{
    texts.sort_unstable_by(|text, other| text.as_slice().cmp(other.as_slice()));
}

/// Drops each text that is equal to the one before it.
fn drop_repeated(texts: &mut Vec<Bytes>)
    ensures kept { texts.new.items ≡ dedup bytes_eq texts.old.items }
    ensures fewer { length texts.new.items ≤ length texts.old.items }
{
    texts.dedup_by(|text, last| text.as_slice() == last.as_slice());
}

/// The file of texts. Memory is taken for just the bytes and the starts that it has.
pub fn file_of(alloc: Global, texts: &[Bytes]) -> Result<File, AllocError>
    requires { AreTexts texts.now }
    ensures { IfOk result (λ file. IsFileOf texts.now file.bytes.items file.starts.items) }
{
    let mut bytes = Vec::with_capacity(alloc, HEAD_LEN + entries_len(texts))?;
    let mut starts = Vec::with_capacity(alloc, texts.len())?;
    bytes.extend_from_slice(&head_of(texts.len() as u64))?;
    for text in texts {
        starts.push(bytes.len() as u64)?;
        push_entry(&mut bytes, text.as_slice())?;
    }
    Ok(File { bytes, starts })
}

/// How many bytes the entries of texts take.
fn entries_len(texts: &[Bytes]) -> usize
    requires few { length texts.now ≤ max_rows }
    requires lawful { AllByRecursion IsText texts.now }
    ensures len { result ≡ length (entries_of texts.now) }
    ensures bound { result < 2 ^ 45 }
{
    let mut len = 0;
    for text in texts {
        len += LENGTH_LEN + text.as_slice().len();
    }
    len
}

/// Adds the entry of a text.
#[tactic(auto, unfolding(crate::specs::Dictionaries::length_bytes))]
fn push_entry(bytes: &mut Vec<u8>, text: &[u8]) -> Result<(), AllocError>
    requires { length text.now ≤ max_text }
    ensures { OnOk result (bytes.new.items ≡ bytes.old.items ++ entry_of text.now) }
{
    bytes.extend_from_slice(&(text.len() as u32).to_le_bytes())?;
    bytes.extend_from_slice(text)
}
