//! A dictionary: the distinct texts of a column, in the order of their bytes.

ghost use Rattle.std.specs.Prelude.{◌≡◌, ◌≢◌, ◌≤◌, length, filter, option_map, slice_get, IfOk, IfErr};
ghost use Rattle.std.specs.List.{AllByRecursion};
ghost use Rattle.definitions_blocks.specs.Columns.{max_rows};
ghost use Rattle.catalog_core.specs.Texts.{IsText};
ghost use Rattle.catalog_core.specs.Dictionaries.{AreTexts, IsDictionaryFile, HasDictionaryFault, AreDistinctTextsOf, code_of, rank_below, rank_through};
ghost use Rattle.catalog_core.specs.DictionarySearch.{is_counted};

use crate::dictionary_making::{file_of, sort_distinct};
use crate::dictionary_reading::read_starts;
use crate::dictionary_search::{code_in, place_in, text_of};
use crate::errors::DictError;
use std::alloc::{AllocError, Global};
use std::marker::Model;
use stream_core::{Bytes, List};

/// Texts that rise strictly by their bytes, over the bytes of their file. The place of each is kept beside it, 8 bytes for a
/// text.
#[derive(Drop)]
pub struct Dictionary {
    bytes: Bytes,
    starts: Vec<u64>,
}

impl Model for Dictionary {
    ghost use Rattle.std.specs.Prelude.{List as Items, ℕ};
    ghost use Rattle.catalog_core.specs.Indexed.{texts_at, IsIndexed};

    ghost Value = { Items (Items ℕ) };

    ghost view = { λ d. texts_at d.bytes d.starts.items };

    ghost invariant = { λ d. IsIndexed d.bytes d.starts.items };
}

impl Dictionary {
    /// The dictionary whose file the bytes are. They are gone over once and kept, and memory is taken for the places of the texts.
    pub fn read(alloc: Global, bytes: Bytes) -> Result<Dictionary, DictError>
        ensures texts { IfOk result (λ texts. IsDictionaryFile texts bytes) }
        ensures fault { IfErr result (λ error. error ≢ DictError.Memory → HasDictionaryFault bytes error) }
    {
        match read_starts(alloc, bytes.as_slice()) {
            Ok(starts) => Ok(Dictionary { bytes, starts }),
            Err(error) => Err(error),
        }
    }

    /// The distinct ones of the texts. They are sorted in place, and memory is taken for the texts that are kept.
    pub fn from_texts(alloc: Global, texts: List<Bytes>) -> Result<Dictionary, AllocError>
        requires few { length texts ≤ max_rows }
        requires lawful { AllByRecursion IsText texts }
        ensures { IfOk result (AreDistinctTextsOf texts) }
    {
        let mut distinct = texts.into_vec();
        sort_distinct(&mut distinct);
        let file = file_of(alloc, distinct.as_slice())?;
        Ok(Dictionary {
            bytes: List::from_vec(file.bytes),
            starts: file.starts,
        })
    }

    /// The bytes of its file.
    pub fn encoded(&self) -> &[u8]
        ensures { IsDictionaryFile self.now result.now }
    {
        self.bytes.as_slice()
    }

    /// How many texts there are.
    pub fn count(&self) -> u64
        ensures count { result ≡ length self.now }
        ensures texts { AreTexts self.now }
    {
        self.starts.len() as u64
    }

    /// The text of a code.
    pub fn text(&self, code: u64) -> Option<&[u8]>
        ensures { option_map (λ text. text.now) result ≡ slice_get self.entry.now code }
    {
        if code >= self.starts.len() as u64 {
            return None;
        }
        Some(text_of(self.bytes.as_slice(), self.starts.as_slice(), code as usize))
    }

    /// The code of a text, if it is one of the texts. Each comparison of texts halves the places that are left, so a million texts
    /// take at most 20.
    pub fn code(&self, text: &[u8]) -> Option<u64>
        ensures { result ≡ code_of text.now self.now }
    {
        code_in(self.bytes.as_slice(), self.starts.as_slice(), text)
    }

    /// How many texts come before a text.
    pub fn rank_below(&self, text: &[u8]) -> u64
        ensures { result ≡ rank_below text.now self.now }
    {
        self.rank(text, false)
    }

    /// How many texts come before a text or are equal to it.
    pub fn rank_through(&self, text: &[u8]) -> u64
        ensures { result ≡ rank_through text.now self.now }
    {
        self.rank(text, true)
    }

    fn rank(&self, text: &[u8], through: bool) -> u64
        ensures { result ≡ length (filter (is_counted through text.now) self.now) }
    {
        place_in(self.bytes.as_slice(), self.starts.as_slice(), text, through) as u64
    }
}
