//! A column of texts as it grows.
//!
//! The distinct texts stand in a set in the order of their first occurrence, and a text's number is its place there. The numbers are
//! no codes yet: a code depends on the texts that are still to come.

ghost use Rattle.std.specs.Prelude.{◌≡◌, ◌≤◌, ◌++◌, ◌∷◌, [], Some, length, slice_get, IfOk, OnOk, OnErr};
ghost use Rattle.std.specs.List.{AllByRecursion};
ghost use Rattle.definitions_blocks.specs.Columns.{max_rows};
ghost use Rattle.catalog_core.specs.Texts.{IsText};
ghost use Rattle.dictionary_encoding.specs.Coding.{AreCoded};
ghost use Rattle.dictionary_encoding.specs.Numbers.{texts_of, Grows};

use crate::coding::{CodedTexts, codes_of, dictionary_of, replace};
use indexmap::IndexSet;
use std::alloc::{AllocError, Global};
use std::marker::Model;
use stream_core::List;

/// A column of texts as it grows: the distinct texts in the order of their first occurrence, and the number of each pushed text
/// among them.
#[derive(Drop)]
pub struct DictionaryEncoder {
    distinct: IndexSet<Vec<u8>>,
    numbers: Vec<u64>,
}

impl Model for DictionaryEncoder {
    ghost use Rattle.std.specs.Prelude.{List as Items, ℕ};
    ghost use Rattle.dictionary_encoding.specs.Numbers.{texts_of, texts_at, AreNumbers};

    ghost Value = { Items (Items ℕ) };

    ghost view = { λ e. texts_at (texts_of e.distinct.keys) e.numbers.items };

    ghost invariant = { λ e. AreNumbers (texts_of e.distinct.keys) e.numbers.items };
}

impl DictionaryEncoder {
    /// A column of no texts. It takes no memory yet.
    pub fn new(alloc: Global) -> DictionaryEncoder
        ensures { result ≡ [] }
    {
        DictionaryEncoder {
            distinct: IndexSet::new(alloc),
            numbers: Vec::new(alloc),
        }
    }

    /// How many texts were pushed.
    pub fn count(&self) -> u64
        ensures { result ≡ length self.now }
    {
        self.numbers.len() as u64
    }

    /// Pushes a text. A text that was pushed before is hashed once and not copied; a new one is hashed twice, and takes memory. So
    /// does a list that has to grow.
    pub fn push(&mut self, text: &[u8]) -> Result<(), AllocError>
        ensures pushed { OnOk result (self.new ≡ self.old ++ text.now ∷ []) }
        ensures unchanged { OnErr result (self.new ≡ self.old) }
    {
        // With room for it, the number of a text that was added is pushed, too.
        self.numbers.reserve(1)?;
        let number = number_of(&mut self.distinct, text)?;
        self.numbers.push(number)?;
        Ok(())
    }

    /// The dictionary of the texts, and the code of each. The distinct texts are copied once, and the copies sorted; the numbers are
    /// replaced by the codes in place. So for n distinct texts this takes a time of n log n and then a look at each number. At its
    /// peak it holds the distinct texts three times: as they were pushed, sorted, and as the dictionary's file.
    pub fn finish(self) -> Result<CodedTexts, AllocError>
        requires few { length self ≤ max_rows }
        requires lawful { AllByRecursion IsText self }
        ensures { IfOk result (AreCoded self) }
    {
        let distinct = self.distinct;
        let mut numbers = self.numbers;
        let dictionary = dictionary_of(*numbers.allocator(), distinct.as_slice())?;
        let codes = codes_of(*numbers.allocator(), distinct.as_slice(), &dictionary)?;
        replace(numbers.as_mut_slice(), codes.as_slice());
        Ok(CodedTexts {
            codes: List::from_vec(numbers),
            dictionary,
        })
    }
}

/// The number of a text. A text that is not there yet is added as the last one.
fn number_of(distinct: &mut IndexSet<Vec<u8>>, text: &[u8]) -> Result<u64, AllocError>
    ensures number { IfOk result (λ number. slice_get (texts_of distinct.new.keys) number ≡ Some text.now) }
    ensures grows { OnOk result (Grows (texts_of distinct.old.keys) text.now (texts_of distinct.new.keys)) }
    ensures unchanged { OnErr result (distinct.new.keys ≡ distinct.old.keys) }
{
    match distinct.get_index_of(text) {
        Some(number) => Ok(number as u64),
        None => add(distinct, text),
    }
}

/// The number of a text that is added.
fn add(distinct: &mut IndexSet<Vec<u8>>, text: &[u8]) -> Result<u64, AllocError>
    ensures number { IfOk result (λ number. slice_get (texts_of distinct.new.keys) number ≡ Some text.now) }
    ensures grows { OnOk result (Grows (texts_of distinct.old.keys) text.now (texts_of distinct.new.keys)) }
    ensures unchanged { OnErr result (distinct.new.keys ≡ distinct.old.keys) }
{
    let (place, _) = distinct.insert_full(Vec::from_slice(*distinct.allocator(), text)?)?;
    Ok(place as u64)
}
