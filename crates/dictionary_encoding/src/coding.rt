//! The codes of a column's texts, once all of them are there.

ghost use Rattle.std.specs.Prelude.{◌≡◌, ◌<◌, ◌≤◌, Some, All, map, length, slice_get, slice_index_or, IfOk};
ghost use Rattle.std.specs.List.{AllByRecursion, Contains};
ghost use Rattle.definitions_blocks.specs.Columns.{max_rows};
ghost use Rattle.catalog_core.specs.Texts.{IsText};
ghost use Rattle.catalog_core.specs.Dictionaries.{AreDistinctTextsOf};
ghost use Rattle.dictionary_encoding.specs.Numbers.{texts_of};

use catalog_core::Dictionary;
use std::alloc::{AllocError, Global};
use stream_core::{Bytes, List};

/// Codes, and the dictionary that they are of.
#[derive(Drop)]
pub struct CodedTexts {
    pub codes: List<u64>,
    pub dictionary: Dictionary,
}

/// The dictionary of texts. It is made of copies.
pub fn dictionary_of(alloc: Global, texts: &[Vec<u8>]) -> Result<Dictionary, AllocError>
    requires few { length texts.now ≤ max_rows }
    requires lawful { AllByRecursion IsText (texts_of texts.now) }
    ensures { IfOk result (AreDistinctTextsOf (texts_of texts.now)) }
{
    Dictionary::from_texts(alloc, List::from_vec(copied(alloc, texts)?))
}

fn copied(alloc: Global, texts: &[Vec<u8>]) -> Result<Vec<Bytes>, AllocError>
    ensures { IfOk result (λ copies. copies.items ≡ texts_of texts.now) }
{
    let mut copies = Vec::with_capacity(alloc, texts.len())?;
    for text in texts {
        copies.push(List::from_vec(Vec::from_slice(alloc, text.as_slice())?))?;
    }
    Ok(copies)
}

/// The code of each of the texts.
pub fn codes_of(
    alloc: Global,
    texts: &[Vec<u8>],
    dictionary: &Dictionary,
) -> Result<Vec<u64>, AllocError>
    requires { All (Contains dictionary.now) (texts_of texts.now) }
    ensures { IfOk result (λ codes. map (slice_get dictionary.now) codes.items ≡ map Some (texts_of texts.now)) }
{
    let mut codes = Vec::with_capacity(alloc, texts.len())?;
    for text in texts {
        codes.push(code_of(dictionary, text.as_slice()))?;
    }
    Ok(codes)
}

/// The code of a text that is there.
fn code_of(dictionary: &Dictionary, text: &[u8]) -> u64
    requires { Contains dictionary.now text.now }
    ensures { slice_get dictionary.now result ≡ Some text.now }
{
    dictionary.code(text).unwrap()
}

/// Replaces each number by its code.
pub fn replace(numbers: &mut [u64], codes: &[u64])
    requires { All (λ number. number < length codes.now) numbers.old }
    ensures { numbers.new ≡ map (λ number. slice_index_or codes.now number 0) numbers.old }
{
    for number in numbers.iter_mut() {
        *number = codes[*number as usize];
    }
}
