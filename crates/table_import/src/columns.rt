//! Columns that grow by a row at a time.

ghost use Rattle.std.specs.Prelude.{◌≡◌, ◌≢◌, ◌++◌, ◌∷◌, [], ℕ, Ok, Err, IfErr, OnOk};
ghost use Rattle.table_import.specs.Imports.{number, text, number_of, text_of, value_in};
ghost use Rattle.table_import.specs.Growing.{kind_of, values_of, Takes, last_number};

use crate::errors::ImportError;
use crate::fields::{is_text, number_in};
use catalog_core::Kind;
use dictionary_encoding::DictionaryEncoder;
use std::alloc::Global;

/// A text has at most so many bytes.
const MAX_TEXT: usize = 65_535;

/// The values of a column so far.
#[derive(Drop)]
pub enum GrowingColumn {
    Numbers(Vec<u64>),
    Texts(DictionaryEncoder),
}

impl GrowingColumn {
    /// A column of no values. One of numbers has room for so many, if there is memory for it: pages that are not written yet cost
    /// nothing, and a list that grows is moved again and again.
    pub fn new(alloc: Global, kind: Kind, rows: usize) -> GrowingColumn
        ensures kind { kind_of result ≡ kind }
        ensures empty { values_of result ≡ [] }
    {
        match kind {
            Kind::Number => {
                let mut values = Vec::new(alloc);
                let _ = values.reserve(rows);
                GrowingColumn::Numbers(values)
            }
            Kind::Text => GrowingColumn::Texts(DictionaryEncoder::new(alloc)),
        }
    }

    /// Adds the value of a field, which stands in this row and at this place of it.
    pub fn push(&mut self, row: u64, place: u64, field: &[u8]) -> Result<(), ImportError>
        ensures taken { OnOk result (Takes row place field.now self.old self.new) }
        ensures refused { IfErr result (λ error. error ≢ ImportError.Memory → value_in (kind_of self.old) row place field.now ≡ Err error) }
    {
        match self {
            GrowingColumn::Numbers(values) => push_number(values, row, place, field),
            GrowingColumn::Texts(texts) => push_text(texts, row, place, field),
        }
    }

    /// The number that a column of numbers ends with.
    pub fn last_number(&self) -> u64
        ensures { result ≡ last_number (values_of self.now) }
    {
        match self {
            GrowingColumn::Numbers(values) => values.last().copied().unwrap_or(0),
            GrowingColumn::Texts(_) => 0,
        }
    }
}

fn push_number(values: &mut Vec<u64>, row: u64, field: u64, bytes: &[u8]) -> Result<(), ImportError>
    ensures taken { OnOk result ((value : ℕ) × (number_of row field bytes.now ≡ Ok (number value)) × (values.new.items ≡ values.old.items ++ value ∷ [])) }
    ensures refused { IfErr result (λ error. error ≢ ImportError.Memory → number_of row field bytes.now ≡ Err error) }
{
    let Some(number) = number_in(bytes) else {
        return Err(ImportError::BadNumber { row, field });
    };
    if values.push(number).is_err() {
        return Err(ImportError::Memory);
    }
    Ok(())
}

fn push_text(
    texts: &mut DictionaryEncoder,
    row: u64,
    field: u64,
    bytes: &[u8],
) -> Result<(), ImportError>
    ensures taken { OnOk result ((text_of row field bytes.now ≡ Ok (text bytes.now)) × (texts.new ≡ texts.old ++ bytes.now ∷ [])) }
    ensures refused { IfErr result (λ error. error ≢ ImportError.Memory → text_of row field bytes.now ≡ Err error) }
{
    if !is_text(bytes) {
        return Err(ImportError::BadText { row, field });
    }
    if bytes.len() > MAX_TEXT {
        return Err(ImportError::TextTooLong { row, field });
    }
    texts.push(bytes)?;
    Ok(())
}
